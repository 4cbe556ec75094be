//! What operators leave, done (ECMA-262, 13.3, 13.4, 13.5.3, 13.10.2 and 13.15).
ghost use Rattle.std.specs.Prelude.{IfOk};
ghost use Rattle.js_names.specs.Patterns.{nodes_of};
ghost use Rattle.js_machine.specs.Closed.{IsClosed, Lasts};
ghost use Rattle.js_machine.specs.Does.{Does};
ghost use Rattle.js_step_expr.specs.Fitting.{RemainingFits};
ghost use Rattle.js_step_expr.specs.Left.{left_of};

use crate::instance::instance_of;
use crate::naming::read_name;
use crate::usage::use_property;
use crate::writing::assign_place;
use js_machine::{Next, State};
use js_semantics::StepFault;
use js_step_expr::Remaining;
use js_tree::Tree;

/// Does what an operator has left: a name or property is read, written or removed, or `instanceof` told.
pub fn finish(state: &mut State, tree: &Tree, remaining: Remaining) -> Result<Next, StepFault>
    ensures does { IfOk result (λ next. Does (nodes_of tree.now) 6 (left_of (nodes_of tree.now) remaining) state.old state.new next) }
    ensures closed { IsClosed (nodes_of tree.now) state.old → RemainingFits (nodes_of tree.now) state.old.heap.cells remaining → Lasts (nodes_of tree.now) state.old state.new result }
{
    match remaining {
        Remaining::Read { node, env, frame } => read_name(state, tree, node, env, frame),
        Remaining::Property {
            base,
            key,
            usage,
            scope,
        } => use_property(state, tree, usage, base, key, scope),
        Remaining::Write { place, value } => assign_place(state, tree, place, value),
        Remaining::Instance { left, right, place } => instance_of(state, tree, left, right, place),
    }
}
