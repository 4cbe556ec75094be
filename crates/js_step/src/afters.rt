//! What follows the reading of a property or a name, or the call of a setter.
ghost use Rattle.std.specs.Prelude.{◌≡◌, ◌+◌, IfOk};
ghost use Rattle.js_names.specs.Patterns.{nodes_of};
ghost use Rattle.js_machine.specs.Closed.{AfterFits, IsClosed, Lasts, ValueFits};
ghost use Rattle.js_machine.specs.Does.{Does, weight};
ghost use Rattle.js_machine.specs.Frames.{after_rest};

use js_calls::after_constructed;
use js_machine::{AfterFrame, Frame, Next, State, discard};
use js_patterns::after_property_read;
use js_semantics::{Outcome, StepFault};
use js_step_access::{after_assign_by, after_assign_instance, after_instance, after_update};
use js_step_call::after_callee;
use js_step_expr::{after_give, after_typeof};
use js_tree::Tree;
use world_heap::Value;

/// What follows the reading of a property or a name, with its value, or the call of a setter.
pub(crate) fn after_frame(
    state: &mut State,
    tree: &Tree,
    frame: AfterFrame,
    value: Value,
) -> Result<Next, StepFault>
    ensures does { IfOk result (λ next. Does (nodes_of tree.now) (weight (Frame.After frame) + 1) (after_rest (nodes_of tree.now) frame value) state.old state.new next) }
    ensures closed { IsClosed (nodes_of tree.now) state.old → AfterFits (nodes_of tree.now) state.old.heap.cells frame → ValueFits state.old.heap.cells value → Lasts (nodes_of tree.now) state.old state.new result }
{
    match frame {
        AfterFrame::Give => after_give(state, value),
        AfterFrame::Result { value: kept } => {
            discard(value);
            state.give(Outcome::Normal(kept))
        }
        AfterFrame::Constructed { object } => after_constructed(state, object, value),
        AfterFrame::Typeof => after_typeof(state, value),
        AfterFrame::Update {
            operator,
            before,
            place,
        } => after_update(state, tree, operator, before, place, value),
        AfterFrame::AssignBy {
            operator,
            value: operand,
            place,
            scope,
        } => after_assign_by(state, tree, operator, operand, place, scope, value),
        AfterFrame::Callee { node, base, scope } => {
            after_callee(state, tree, node, base, scope, value)
        }
        AfterFrame::Instance { left } => after_instance(state, left, value),
        AfterFrame::AssignInstance { left, place } => {
            after_assign_instance(state, tree, left, place, value)
        }
        AfterFrame::PropertyRead {
            node,
            at,
            of,
            scope,
        } => after_property_read(state, tree, node, at, of, scope, value),
    }
}
