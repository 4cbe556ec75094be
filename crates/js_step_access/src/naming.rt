//! Reading a name, of which `typeof` says that it may be declared nowhere (ECMA-262, 9.4.2 and 13.5.3.1).
ghost use Rattle.std.specs.Prelude.{List, IfOk, nat_eq, slice_get};
ghost use Rattle.world_heap.specs.Heaps.{IsCell};
ghost use Rattle.js_tree.specs.declared.node.Node as kind;
ghost use Rattle.js_semantics.specs.Expressions.{row_name};
ghost use Rattle.js_machine.specs.Closed.{AfterFits, IsClosed, IsNamed, Lasts, ScopeFits};
ghost use Rattle.js_machine.specs.Does.{Does};
ghost use Rattle.js_machine.specs.Frames.{after_rest};
ghost use Rattle.js_machine.specs.Parts.{name_of};
ghost use Rattle.js_names.specs.Patterns.{nodes_of};
ghost use Rattle.js_calls.specs.Closed.{NamedFits};
ghost use Rattle.js_calls.specs.Naming.{read_by};
ghost use Rattle.js_step_expr.specs.Left.{left_of, undeclared};

use crate::keys::name_at;
use js_calls::{Named, get, meaning_of};
use js_machine::{AfterFrame, Next, State, discard};
use js_semantics::{Fault, Scope, StepFault};
use js_step_expr::{Remaining, give_type};
use js_tree::{NodeId, Tree};
use wl_text::Units;
use world_heap::{Loc, Value};

// A name is declared nowhere: that is an error, but for `typeof`.
fn read_nothing(state: &mut State, frame: AfterFrame) -> Result<Next, StepFault>
    ensures does { (nodes : List kind.Node) → IfOk result (λ next. Does nodes 6 (undeclared frame) state.old state.new next) }
    ensures closed { (nodes : List kind.Node) → IsClosed nodes state.old → AfterFits nodes state.old.heap.cells frame → Lasts nodes state.old state.new result }
{
    match frame {
        AfterFrame::Typeof => give_type(state, Value::Undefined),
        other => {
            discard(other);
            state.throw(Fault::NotDefined)
        }
    }
}

// Goes on with what a name stands for.
#[tactic(auto, unfolding(js_calls::specs::Naming::read_by))]
fn read_meant(
    state: &mut State,
    tree: &Tree,
    meant: Named,
    name: &Units,
    frame: AfterFrame,
) -> Result<Next, StepFault>
    ensures does { IfOk result (λ next. Does (nodes_of tree.now) 6 (read_by meant name.now (undeclared frame) (λ v. after_rest (nodes_of tree.now) frame v)) state.old state.new next) }
    ensures closed { IsClosed (nodes_of tree.now) state.old → NamedFits state.old.heap.cells meant → AfterFits (nodes_of tree.now) state.old.heap.cells frame → Lasts (nodes_of tree.now) state.old state.new result }
{
    match meant {
        Named::Held(value) => state.hand(frame, value),
        Named::Unready => {
            discard(frame);
            state.throw(Fault::NotReady)
        }
        Named::Global(global) => get(state, tree, global, name, frame),
        Named::Nowhere => read_nothing(state, frame),
    }
}

/// Reads the name of a node, over the frame of what is done with its value. A name that is declared nowhere is an error,
/// but `typeof` takes it for undefined. The cost is that of `meaning_of`, and of `get` for a property of the global object.
pub fn read_name(
    state: &mut State,
    tree: &Tree,
    node: NodeId,
    env: Loc,
    frame: AfterFrame,
) -> Result<Next, StepFault>
    ensures does { IfOk result (λ next. Does (nodes_of tree.now) 6 (left_of (nodes_of tree.now) (Remaining.Read node env frame)) state.old state.new next) }
    ensures closed { IsClosed (nodes_of tree.now) state.old → IsNamed (nodes_of tree.now) node → IsCell nat_eq state.old.heap.cells env → AfterFits (nodes_of tree.now) state.old.heap.cells frame → Lasts (nodes_of tree.now) state.old state.new result }
{
    match name_at(tree, node) {
        Some(name) => {
            let meant = meaning_of(state, env, name)?;
            read_meant(state, tree, meant, name, frame)
        }
        None => {
            discard(frame);
            Err(StepFault::Dangling)
        }
    }
}

/// A name (ECMA-262, 13.1.3): its value is that of the row. The node is that of the row, which has the name.
#[tactic(auto, unfolding(js_semantics::specs::Expressions::row_name))]
pub fn row_name(
    state: &mut State,
    tree: &Tree,
    node: NodeId,
    scope: Scope,
) -> Result<Next, StepFault>
    ensures does { IfOk result (λ next. Does (nodes_of tree.now) 6 (row_name (name_of (slice_get (nodes_of tree.now) node.0)) scope) state.old state.new next) }
    ensures closed { IsClosed (nodes_of tree.now) state.old → IsNamed (nodes_of tree.now) node → ScopeFits (nodes_of tree.now) state.old.heap.cells scope → Lasts (nodes_of tree.now) state.old state.new result }
{
    let env = scope.env;
    discard(scope);
    read_name(state, tree, node, env, AfterFrame::Give)
}
