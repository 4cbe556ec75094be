//! Properties whose objects and keys are evaluated in place where their values are at hand (ECMA-262, 13.3.2).
ghost use Rattle.std.specs.Prelude.{IfOk, slice_get};
ghost use Rattle.js_names.specs.Patterns.{nodes_of};
ghost use Rattle.js_semantics.specs.Expressions.{row_dot, row_index};
ghost use Rattle.js_machine.specs.Closed.{FrameFits, IsClosed, IsNamed, Lasts, ScopeFits, ValueFits};
ghost use Rattle.js_machine.specs.declared.frame.Frame.TheVariants.{OnValue};
ghost use Rattle.js_machine.specs.declared.frame.ValueFrame.TheVariants.{Property};
ghost use Rattle.js_machine.specs.Does.{Does};
ghost use Rattle.js_machine.specs.Frames.{property_rest};
ghost use Rattle.js_machine.specs.Parts.{name_of};

use crate::finishing::finish;
use crate::usage::use_property;
use js_machine::{Key, Next, PropertyFrame, State, Use, discard};
use js_primary::{Taken, take_value};
use js_semantics::{Scope, StepFault};
use js_step_expr::index_object;
use js_tree::{NodeId, Tree};
use world_heap::Value;

/// What is done with the value of a part of a property, by what it has left.
pub(crate) fn property_part(
    state: &mut State,
    tree: &Tree,
    frame: PropertyFrame,
    value: Value,
) -> Result<Next, StepFault>
    ensures does { IfOk result (λ next. Does (nodes_of tree.now) 6 (property_rest (nodes_of tree.now) frame value) state.old state.new next) }
    ensures closed { IsClosed (nodes_of tree.now) state.old → FrameFits (nodes_of tree.now) state.old.heap.cells (OnValue (Property frame)) → ValueFits state.old.heap.cells value → Lasts (nodes_of tree.now) state.old state.new result }
{
    match js_step_expr::property(state, frame, value)? {
        Ok(next) => Ok(next),
        Err(remaining) => finish(state, tree, remaining),
    }
}

/// The object of a property whose key is evaluated: the key is evaluated in place, or entered.
pub(crate) fn key_operand(
    state: &mut State,
    tree: &Tree,
    key: NodeId,
    usage: Use,
    scope: Scope,
    base: Value,
) -> Result<Next, StepFault>
    ensures does { IfOk result (λ next. Does (nodes_of tree.now) 6 (property_rest (nodes_of tree.now) (PropertyFrame.IndexObject key usage scope) base) state.old state.new next) }
    ensures closed { IsClosed (nodes_of tree.now) state.old → ScopeFits (nodes_of tree.now) state.old.heap.cells scope → ValueFits state.old.heap.cells base → Lasts (nodes_of tree.now) state.old state.new result }
{
    match take_value(state, tree, key, &scope)? {
        Taken::Value(value) => {
            let frame = PropertyFrame::IndexKey { base, usage, scope };
            property_part(state, tree, frame, value)
        }
        Taken::Ended(next) => {
            discard(base);
            discard(scope);
            Ok(next)
        }
        Taken::Nothing => index_object(state, key, usage, scope, base),
    }
}

/// `object.name` (ECMA-262, 13.3.2): the object is evaluated in place, or entered. The node is that of the row, which has
/// the name.
#[tactic(auto, unfolding(js_semantics::specs::Expressions::row_dot))]
pub fn row_dot(
    state: &mut State,
    tree: &Tree,
    node: NodeId,
    object: NodeId,
    scope: Scope,
) -> Result<Next, StepFault>
    ensures does { IfOk result (λ next. Does (nodes_of tree.now) 6 (row_dot object (name_of (slice_get (nodes_of tree.now) node.0)) scope) state.old state.new next) }
    ensures closed { IsClosed (nodes_of tree.now) state.old → IsNamed (nodes_of tree.now) node → ScopeFits (nodes_of tree.now) state.old.heap.cells scope → Lasts (nodes_of tree.now) state.old state.new result }
{
    match take_value(state, tree, object, &scope)? {
        Taken::Value(base) => use_property(state, tree, Use::Get, base, Key::Named(node), scope),
        Taken::Ended(next) => {
            discard(scope);
            Ok(next)
        }
        Taken::Nothing => js_step_expr::row_dot(state, node, object, scope),
    }
}

/// `object[key]` (ECMA-262, 13.3.2): the object is evaluated in place, or entered.
#[tactic(auto, unfolding(js_semantics::specs::Expressions::row_index))]
pub fn row_index(
    state: &mut State,
    tree: &Tree,
    object: NodeId,
    key: NodeId,
    scope: Scope,
) -> Result<Next, StepFault>
    ensures does { IfOk result (λ next. Does (nodes_of tree.now) 6 (row_index object key scope) state.old state.new next) }
    ensures closed { IsClosed (nodes_of tree.now) state.old → ScopeFits (nodes_of tree.now) state.old.heap.cells scope → Lasts (nodes_of tree.now) state.old state.new result }
{
    match take_value(state, tree, object, &scope)? {
        Taken::Value(base) => key_operand(state, tree, key, Use::Get, scope, base),
        Taken::Ended(next) => {
            discard(scope);
            Ok(next)
        }
        Taken::Nothing => js_step_expr::row_index(state, object, key, scope),
    }
}
