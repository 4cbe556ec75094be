//! The operator `instanceof` (ECMA-262, 13.10.2).
ghost use Rattle.std.specs.Prelude.{◌≡◌, IfOk, List, MatchResult, codes};
ghost use Rattle.world_heap.specs.Over.{OptionOver};
ghost use Rattle.js_tree.specs.declared.node.Node as kind;
ghost use Rattle.js_step_expr.specs.Left.{left_of};
ghost use Rattle.js_machine.specs.Closed.{IsClosed, Lasts, PlaceFits, ValueFits};
ghost use Rattle.js_machine.specs.Does.{Does};
ghost use Rattle.js_machine.specs.Frames.{after_rest};
ghost use Rattle.js_names.specs.Patterns.{nodes_of};
ghost use Rattle.js_step_access.specs.Instances.{instance_after};

use crate::inheritance::instance_in;
use crate::writing::write_place;
use js_calls::get;
use js_machine::{AfterFrame, Next, Place, State, discard};
use js_operators::{is_callable_value, short_text};
use js_semantics::{Fault, Outcome, StepFault};
use js_step_expr::Remaining;
use js_tree::Tree;
use std::alloc::Global;
use wl_text::Units;
use world_heap::Value;

// What follows the `prototype` of the right side.
fn frame_of(left: Value, place: Option<Place>) -> AfterFrame
    ensures { result ≡ instance_after left place }
{
    match place {
        Some(place) => AfterFrame::AssignInstance { left, place },
        None => AfterFrame::Instance { left },
    }
}

/// Reads the `prototype` of the right side of `instanceof`, over the frame of what is done with it; a right side that
/// can't be called is the error `WrongOperand`. The result is given, and before that written where there is a place.
pub fn instance_of(
    state: &mut State,
    tree: &Tree,
    left: Value,
    right: Value,
    place: Option<Place>,
) -> Result<Next, StepFault>
    ensures does { IfOk result (λ next. Does (nodes_of tree.now) 6 (left_of (nodes_of tree.now) (Remaining.Instance left right place)) state.old state.new next) }
    ensures closed { IsClosed (nodes_of tree.now) state.old → ValueFits state.old.heap.cells left → ValueFits state.old.heap.cells right → OptionOver (PlaceFits (nodes_of tree.now) state.old.heap.cells) place → Lasts (nodes_of tree.now) state.old state.new result }
{
    if !is_callable_value(&state.heap, &right) {
        discard(left);
        discard(right);
        discard(place);
        return state.throw(Fault::WrongOperand);
    }
    let key = prototype_key(state.alloc)?;
    get(state, tree, right, &key, frame_of(left, place))
}

// The text `prototype`, as a key.
fn prototype_key(alloc: Global) -> Result<Units, StepFault>
    ensures { MatchResult result (λ key. key ≡ codes "prototype") (λ fault. fault ≡ StepFault.Memory) }
{
    Ok(short_text(alloc, "prototype")?)
}

/// `instanceof` with the `prototype` of its right side: whether that is on the chain of prototypes above the left side. A
/// `prototype` that is no object is the error `NotAnObject`. The cost is linear in the chain.
pub fn after_instance(state: &mut State, left: Value, prototype: Value) -> Result<Next, StepFault>
    ensures does { (nodes : List kind.Node) → IfOk result (λ next. Does nodes 4 (after_rest nodes (AfterFrame.Instance left) prototype) state.old state.new next) }
    ensures closed { (nodes : List kind.Node) → IsClosed nodes state.old → ValueFits state.old.heap.cells left → ValueFits state.old.heap.cells prototype → Lasts nodes state.old state.new result }
{
    match instance_in(&state.heap, &left, &prototype) {
        Some(told) => {
            discard(left);
            discard(prototype);
            state.give(Outcome::Normal(Value::Bool(told)))
        }
        None => {
            discard(left);
            discard(prototype);
            state.throw(Fault::NotAnObject)
        }
    }
}

/// The same where the result is assigned: it is written first, and then given.
pub fn after_assign_instance(
    state: &mut State,
    tree: &Tree,
    left: Value,
    place: Place,
    prototype: Value,
) -> Result<Next, StepFault>
    ensures does { IfOk result (λ next. Does (nodes_of tree.now) 4 (after_rest (nodes_of tree.now) (AfterFrame.AssignInstance left place) prototype) state.old state.new next) }
    ensures closed { IsClosed (nodes_of tree.now) state.old → ValueFits state.old.heap.cells left → PlaceFits (nodes_of tree.now) state.old.heap.cells place → ValueFits state.old.heap.cells prototype → Lasts (nodes_of tree.now) state.old state.new result }
{
    match instance_in(&state.heap, &left, &prototype) {
        Some(told) => {
            discard(left);
            discard(prototype);
            write_place(state, tree, place, Value::Bool(told), Value::Bool(told))
        }
        None => {
            discard(left);
            discard(prototype);
            discard(place);
            state.throw(Fault::NotAnObject)
        }
    }
}
