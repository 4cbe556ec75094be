//! The definition of a property of an object that is being made (ECMA-262, 7.3.5: CreateDataProperty).
ghost use Rattle.std.specs.Prelude.{◌≡◌, List, IfOk, None, Some, false, true, is_some, nat_eq};
ghost use Rattle.std.specs.Option.{option_map};
ghost use Rattle.js_tree.specs.declared.node.Node as kind;
ghost use Rattle.world_heap.specs.Heaps.{IsNoEnv};
ghost use Rattle.world_heap.specs.Over.{PropertyOver};
ghost use Rattle.world_heap.specs.Table.{found_under};
ghost use Rattle.js_machine.specs.Closed.{IsClosed, Lasts};
ghost use Rattle.js_step_object.specs.Defining.{Defines, body_at};

use js_machine::{Control, Next, State, discard, is_fit, is_prototype, stopped};
use js_semantics::{Fault, StepFault};
use proto_props::{add_property, put_property};
use wl_text::Units;
use world_heap::{Heap, HeapFault, Loc, Property, body};
use world_log::Stop;

// Whether a property may stand in a body: its number is in range, and its locations are those of objects.
fn is_fit_property(heap: &Heap, property: &Property) -> bool
    ensures fits { result ≡ true → PropertyOver (IsNoEnv nat_eq heap.now.cells) property.now }
    ensures only { PropertyOver (IsNoEnv nat_eq heap.now.cells) property.now → result ≡ true }
{
    match property {
        Property::Data { value, .. } => is_fit(heap, value),
        Property::Access { get, set, .. } => is_prototype(heap, get) && is_prototype(heap, set),
    }
}

// Whether a key stands in the body at a location, where there is one.
fn has_key(heap: &Heap, loc: Loc, key: &Units) -> Option<bool>
    ensures { result ≡ option_map (λ b. is_some (found_under b.properties key.now)) (body_at heap.now.cells loc) }
{
    match heap.get(loc) {
        Some(cell) => match body(cell) {
            Some(body) => Some(body.properties.get(key).is_some()),
            None => None,
        },
        None => None,
    }
}

// Puts a property under a key that stands.
fn put_at(
    state: &mut State,
    loc: Loc,
    key: Units,
    property: Property,
) -> Result<Option<Next>, StepFault>
    requires stands { option_map (λ b. is_some (found_under b.properties key)) (body_at state.old.heap.cells loc) ≡ Some true }
    requires fits { PropertyOver (IsNoEnv nat_eq state.old.heap.cells) property }
    ensures does { (nodes : List kind.Node) → IfOk result (λ ended. Defines nodes loc key property state.old state.new ended) }
    ensures closed { (nodes : List kind.Node) → IsClosed nodes state.old → Lasts nodes state.old state.new result }
{
    match put_property(state.alloc, &mut state.heap, loc, key, property) {
        Ok(_) => Ok(None),
        Err(_) => Err(StepFault::Memory),
    }
}

// Puts a property under a new key, with a place.
fn add_at(
    state: &mut State,
    loc: Loc,
    key: Units,
    property: Property,
) -> Result<Option<Next>, StepFault>
    requires stands { option_map (λ b. is_some (found_under b.properties key)) (body_at state.old.heap.cells loc) ≡ Some false }
    requires fits { PropertyOver (IsNoEnv nat_eq state.old.heap.cells) property }
    ensures does { (nodes : List kind.Node) → IfOk result (λ ended. Defines nodes loc key property state.old state.new ended) }
    ensures closed { (nodes : List kind.Node) → IsClosed nodes state.old → Lasts nodes state.old state.new result }
{
    match add_property(state.alloc, &mut state.heap, loc, key, property) {
        Ok(_) => Ok(None),
        Err(HeapFault::Places) => {
            state.turn_to(Control::Stop);
            Ok(Some(stopped(Stop::Places)))
        }
        // A property takes no cells and no units.
        Err(_) => Err(StepFault::Memory),
    }
}

// Throws, since nothing can be defined at the location.
fn refuse(
    state: &mut State,
    loc: Loc,
    key: Units,
    property: Property,
) -> Result<Option<Next>, StepFault>
    requires { body_at state.old.heap.cells loc ≡ None }
    ensures does { (nodes : List kind.Node) → IfOk result (λ ended. Defines nodes loc key property state.old state.new ended) }
    ensures closed { (nodes : List kind.Node) → IsClosed nodes state.old → Lasts nodes state.old state.new result }
{
    discard(key);
    discard(property);
    match state.throw(Fault::ReadOnly) {
        Ok(next) => Ok(Some(next)),
        Err(fault) => Err(fault),
    }
}

/// Defines a property of an object that is being made (ECMA-262, 7.3.5), whatever stands under its key; a new key takes a
/// place. `None` where the row goes on. Else the row has ended: the world stops where no place is left, and `read only`
/// is thrown where the location is that of a cell without properties.
///
/// Errors: `Dangling` where a location in the property is no object's, or its number isn't from -(2^53-1) to 2^53-1;
/// `Memory` where memory runs out.
pub fn define(
    state: &mut State,
    loc: Loc,
    key: Units,
    property: Property,
) -> Result<Option<Next>, StepFault>
    ensures does { (nodes : List kind.Node) → IfOk result (λ ended. Defines nodes loc key property state.old state.new ended) }
    ensures closed { (nodes : List kind.Node) → IsClosed nodes state.old → PropertyOver (IsNoEnv nat_eq state.old.heap.cells) property → Lasts nodes state.old state.new result }
{
    if !is_fit_property(&state.heap, &property) {
        discard(key);
        discard(property);
        return Err(StepFault::Dangling);
    }
    match has_key(&state.heap, loc, &key) {
        Some(true) => put_at(state, loc, key, property),
        Some(false) => add_at(state, loc, key, property),
        None => refuse(state, loc, key, property),
    }
}
