//! The rows of patterns of names and arrays (ECMA-262, 14.3.3).
ghost use Rattle.std.specs.Prelude.{◌≡◌, ◌+◌, ◌-◌, ◌^◌, ◌<◌, ◌∷◌, drop, nat_eq, slice_get, List, IfOk, MatchResult, Some};
ghost use Rattle.js_tree.specs.declared.node.Node as kind;
ghost use Rattle.world_heap.specs.Maps.{find};
ghost use Rattle.js_names.specs.Patterns.{nodes_of};
ghost use Rattle.js_semantics.specs.Access.{bind_value, or_default};
ghost use Rattle.js_semantics.specs.Environments.{fill_name};
ghost use Rattle.js_semantics.specs.Iteration.{items_at};
ghost use Rattle.js_semantics.specs.Prog.{change, done};
ghost use Rattle.js_semantics.specs.Statements.{bind_array, bind_elements, item_or_undefined};
ghost use Rattle.world_heap.specs.declared.value.Value.TheVariants.{Ref};
ghost use Rattle.js_step_stmt.specs.Choices.{is_array_cell};
ghost use Rattle.js_machine.specs.Does.{Does};
ghost use Rattle.js_machine.specs.Parts.{elements_of};
ghost use Rattle.js_machine.specs.Frames.{pattern_rest};
ghost use Rattle.js_machine.specs.Closed.{IsClosed, Lasts, ScopeFits, ValueFits};
ghost use Rattle.world_heap.specs.Heaps.{IsNoEnv};

use crate::lists::elements_of;
use js_machine::{
    Frame, Next, PatternFrame, State, ValueFrame, copy_scope, default_of, done, next_of,
};
use js_names::fill_name;
use js_semantics::{Fault, Scope, StepFault};
use js_tree::{BindElement, NodeId, Tree};
use std::alloc::Global;
use wl_text::Units;
use world_heap::{Cell, Heap, Loc, Value};

/// A frame of a pattern.
pub fn pattern(frame: PatternFrame) -> Frame
    ensures { result ≡ Frame.OnValue (ValueFrame.Pattern frame) }
{
    Frame::OnValue(ValueFrame::Pattern(frame))
}

/// Gives the innermost binding of a name its value (ECMA-262, 8.6.2.1).
pub fn bind_name(
    state: &mut State,
    name: &Units,
    value: Value,
    scope: Scope,
) -> Result<Next, StepFault>
    ensures does { (nodes : List kind.Node) → IfOk result (λ next. Does nodes 6 (change (fill_name scope.env name.now value) done) state.old state.new next) }
    ensures closed { (nodes : List kind.Node) → IsClosed nodes state.old → ValueFits state.old.heap.cells value → ScopeFits nodes state.old.heap.cells scope → Lasts nodes state.old state.new result }
{
    fill_name(state.alloc, &mut state.heap, scope.env, name, value)?;
    done(state)
}

// The item of an array in a cell.
fn item_in(alloc: Global, cell: &Cell, place: usize) -> Result<Option<Value>, StepFault>
    ensures { MatchResult result (λ item. item ≡ slice_get (items_at (Some cell.now)) place) (λ fault. fault ≡ StepFault.Memory) }
{
    match cell {
        Cell::Array { items, .. } => match items.get(place) {
            Some(item) => Ok(Some(item.copy(alloc)?)),
            None => Ok(None),
        },
        _ => Ok(None),
    }
}

/// A copy of the item at a place of an array, where it has one.
pub fn item_at(
    alloc: Global,
    heap: &Heap,
    array: Loc,
    place: usize,
) -> Result<Option<Value>, StepFault>
    ensures { MatchResult result (λ item. item ≡ slice_get (items_at (find nat_eq heap.now.cells array)) place) (λ fault. fault ≡ StepFault.Memory) }
{
    match heap.get(array) {
        Some(cell) => item_in(alloc, cell, place),
        None => Ok(None),
    }
}

// Binds the value of an element, and leaves those behind it.
fn bind_element(
    state: &mut State,
    bind: NodeId,
    node: NodeId,
    next: usize,
    array: Loc,
    scope: Scope,
    value: Value,
) -> Result<Next, StepFault>
    ensures does { (nodes : List kind.Node) → IfOk result (λ made. Does nodes 6 (bind_value bind value scope (bind_elements (drop next (elements_of (slice_get nodes node.0))) next array scope)) state.old state.new made) }
    ensures closed { (nodes : List kind.Node) → IsClosed nodes state.old → IsNoEnv nat_eq state.old.heap.cells array → ScopeFits nodes state.old.heap.cells scope → ValueFits state.old.heap.cells value → Lasts nodes state.old state.new result }
{
    let inner = copy_scope(state.alloc, &scope)?;
    let frame = PatternFrame::ElementBound {
        node,
        next,
        array,
        scope,
    };
    state.bind(pattern(frame), bind, value, inner)
}

// The value of an element, which is undefined where the array ends before it.
fn value_of(item: Option<Value>) -> Value
    ensures { result ≡ item_or_undefined item }
{
    match item {
        Some(value) => value,
        None => Value::Undefined,
    }
}

// Evaluates the default of an element, or binds what the array has there.
fn element(
    state: &mut State,
    part: BindElement,
    node: NodeId,
    at: usize,
    array: Loc,
    scope: Scope,
    value: Value,
) -> Result<Next, StepFault>
    requires { at < 2 ^ 64 - 1 }
    ensures does { (nodes : List kind.Node) → drop at (elements_of (slice_get nodes node.0)) ≡ part ∷ drop (at + 1) (elements_of (slice_get nodes node.0)) → IfOk result (λ made. Does nodes 6 (or_default part.default value scope (λ y. bind_value part.bind y scope (bind_elements (drop (at + 1) (elements_of (slice_get nodes node.0))) (at + 1) array scope))) state.old state.new made) }
    ensures closed { (nodes : List kind.Node) → IsClosed nodes state.old → IsNoEnv nat_eq state.old.heap.cells array → ScopeFits nodes state.old.heap.cells scope → ValueFits state.old.heap.cells value → Lasts nodes state.old state.new result }
{
    match default_of(&value, part.default) {
        Some(default) => {
            let inner = copy_scope(state.alloc, &scope)?;
            let frame = PatternFrame::ElementDefault {
                node,
                at,
                array,
                scope,
            };
            state.enter(pattern(frame), default, inner)
        }
        None => bind_element(state, part.bind, node, at + 1, array, scope, value),
    }
}

/// The elements of an array pattern from a place on, as the array has them then.
pub fn bind_elements(
    state: &mut State,
    tree: &Tree,
    node: NodeId,
    at: usize,
    array: Loc,
    scope: Scope,
) -> Result<Next, StepFault>
    ensures does { IfOk result (λ made. Does (nodes_of tree.now) 6 (bind_elements (drop at (elements_of (slice_get (nodes_of tree.now) node.0))) at array scope) state.old state.new made) }
    ensures closed { IsClosed (nodes_of tree.now) state.old → IsNoEnv nat_eq state.old.heap.cells array → ScopeFits (nodes_of tree.now) state.old.heap.cells scope → Lasts (nodes_of tree.now) state.old state.new result }
{
    match next_of(elements_of(tree, node), at) {
        Some(found) => {
            let value = value_of(item_at(state.alloc, &state.heap, array, at)?);
            element(state, found.0, node, at, array, scope, value)
        }
        None => done(state),
    }
}

/// Binds the default of an element that was undefined.
pub fn element_defaulted(
    state: &mut State,
    tree: &Tree,
    node: NodeId,
    at: usize,
    array: Loc,
    scope: Scope,
    value: Value,
) -> Result<Next, StepFault>
    ensures does { IfOk result (λ made. Does (nodes_of tree.now) 6 (pattern_rest (nodes_of tree.now) (PatternFrame.ElementDefault node at array scope) value) state.old state.new made) }
    ensures closed { IsClosed (nodes_of tree.now) state.old → IsNoEnv nat_eq state.old.heap.cells array → ScopeFits (nodes_of tree.now) state.old.heap.cells scope → ValueFits state.old.heap.cells value → Lasts (nodes_of tree.now) state.old state.new result }
{
    match next_of(elements_of(tree, node), at) {
        Some((part, next)) => bind_element(state, part.bind, node, next, array, scope, value),
        None => done(state),
    }
}

// Whether a location is that of an array.
fn is_array(heap: &Heap, loc: Loc) -> bool
    ensures { result ≡ is_array_cell (find nat_eq heap.now.cells loc) }
{
    match heap.get(loc) {
        Some(Cell::Array { .. }) => true,
        _ => false,
    }
}

/// An array pattern: what isn't an array can't be walked.
pub fn bind_array(
    state: &mut State,
    tree: &Tree,
    node: NodeId,
    value: Value,
    scope: Scope,
) -> Result<Next, StepFault>
    ensures does { IfOk result (λ made. Does (nodes_of tree.now) 6 (bind_array (elements_of (slice_get (nodes_of tree.now) node.0)) value scope) state.old state.new made) }
    ensures closed { IsClosed (nodes_of tree.now) state.old → ValueFits state.old.heap.cells value → ScopeFits (nodes_of tree.now) state.old.heap.cells scope → Lasts (nodes_of tree.now) state.old state.new result }
{
    match value {
        Value::Ref(loc) => bind_array_at(state, tree, node, loc, scope),
        _ => state.throw(Fault::NotIterable),
    }
}

// The same of a location.
fn bind_array_at(
    state: &mut State,
    tree: &Tree,
    node: NodeId,
    loc: Loc,
    scope: Scope,
) -> Result<Next, StepFault>
    ensures does { IfOk result (λ made. Does (nodes_of tree.now) 6 (bind_array (elements_of (slice_get (nodes_of tree.now) node.0)) (Ref loc) scope) state.old state.new made) }
    ensures closed { IsClosed (nodes_of tree.now) state.old → IsNoEnv nat_eq state.old.heap.cells loc → ScopeFits (nodes_of tree.now) state.old.heap.cells scope → Lasts (nodes_of tree.now) state.old state.new result }
{
    if is_array(&state.heap, loc) {
        bind_elements(state, tree, node, 0, loc, scope)
    } else {
        state.throw(Fault::NotIterable)
    }
}
