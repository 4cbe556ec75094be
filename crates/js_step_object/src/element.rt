//! The elements of array literals (ECMA-262, 13.2.4).
ghost use Rattle.std.specs.Prelude.{◌≡◌, [], ◌∷◌, drop, slice_get, true, List, IfOk, Some, nat_eq};
ghost use Rattle.js_tree.specs.declared.node.Node as kind;
ghost use Rattle.proto_props.specs.Adds.{IsOpenArray};
ghost use Rattle.world_heap.specs.Heaps.{IsNoEnv};
ghost use Rattle.js_names.specs.Growing.{IsOpen};
ghost use Rattle.js_names.specs.Patterns.{nodes_of};
ghost use Rattle.js_semantics.specs.Access.{make_array};
ghost use Rattle.js_semantics.specs.Iteration.{elements_into, items_at, push_item, push_items, values_of, walk_value};
ghost use Rattle.js_semantics.specs.Objects.{row_array};
ghost use Rattle.js_semantics.specs.Prog.{Read, eval, give, step};
ghost use Rattle.js_semantics.specs.World.{cell_at};
ghost use Rattle.js_machine.specs.Closed.{IsClosed, Lasts, ScopeFits, ValueFits};
ghost use Rattle.js_machine.specs.Does.{Does};
ghost use Rattle.js_machine.specs.Parts.{items_of};
ghost use Rattle.js_step_object.specs.Defining.{Comes, Makes};
ghost use Rattle.js_step_object.specs.Elements.{is_open_array, spread_in};

use crate::functions::Making;
use crate::member::literal;
use js_machine::{
    Control, LiteralFrame, Next, State, copy_scope, discard, is_fit, items_of, next_of, node_at,
    stopped,
};
use js_semantics::{Outcome, Scope, StepFault};
use js_tree::{Node, NodeId, Tree};
use proto_props::push_item;
use sqlite_items::Items;
use world_heap::{Cell, Heap, HeapFault, Loc, Value};
use world_log::Stop;

// Whether a cell is an array that isn't frozen.
fn is_open_array(cell: &Cell) -> bool
    ensures { result ≡ is_open_array cell.now }
{
    match cell {
        Cell::Array { frozen, .. } => !*frozen,
        _ => false,
    }
}

// Whether an array that isn't frozen stands at a location.
fn is_open(heap: &Heap, loc: Loc) -> bool
    ensures fits { result ≡ true → IsOpenArray heap.now.cells loc }
    ensures only { IsOpenArray heap.now.cells loc → result ≡ true }
{
    match heap.get(loc) {
        Some(cell) => is_open_array(cell),
        None => false,
    }
}

// Makes an array without elements.
fn empty_array(state: &mut State) -> Result<Making, StepFault>
    ensures does { (nodes : List kind.Node) → IfOk result (λ made. Makes nodes (λ k. make_array [] k) state.old state.new made) }
    ensures closed { (nodes : List kind.Node) → IsClosed nodes state.old → Lasts nodes state.old state.new result }
    ensures fits { (nodes : List kind.Node) → IsClosed nodes state.old → IfOk result (λ made. IfOk made (λ loc. IsNoEnv nat_eq state.new.heap.cells loc × IsOpen state.new.heap.cells loc)) }
{
    let items = Items::new(state.alloc);
    match state.make_array(items)? {
        Ok(loc) => Ok(Ok(loc)),
        Err(stop) => Ok(Err(stopped(stop))),
    }
}

/// Adds an element at the end of an array that is being made, with its place. `None` where the row goes on; else it has
/// ended, since no place is left and the world stops.
///
/// Errors: `Dangling` where the location is not that of an array that isn't frozen, or where the value can't stand in a
/// cell; `Memory` where memory runs out.
pub fn push(state: &mut State, array: Loc, value: Value) -> Result<Option<Next>, StepFault>
    ensures does { (nodes : List kind.Node) → IfOk result (λ ended. Comes nodes (λ p. push_item array value p) state.old state.new ended) }
    ensures closed { (nodes : List kind.Node) → IsClosed nodes state.old → IsOpen state.old.heap.cells array → ValueFits state.old.heap.cells value → Lasts nodes state.old state.new result }
{
    if !is_fit(&state.heap, &value) {
        discard(value);
        return Err(StepFault::Dangling);
    }
    if !is_open(&state.heap, array) {
        discard(value);
        return Err(StepFault::Dangling);
    }
    match push_item(state.alloc, &mut state.heap, array, value) {
        Ok(_) => Ok(None),
        Err(HeapFault::Places) => {
            state.turn_to(Control::Stop);
            Ok(Some(stopped(Stop::Places)))
        }
        // An element takes no cells and no units.
        Err(_) => Err(StepFault::Memory),
    }
}

// The node whose values a spread gives, where a node is a spread.
fn spread_in(node: &Node) -> Option<NodeId>
    ensures { result ≡ spread_in (Some node.now) }
{
    match node {
        Node::Spread(list) => Some(*list),
        _ => None,
    }
}

/// The node whose values a spread puts into an array literal or among arguments, where the element with a number is a
/// spread (ECMA-262, 13.2.4 and 13.3.8). The cost is constant.
pub fn spread_of(tree: &Tree, element: NodeId) -> Option<NodeId>
    ensures { result ≡ spread_in (slice_get (nodes_of tree.now) element.0) }
{
    match node_at(tree, element) {
        Some(node) => spread_in(node),
        None => None,
    }
}

// Enters an element that isn't spread.
fn enter_one(
    state: &mut State,
    node: NodeId,
    next: usize,
    element: NodeId,
    array: Loc,
    scope: Scope,
) -> Result<Next, StepFault>
    ensures does { (nodes : List kind.Node) → IfOk result (λ ended. Does nodes 6 (eval element scope (λ v. push_items array (v ∷ []) (elements_into array (drop next (items_of (slice_get nodes node.0))) scope (give (Value.Ref array))))) state.old state.new ended) }
    ensures closed { (nodes : List kind.Node) → IsClosed nodes state.old → IsNoEnv nat_eq state.old.heap.cells array → IsOpen state.old.heap.cells array → ScopeFits nodes state.old.heap.cells scope → Lasts nodes state.old state.new result }
{
    let inner = copy_scope(state.alloc, &scope)?;
    let frame = LiteralFrame::Element {
        node,
        next,
        spread: false,
        array,
        scope,
    };
    state.enter(literal(frame), element, inner)
}

// Enters the list of a spread, whose own step is taken first.
fn enter_spread(
    state: &mut State,
    node: NodeId,
    next: usize,
    list: NodeId,
    array: Loc,
    scope: Scope,
) -> Result<Next, StepFault>
    ensures does { (nodes : List kind.Node) → IfOk result (λ ended. Does nodes 6 (step (eval list scope (λ v. walk_value v (λ walked. Read (λ w. push_items array (items_at (cell_at walked w)) (elements_into array (drop next (items_of (slice_get nodes node.0))) scope (give (Value.Ref array)))))))) state.old state.new ended) }
    ensures closed { (nodes : List kind.Node) → IsClosed nodes state.old → IsNoEnv nat_eq state.old.heap.cells array → IsOpen state.old.heap.cells array → ScopeFits nodes state.old.heap.cells scope → Lasts nodes state.old state.new result }
{
    let inner = copy_scope(state.alloc, &scope)?;
    if !state.step_down() {
        discard(inner);
        discard(scope);
        return Ok(stopped(Stop::Fuel));
    }
    let frame = LiteralFrame::Element {
        node,
        next,
        spread: true,
        array,
        scope,
    };
    state.enter(literal(frame), list, inner)
}

// Enters an element of an array literal.
fn enter_element(
    state: &mut State,
    tree: &Tree,
    node: NodeId,
    next: usize,
    element: NodeId,
    array: Loc,
    scope: Scope,
) -> Result<Next, StepFault>
    ensures does { IfOk result (λ ended. Does (nodes_of tree.now) 6 (Read (λ w. values_of (slice_get w.tree element.0) element scope (λ vs. push_items array vs (elements_into array (drop next (items_of (slice_get (nodes_of tree.now) node.0))) scope (give (Value.Ref array)))))) state.old state.new ended) }
    ensures closed { IsClosed (nodes_of tree.now) state.old → IsNoEnv nat_eq state.old.heap.cells array → IsOpen state.old.heap.cells array → ScopeFits (nodes_of tree.now) state.old.heap.cells scope → Lasts (nodes_of tree.now) state.old state.new result }
{
    match spread_of(tree, element) {
        None => enter_one(state, node, next, element, array, scope),
        Some(list) => enter_spread(state, node, next, list, array, scope),
    }
}

/// The elements of an array literal from a place on, put into the array one after another, and then the array.
pub fn elements_from(
    state: &mut State,
    tree: &Tree,
    node: NodeId,
    at: usize,
    array: Loc,
    scope: Scope,
) -> Result<Next, StepFault>
    ensures does { IfOk result (λ next. Does (nodes_of tree.now) 6 (elements_into array (drop at (items_of (slice_get (nodes_of tree.now) node.0))) scope (give (Value.Ref array))) state.old state.new next) }
    ensures closed { IsClosed (nodes_of tree.now) state.old → IsNoEnv nat_eq state.old.heap.cells array → IsOpen state.old.heap.cells array → ScopeFits (nodes_of tree.now) state.old.heap.cells scope → Lasts (nodes_of tree.now) state.old state.new result }
{
    match next_of(items_of(tree, node), at) {
        Some((element, next)) => enter_element(state, tree, node, next, element, array, scope),
        None => {
            discard(scope);
            state.give(Outcome::Normal(Value::Ref(array)))
        }
    }
}

/// The row of an array literal (ECMA-262, 13.2.4.2).
pub fn row_array(
    state: &mut State,
    tree: &Tree,
    node: NodeId,
    scope: Scope,
) -> Result<Next, StepFault>
    ensures does { IfOk result (λ next. Does (nodes_of tree.now) 6 (row_array (items_of (slice_get (nodes_of tree.now) node.0)) scope) state.old state.new next) }
    ensures closed { IsClosed (nodes_of tree.now) state.old → ScopeFits (nodes_of tree.now) state.old.heap.cells scope → Lasts (nodes_of tree.now) state.old state.new result }
{
    match empty_array(state)? {
        Ok(array) => elements_from(state, tree, node, 0, array, scope),
        Err(next) => {
            discard(scope);
            Ok(next)
        }
    }
}

/// The rest of a frame of an element that isn't spread: its value is put into the array, and the next elements follow.
pub fn element_value(
    state: &mut State,
    tree: &Tree,
    node: NodeId,
    next: usize,
    array: Loc,
    scope: Scope,
    value: Value,
) -> Result<Next, StepFault>
    ensures does { IfOk result (λ ended. Does (nodes_of tree.now) 6 (push_items array (value ∷ []) (elements_into array (drop next (items_of (slice_get (nodes_of tree.now) node.0))) scope (give (Value.Ref array)))) state.old state.new ended) }
    ensures closed { IsClosed (nodes_of tree.now) state.old → IsNoEnv nat_eq state.old.heap.cells array → IsOpen state.old.heap.cells array → ScopeFits (nodes_of tree.now) state.old.heap.cells scope → ValueFits state.old.heap.cells value → Lasts (nodes_of tree.now) state.old state.new result }
{
    match push(state, array, value)? {
        None => elements_from(state, tree, node, next, array, scope),
        Some(ended) => {
            discard(scope);
            Ok(ended)
        }
    }
}
