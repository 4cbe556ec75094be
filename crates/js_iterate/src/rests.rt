//! What follows the list of a spread in an array literal, and the list of a `for .. of` (ECMA-262, 13.2.4.1, 14.7.5.5).
ghost use Rattle.std.specs.Prelude.{◌≡◌, drop, slice_get, true, IfOk, MatchResult, Some, nat_eq};
ghost use Rattle.world_heap.specs.Heaps.{IsNoEnv};
ghost use Rattle.world_heap.specs.Maps.{find};
ghost use Rattle.js_names.specs.Growing.{IsOpen};
ghost use Rattle.js_names.specs.Patterns.{nodes_of};
ghost use Rattle.js_semantics.specs.Iteration.{elements_into, items_at, push_items};
ghost use Rattle.js_semantics.specs.Prog.{Read, give};
ghost use Rattle.js_semantics.specs.World.{cell_at};
ghost use Rattle.js_machine.specs.Closed.{IsClosed, Lasts, ScopeFits, ValueFits};
ghost use Rattle.js_machine.specs.Does.{Does};
ghost use Rattle.js_machine.specs.Frames.{literal_rest, statement_rest};
ghost use Rattle.js_machine.specs.Parts.{items_of};

use crate::filling::push_values;
use crate::walking::walk_value;
use js_machine::{LiteralFrame, Next, State, StatementFrame, copy_values, discard};
use js_semantics::{Scope, StepFault};
use js_step_object::elements_from;
use js_step_stmt::{Walk, of_turn};
use js_tree::{NodeId, Tree};
use sqlite_items::Items;
use std::alloc::Global;
use world_heap::{Cell, Heap, Loc, Value};

// The items of a cell, where it is an array.
fn items_in(alloc: Global, cell: &Cell) -> Result<Items<Value>, StepFault>
    ensures { MatchResult result (λ items. items ≡ items_at (Some cell.now)) (λ fault. fault ≡ StepFault.Memory) }
{
    match cell {
        Cell::Array { items, .. } => copy_values(alloc, items.as_slice()),
        _ => Ok(Items::new(alloc)),
    }
}

/// The items of the array at a location; none where no array stands there. The cost is linear in them.
pub fn items_at(alloc: Global, heap: &Heap, loc: Loc) -> Result<Items<Value>, StepFault>
    ensures { MatchResult result (λ items. items ≡ items_at (find nat_eq heap.now.cells loc)) (λ fault. fault ≡ StepFault.Memory) }
{
    match heap.get(loc) {
        Some(cell) => items_in(alloc, cell),
        None => Ok(Items::new(alloc)),
    }
}

// Puts the items of the array that is walked into the array of a literal, and goes on with the elements behind.
fn spread_into(
    state: &mut State,
    tree: &Tree,
    node: NodeId,
    next: usize,
    array: Loc,
    scope: Scope,
    walked: Loc,
) -> Result<Next, StepFault>
    ensures does { IfOk result (λ ended. Does (nodes_of tree.now) 6 (Read (λ w. push_items array (items_at (cell_at walked w)) (elements_into array (drop next (items_of (slice_get (nodes_of tree.now) node.0))) scope (give (Value.Ref array))))) state.old state.new ended) }
    ensures closed { IsClosed (nodes_of tree.now) state.old → IsNoEnv nat_eq state.old.heap.cells array → IsOpen state.old.heap.cells array → ScopeFits (nodes_of tree.now) state.old.heap.cells scope → Lasts (nodes_of tree.now) state.old state.new result }
{
    let items = items_at(state.alloc, &state.heap, walked)?;
    match push_values(state, array, items.as_slice())? {
        None => elements_from(state, tree, node, next, array, scope),
        Some(ended) => {
            discard(scope);
            Ok(ended)
        }
    }
}

/// The rest of a frame of a spread in an array literal (ECMA-262, 13.2.4.1): what its value is walked as is put into the
/// array, and the elements behind it follow. A value that can't be walked throws.
///
/// # Errors
/// `Memory` where there is none; `Dangling` where a location was met that stands nowhere.
pub fn element_spread(
    state: &mut State,
    tree: &Tree,
    node: NodeId,
    next: usize,
    array: Loc,
    scope: Scope,
    value: &Value,
) -> Result<Next, StepFault>
    ensures does { IfOk result (λ ended. Does (nodes_of tree.now) 6 (literal_rest (nodes_of tree.now) (LiteralFrame.Element node next true array scope) value.now) state.old state.new ended) }
    ensures closed { IsClosed (nodes_of tree.now) state.old → IsNoEnv nat_eq state.old.heap.cells array → IsOpen state.old.heap.cells array → ScopeFits (nodes_of tree.now) state.old.heap.cells scope → ValueFits state.old.heap.cells value.now → Lasts (nodes_of tree.now) state.old state.new result }
{
    match walk_value(state, value)? {
        Ok(walked) => spread_into(state, tree, node, next, array, scope, walked),
        Err(ended) => {
            discard(scope);
            Ok(ended)
        }
    }
}

/// The rest of a frame of the list of a `for .. of` (ECMA-262, 14.7.5.5): the first turn over what the value is walked
/// as. A value that can't be walked throws.
///
/// # Errors
/// `Memory` where there is none; `Dangling` where a location was met that stands nowhere.
pub fn for_of_list(
    state: &mut State,
    tree: &Tree,
    constant: bool,
    bind: NodeId,
    body: NodeId,
    scope: Scope,
    value: &Value,
) -> Result<Next, StepFault>
    ensures does { IfOk result (λ ended. Does (nodes_of tree.now) 6 (statement_rest (nodes_of tree.now) (StatementFrame.ForOfList constant bind body scope) value.now) state.old state.new ended) }
    ensures closed { IsClosed (nodes_of tree.now) state.old → ScopeFits (nodes_of tree.now) state.old.heap.cells scope → ValueFits state.old.heap.cells value.now → Lasts (nodes_of tree.now) state.old state.new result }
{
    match walk_value(state, value)? {
        Ok(array) => {
            let walk = Walk {
                constant,
                bind,
                body,
                array,
            };
            of_turn(state, tree, walk, 0, scope)
        }
        Err(ended) => {
            discard(scope);
            Ok(ended)
        }
    }
}
