//! The array that is walked for a value (ECMA-262, 7.4.3: GetIterator).
ghost use Rattle.std.specs.Prelude.{◌≡◌, [], List, IfOk, MatchResult, Some, nat_eq};
ghost use Rattle.js_tree.specs.declared.node.Node as kind;
ghost use Rattle.world_heap.specs.Heaps.{IsNoEnv};
ghost use Rattle.world_heap.specs.Maps.{find};
ghost use Rattle.world_heap.specs.Over.{ListOver};
ghost use Rattle.js_semantics.specs.Access.{make_array};
ghost use Rattle.js_semantics.specs.Iteration.{points_of, push_entries, push_items, push_texts, walk_value};
ghost use Rattle.js_semantics.specs.Prog.{throw};
ghost use Rattle.js_machine.specs.Closed.{IsClosed, ValueFits};
ghost use Rattle.js_step_object.specs.Defining.{Makes};
ghost use Rattle.js_iterate.specs.Closed.{EntryFits, LastsMaking, WalkedFits};
ghost use Rattle.js_iterate.specs.Walking.{walk_found, walked_in};

use crate::filling::{new_array, push_entries, push_points, push_values};
use js_machine::{Next, State, copy_values};
use js_semantics::{Fault, StepFault};
use sqlite_items::Items;
use std::alloc::Global;
use wl_text::Units;
use world_heap::{Cell, Heap, Loc, MapEntry, Value};

/// The location of the array that is walked; or the row has ended, since the value can't be walked or the world stops.
pub type Walking = Result<Loc, Next>;

/// What of a cell is walked.
#[derive(Drop)]
pub enum Walked<L = Loc> {
    /// The cell is an array, which is walked as it stands.
    Itself,
    /// The values of a Set.
    Values(Items<Value<L>>),
    /// The entries of a Map.
    Entries(Items<MapEntry<L>>),
    /// The cell can't be walked.
    Nothing,
}

// The same entry again.
fn copy_entry(alloc: Global, entry: &MapEntry) -> Result<MapEntry, StepFault>
    ensures { MatchResult result (λ copy. copy ≡ entry.now) (λ fault. fault ≡ StepFault.Memory) }
{
    let key = entry.key.copy(alloc)?;
    let value = entry.value.copy(alloc)?;
    Ok(MapEntry { key, value })
}

// The same entries again.
fn copy_entries(alloc: Global, entries: &[MapEntry]) -> Result<Items<MapEntry>, StepFault>
    ensures { MatchResult result (λ copies. copies ≡ entries.now) (λ fault. fault ≡ StepFault.Memory) }
{
    let mut copies = Items::new(alloc);
    'entries: for entry in entries {
        let copy = copy_entry(alloc, entry)?;
        copies.push(copy)?;
    }
    Ok(copies)
}

// What of a cell is walked. The entries of a Map and the values of a Set are copied, since the heap grows while they are
// put into an array.
#[tactic(auto, unfolding(crate::specs::Walking::walked_in))]
fn walked_in(alloc: Global, cell: &Cell) -> Result<Walked, StepFault>
    ensures { MatchResult result (λ found. found ≡ walked_in (Some cell.now)) (λ fault. fault ≡ StepFault.Memory) }
{
    match cell {
        Cell::Array { .. } => Ok(Walked::Itself),
        Cell::Map { entries, .. } => Ok(Walked::Entries(copy_entries(alloc, entries.as_slice())?)),
        Cell::Set { entries, .. } => Ok(Walked::Values(copy_values(alloc, entries.as_slice())?)),
        _ => Ok(Walked::Nothing),
    }
}

// What is walked of the cell at a location.
#[tactic(auto, unfolding(crate::specs::Walking::walked_in))]
fn walked_at(alloc: Global, heap: &Heap, loc: Loc) -> Result<Walked, StepFault>
    ensures { MatchResult result (λ found. found ≡ walked_in (find nat_eq heap.now.cells loc)) (λ fault. fault ≡ StepFault.Memory) }
{
    match heap.get(loc) {
        Some(cell) => walked_in(alloc, cell),
        None => Ok(Walked::Nothing),
    }
}

// Throws, since the value can't be walked.
fn refuse(state: &mut State) -> Result<Walking, StepFault>
    ensures does { (nodes : List kind.Node) → IfOk result (λ made. Makes nodes (λ k. throw Fault.NotIterable) state.old state.new made) }
    ensures closed { (nodes : List kind.Node) → IsClosed nodes state.old → LastsMaking (IsNoEnv nat_eq) nodes state.old state.new result }
{
    match state.throw(Fault::NotIterable) {
        Ok(next) => Ok(Err(next)),
        Err(fault) => Err(fault),
    }
}

// A new array of values.
fn walk_values(state: &mut State, values: &[Value]) -> Result<Walking, StepFault>
    ensures does { (nodes : List kind.Node) → IfOk result (λ made. Makes nodes (λ k. make_array [] (λ array. push_items array values.now (k array))) state.old state.new made) }
    ensures closed { (nodes : List kind.Node) → IsClosed nodes state.old → ListOver (ValueFits state.old.heap.cells) values.now → LastsMaking (IsNoEnv nat_eq) nodes state.old state.new result }
{
    let empty = Items::new(state.alloc);
    let array = match new_array(state, empty)? {
        Ok(array) => array,
        Err(next) => return Ok(Err(next)),
    };
    match push_values(state, array, values)? {
        None => Ok(Ok(array)),
        Some(next) => Ok(Err(next)),
    }
}

// A new array of the entries of a Map.
fn walk_entries(state: &mut State, entries: &[MapEntry]) -> Result<Walking, StepFault>
    ensures does { (nodes : List kind.Node) → IfOk result (λ made. Makes nodes (λ k. make_array [] (λ array. push_entries array entries.now (k array))) state.old state.new made) }
    ensures closed { (nodes : List kind.Node) → IsClosed nodes state.old → ListOver (EntryFits state.old.heap.cells) entries.now → LastsMaking (IsNoEnv nat_eq) nodes state.old state.new result }
{
    let empty = Items::new(state.alloc);
    let array = match new_array(state, empty)? {
        Ok(array) => array,
        Err(next) => return Ok(Err(next)),
    };
    match push_entries(state, array, entries)? {
        None => Ok(Ok(array)),
        Some(next) => Ok(Err(next)),
    }
}

// A new array of the code points of a text.
fn walk_text(state: &mut State, text: &Units) -> Result<Walking, StepFault>
    ensures does { (nodes : List kind.Node) → IfOk result (λ made. Makes nodes (λ k. make_array [] (λ array. push_texts array (points_of text.now) (k array))) state.old state.new made) }
    ensures closed { (nodes : List kind.Node) → IsClosed nodes state.old → LastsMaking (IsNoEnv nat_eq) nodes state.old state.new result }
{
    let empty = Items::new(state.alloc);
    let array = match new_array(state, empty)? {
        Ok(array) => array,
        Err(next) => return Ok(Err(next)),
    };
    match push_points(state, array, text)? {
        None => Ok(Ok(array)),
        Some(next) => Ok(Err(next)),
    }
}

// The array that is walked for what was found at a location.
#[tactic(auto, unfolding(crate::specs::Walking::walk_found))]
fn walk_found(state: &mut State, found: &Walked, loc: Loc) -> Result<Walking, StepFault>
    ensures does { (nodes : List kind.Node) → IfOk result (λ made. Makes nodes (λ k. walk_found found.now loc k) state.old state.new made) }
    ensures closed { (nodes : List kind.Node) → IsClosed nodes state.old → WalkedFits state.old.heap.cells found.now → IsNoEnv nat_eq state.old.heap.cells loc → LastsMaking (IsNoEnv nat_eq) nodes state.old state.new result }
{
    match found {
        Walked::Itself => Ok(Ok(loc)),
        Walked::Values(values) => walk_values(state, values.as_slice()),
        Walked::Entries(entries) => walk_entries(state, entries.as_slice()),
        Walked::Nothing => refuse(state),
    }
}

// The array that is walked for a location.
fn walk_loc(state: &mut State, loc: Loc) -> Result<Walking, StepFault>
    ensures does { (nodes : List kind.Node) → IfOk result (λ made. Makes nodes (λ k. walk_value (Value.Ref loc) k) state.old state.new made) }
    ensures closed { (nodes : List kind.Node) → IsClosed nodes state.old → IsNoEnv nat_eq state.old.heap.cells loc → LastsMaking (IsNoEnv nat_eq) nodes state.old state.new result }
{
    let found = walked_at(state.alloc, &state.heap, loc)?;
    walk_found(state, &found, loc)
}

/// The array that is walked for a value (ECMA-262, 7.4.3): an array as it stands; for a Map a new array of the key and
/// the value of each entry, for a Set one of its values, for a string one of its code points, whose cells, places and
/// units are counted. The row has ended where the world stops, or with `not iterable` thrown for any other value.
///
/// The cost is linear in what is walked, and constant for an array.
///
/// # Errors
/// `Memory` where there is none; `Dangling` where a location was met that stands nowhere.
#[tactic(auto, unfolding(js_semantics::specs::Iteration::walk_value))]
pub fn walk_value(state: &mut State, value: &Value) -> Result<Walking, StepFault>
    ensures does { (nodes : List kind.Node) → IfOk result (λ made. Makes nodes (λ k. walk_value value.now k) state.old state.new made) }
    ensures closed { (nodes : List kind.Node) → IsClosed nodes state.old → ValueFits state.old.heap.cells value.now → LastsMaking (IsNoEnv nat_eq) nodes state.old state.new result }
{
    match value {
        Value::Ref(loc) => walk_loc(state, *loc),
        Value::Str(text) => walk_text(state, text),
        _ => refuse(state),
    }
}
