//! How an array that is made to be walked is filled (ECMA-262, 22.1.5.1, 24.1.5 and 24.2.5).
ghost use Rattle.std.specs.Prelude.{◌≡◌, [], ◌∷◌, List, IfOk, MatchResult};
ghost use Rattle.js_tree.specs.declared.node.Node as kind;
ghost use Rattle.js_semantics.specs.Access.{make_array};
ghost use Rattle.js_semantics.specs.Iteration.{points_of, push_entries, push_item, push_items, push_texts};
ghost use Rattle.js_semantics.specs.Prog.{make_text};
ghost use Rattle.world_heap.specs.Over.{ListOver};
ghost use Rattle.js_names.specs.Growing.{IsOpen};
ghost use Rattle.js_machine.specs.Closed.{IsClosed, Lasts, ValueFits};
ghost use Rattle.js_step_object.specs.Defining.{Comes, Makes};
ghost use Rattle.js_iterate.specs.Closed.{EntryFits, IsMade, LastsMaking};

use crate::walking::Walking;
use js_machine::{Next, State, discard, stopped};
use js_operators::point_end;
use js_semantics::StepFault;
use js_step_object::push;
use sqlite_items::Items;
use std::alloc::Global;
use wl_text::Units;
use world_heap::{Loc, MapEntry, Value};
use world_log::Stop;

/// Makes an array of these values (ECMA-262, 7.3.18: CreateArrayFromList), or the row has ended, since the world stops.
pub fn new_array(state: &mut State, items: Items<Value>) -> Result<Walking, StepFault>
    ensures does { (nodes : List kind.Node) → IfOk result (λ made. Makes nodes (λ k. make_array items k) state.old state.new made) }
    ensures closed { (nodes : List kind.Node) → IsClosed nodes state.old → ListOver (ValueFits state.old.heap.cells) items → LastsMaking IsMade nodes state.old state.new result }
{
    match state.make_array(items)? {
        Ok(loc) => Ok(Ok(loc)),
        Err(stop) => Ok(Err(stopped(stop))),
    }
}

/// Puts values at the end of an array that is being made, one after another. `None` where the row goes on; else it has
/// ended, since no place is left. The cost is linear in the values, and in the units of strings among them.
pub fn push_values(
    state: &mut State,
    array: Loc,
    values: &[Value],
) -> Result<Option<Next>, StepFault>
    ensures does { (nodes : List kind.Node) → IfOk result (λ ended. Comes nodes (λ p. push_items array values.now p) state.old state.new ended) }
    ensures closed { (nodes : List kind.Node) → IsClosed nodes state.old → IsOpen state.old.heap.cells array → ListOver (ValueFits state.old.heap.cells) values.now → Lasts nodes state.old state.new result }
{
    'values: for value in values {
        let value = value.copy(state.alloc)?;
        if let Some(next) = push(state, array, value)? {
            return Ok(Some(next));
        }
    }
    Ok(None)
}

// The key and the value of an entry.
fn pair_of(alloc: Global, entry: &MapEntry) -> Result<Items<Value>, StepFault>
    ensures { MatchResult result (λ pair. pair ≡ entry.now.key ∷ entry.now.value ∷ []) (λ fault. fault ≡ StepFault.Memory) }
{
    let mut pair = Items::new(alloc);
    let key = entry.key.copy(alloc)?;
    pair.push(key)?;
    let value = entry.value.copy(alloc)?;
    pair.push(value)?;
    Ok(pair)
}

// Puts an array of an entry's key and value at the end of an array.
fn push_entry(state: &mut State, array: Loc, entry: &MapEntry) -> Result<Option<Next>, StepFault>
    ensures does { (nodes : List kind.Node) → IfOk result (λ ended. Comes nodes (λ p. make_array (entry.now.key ∷ entry.now.value ∷ []) (λ pair. push_item array (Value.Ref pair) p)) state.old state.new ended) }
    ensures closed { (nodes : List kind.Node) → IsClosed nodes state.old → IsOpen state.old.heap.cells array → EntryFits state.old.heap.cells entry.now → Lasts nodes state.old state.new result }
{
    let pair = pair_of(state.alloc, entry)?;
    match new_array(state, pair)? {
        Ok(loc) => push(state, array, Value::Ref(loc)),
        Err(next) => Ok(Some(next)),
    }
}

/// Puts an array of the key and the value of each entry at the end of an array, one after another.
pub fn push_entries(
    state: &mut State,
    array: Loc,
    entries: &[MapEntry],
) -> Result<Option<Next>, StepFault>
    ensures does { (nodes : List kind.Node) → IfOk result (λ ended. Comes nodes (λ p. push_entries array entries.now p) state.old state.new ended) }
    ensures closed { (nodes : List kind.Node) → IsClosed nodes state.old → IsOpen state.old.heap.cells array → ListOver (EntryFits state.old.heap.cells) entries.now → Lasts nodes state.old state.new result }
{
    'entries: for entry in entries {
        if let Some(next) = push_entry(state, array, entry)? {
            return Ok(Some(next));
        }
    }
    Ok(None)
}

// Makes a text, whose units are counted, and puts it at the end of an array.
fn push_text(state: &mut State, array: Loc, text: Units) -> Result<Option<Next>, StepFault>
    ensures does { (nodes : List kind.Node) → IfOk result (λ ended. Comes nodes (λ p. make_text text (λ v. push_item array v p)) state.old state.new ended) }
    ensures closed { (nodes : List kind.Node) → IsClosed nodes state.old → IsOpen state.old.heap.cells array → Lasts nodes state.old state.new result }
{
    let units = text.len();
    if !state.count_units(units) {
        discard(text);
        return Ok(Some(stopped(Stop::Units)));
    }
    push(state, array, Value::Str(text))
}

/// Puts the code points of a text at the end of an array, each as a text (ECMA-262, 22.1.5.1).
pub fn push_points(state: &mut State, array: Loc, text: &Units) -> Result<Option<Next>, StepFault>
    ensures does { (nodes : List kind.Node) → IfOk result (λ ended. Comes nodes (λ p. push_texts array (points_of text.now) p) state.old state.new ended) }
    ensures closed { (nodes : List kind.Node) → IsClosed nodes state.old → IsOpen state.old.heap.cells array → Lasts nodes state.old state.new result }
{
    let mut at = 0;
    'points: while at < text.len() {
        let end = point_end(text, at);
        let point = text.part(state.alloc, at, end)?;
        if let Some(next) = push_text(state, array, point)? {
            return Ok(Some(next));
        }
        at = end;
    }
    Ok(None)
}
