//! Removing a property (ECMA-262, 13.5.1.2).
ghost use Rattle.std.specs.Prelude.{◌≡◌, List, IfOk, MatchResult, nat_eq, not, true};
ghost use Rattle.js_tree.specs.declared.node.Node as kind;
ghost use Rattle.world_heap.specs.declared.value.Value.TheVariants.{Ref};
ghost use Rattle.world_heap.specs.Heaps.{IsNoEnv};
ghost use Rattle.js_semantics.specs.Access.{delete};
ghost use Rattle.js_machine.specs.Closed.{IsClosed, Lasts, ValueFits};
ghost use Rattle.js_machine.specs.Does.{Does};
ghost use Rattle.js_step_access.specs.Removing.{is_kept, removed};

use js_calls::has_unit;
use js_machine::{Next, State, is_cell};
use js_operators::{same_text, short_text};
use js_semantics::{Fault, Outcome, StepFault};
use std::alloc::Global;
use wl_text::Units;
use world_heap::{Loc, Value};

// Whether a property of a string stays, as its length and its units do.
fn is_kept(alloc: Global, text: &Units, key: &Units) -> Result<bool, StepFault>
    ensures { MatchResult result (λ kept. kept ≡ is_kept text.now key.now) (λ fault. fault ≡ StepFault.Memory) }
{
    let length = short_text(alloc, "length")?;
    if same_text(key, &length) {
        return Ok(true);
    }
    Ok(has_unit(text, key))
}

// Gives true where a property is gone; where it stays, that is an error.
fn settle(state: &mut State, gone: bool) -> Result<Next, StepFault>
    ensures does { (nodes : List kind.Node) → IfOk result (λ next. Does nodes 6 (removed gone) state.old state.new next) }
    ensures closed { (nodes : List kind.Node) → IsClosed nodes state.old → Lasts nodes state.old state.new result }
{
    if gone {
        state.give(Outcome::Normal(Value::Bool(true)))
    } else {
        state.throw(Fault::ReadOnly)
    }
}

// Removes a property of what stands at a location.
fn delete_at(state: &mut State, loc: Loc, key: &Units) -> Result<Next, StepFault>
    ensures does { (nodes : List kind.Node) → IfOk result (λ next. Does nodes 6 (delete (Ref loc) key.now) state.old state.new next) }
    ensures closed { (nodes : List kind.Node) → IsClosed nodes state.old → IsNoEnv nat_eq state.old.heap.cells loc → Lasts nodes state.old state.new result }
{
    if !is_cell(&state.heap, loc) {
        return Err(StepFault::Dangling);
    }
    let gone = proto_props::delete(state.alloc, &mut state.heap, loc, key);
    settle(state, gone)
}

// Removes a property of a string, which has those alone that stay.
fn delete_unit(state: &mut State, text: &Units, key: &Units) -> Result<Next, StepFault>
    ensures does { (nodes : List kind.Node) → IfOk result (λ next. Does nodes 6 (delete (Value.Str text.now) key.now) state.old state.new next) }
    ensures closed { (nodes : List kind.Node) → IsClosed nodes state.old → Lasts nodes state.old state.new result }
{
    let kept = is_kept(state.alloc, text, key)?;
    settle(state, !kept)
}

/// Removes an own property of a value, and gives true (ECMA-262, 13.5.1.2); where there is none, nothing is done. A
/// property that may not be removed is the error `ReadOnly`, and undefined and null, which have no properties, are the
/// error `NotAnObject`. The cost is linear in the properties that come behind it.
///
/// # Errors
/// `Memory` where there is none; `Dangling` where the value's location stands nowhere.
pub fn delete(state: &mut State, of: &Value, key: &Units) -> Result<Next, StepFault>
    ensures does { (nodes : List kind.Node) → IfOk result (λ next. Does nodes 6 (delete of.now key.now) state.old state.new next) }
    ensures closed { (nodes : List kind.Node) → IsClosed nodes state.old → ValueFits state.old.heap.cells of.now → Lasts nodes state.old state.new result }
{
    match of {
        Value::Undefined => state.throw(Fault::NotAnObject),
        Value::Null => state.throw(Fault::NotAnObject),
        Value::Bool(_) => settle(state, true),
        Value::Num(_) => settle(state, true),
        Value::Str(text) => delete_unit(state, text, key),
        Value::Ref(loc) => delete_at(state, *loc, key),
    }
}
