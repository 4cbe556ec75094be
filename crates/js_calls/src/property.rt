//! Reading a property of a value, with the getter that it may call (ECMA-262, 7.3.2: Get; 10.1.8).
ghost use Rattle.std.specs.Prelude.{◌≡◌, true, List, IfOk, MatchResult, is_some, nat_eq};
ghost use Rattle.js_tree.specs.declared.node.Node as kind;
ghost use Rattle.world_heap.specs.Heaps.{IsCell, IsNoEnv};
ghost use Rattle.world_heap.specs.Over.{ValueOver};
ghost use Rattle.proto_props.specs.Gets.{GotOver, gets, text_unit};
ghost use Rattle.js_names.specs.Patterns.{nodes_of};
ghost use Rattle.js_semantics.specs.Access.{get, take_up};
ghost use Rattle.js_semantics.specs.Properties.{made_of};
ghost use Rattle.js_machine.specs.Closed.{AfterFits, IsClosed, Lasts, ValueFits};
ghost use Rattle.js_machine.specs.Does.{Does};
ghost use Rattle.js_machine.specs.Frames.{after_rest};
ghost use Rattle.js_calls.specs.Reading.{made_value};

use crate::calling::call_over;
use js_machine::{AfterFrame, Next, State, discard, is_cell, stopped};
use js_semantics::{Fault, StepFault};
use js_tree::Tree;
use proto_props::{Got, get_step};
use sqlite_items::Items;
use std::alloc::Global;
use wl_text::{Units, index_of};
use world_heap::{Heap, Value};
use world_log::Stop;

// Whether a value's location stands, and its number is one of a script.
fn stands(heap: &Heap, value: &Value) -> bool
    ensures fits { result ≡ true → ValueOver (IsCell nat_eq heap.now.cells) value.now }
    ensures only { ValueOver (IsCell nat_eq heap.now.cells) value.now → result ≡ true }
{
    match value {
        Value::Ref(loc) => is_cell(heap, *loc),
        Value::Num(number) => {
            *number >= -9_007_199_254_740_991 && *number <= 9_007_199_254_740_991
        }
        Value::Undefined | Value::Null | Value::Bool(_) | Value::Str(_) => true,
    }
}

// What reading a property of a value gives.
fn look(alloc: Global, heap: &Heap, of: &Value, key: &Units) -> Result<Got, StepFault>
    ensures is { IfOk result (λ got. got ≡ gets nat_eq heap.now.cells of.now key.now) }
    ensures closed { ValueFits heap.now.cells of.now → MatchResult result (λ got. GotOver (IsNoEnv nat_eq heap.now.cells) got) (λ fault. fault ≡ StepFault.Memory) }
{
    if stands(heap, of) {
        Ok(get_step(alloc, heap, of, key)?)
    } else {
        Err(StepFault::Dangling)
    }
}

/// Whether a text has a unit under a key (ECMA-262, 10.4.3.5: StringGetOwnProperty). The cost is linear in the key.
#[tactic(auto, using(crate::proofs::Reading::unit_under, crate::proofs::Reading::no_unit))]
pub fn has_unit(text: &Units, key: &Units) -> bool
    ensures { result ≡ is_some (text_unit text.now key.now) }
{
    match index_of(key) {
        Some(index) => (index as usize) < text.len(),
        None => false,
    }
}

// Whether reading a property makes a text of one unit.
#[tactic(auto, using(crate::proofs::Reading::unless_length))]
fn makes_unit(of: &Value, key: &Units) -> bool
    ensures { result ≡ is_some (made_of of.now key.now) }
{
    match of {
        Value::Str(text) => has_unit(text, key),
        _ => false,
    }
}

// Goes on with a value, which counts a unit where it was made.
fn give_made(
    state: &mut State,
    made: bool,
    value: Value,
    frame: AfterFrame,
) -> Result<Next, StepFault>
    ensures does { (nodes : List kind.Node) → IfOk result (λ next. Does nodes 6 (made_value made value (λ v. after_rest nodes frame v)) state.old state.new next) }
    ensures closed { (nodes : List kind.Node) → IsClosed nodes state.old → ValueFits state.old.heap.cells value → AfterFits nodes state.old.heap.cells frame → Lasts nodes state.old state.new result }
{
    if made {
        if !state.count_units(1) {
            discard(frame);
            discard(value);
            return Ok(stopped(Stop::Units));
        }
        return state.hand(frame, value);
    }
    state.hand(frame, value)
}

// Goes on with what reading a property gives.
fn take_up(
    state: &mut State,
    tree: &Tree,
    got: Got,
    of: Value,
    key: &Units,
    frame: AfterFrame,
) -> Result<Next, StepFault>
    ensures does { got ≡ gets nat_eq state.old.heap.cells of key.now
        → IfOk result (λ next. Does (nodes_of tree.now) 6 (take_up got of key.now (λ v. after_rest (nodes_of tree.now) frame v)) state.old state.new next) }
    ensures closed { IsClosed (nodes_of tree.now) state.old → GotOver (IsNoEnv nat_eq state.old.heap.cells) got → ValueFits state.old.heap.cells of → AfterFits (nodes_of tree.now) state.old.heap.cells frame
        → Lasts (nodes_of tree.now) state.old state.new result }
{
    match got {
        Got::Value(value) => {
            let made = makes_unit(&of, key);
            discard(of);
            give_made(state, made, value, frame)
        }
        Got::CallGetter(getter) => {
            let arguments = Items::new(state.alloc);
            call_over(state, tree, &Value::Ref(getter), of, arguments, frame)
        }
        Got::Absent => {
            discard(of);
            state.hand(frame, Value::Undefined)
        }
        Got::Refused => {
            discard(of);
            discard(frame);
            state.throw(Fault::NotAnObject)
        }
    }
}

/// Reads a property of a value, over the frame of what is done with what it gives. A getter is called with the value as
/// its receiver. A unit of a string is a new text, and counts a unit. Undefined and null have no properties: that throws.
/// The cost is linear in the chain of prototypes, and else constant, but where the property is a string linear in it.
///
/// # Errors
/// `Memory` where there is none; `Dangling` where a location was met that stands nowhere.
pub fn get(
    state: &mut State,
    tree: &Tree,
    of: Value,
    key: &Units,
    frame: AfterFrame,
) -> Result<Next, StepFault>
    ensures does { IfOk result (λ next. Does (nodes_of tree.now) 6 (get of key.now (λ v. after_rest (nodes_of tree.now) frame v)) state.old state.new next) }
    ensures closed { IsClosed (nodes_of tree.now) state.old → ValueFits state.old.heap.cells of → AfterFits (nodes_of tree.now) state.old.heap.cells frame → Lasts (nodes_of tree.now) state.old state.new result }
{
    let got = look(state.alloc, &state.heap, &of, key)?;
    take_up(state, tree, got, of, key, frame)
}
