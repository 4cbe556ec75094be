//! Writing a property of a value, with the setter that it may call (ECMA-262, 7.3.4: Set; 10.1.9).
ghost use Rattle.std.specs.Prelude.{◌≡◌, false, List, IfOk, MatchOption, None, Some, nat_eq};
ghost use Rattle.world_heap.specs.Heaps.{IsNoEnv};
ghost use Rattle.world_heap.specs.Maps.{find};
ghost use Rattle.proto_props.specs.Sets.{sets};
ghost use Rattle.js_names.specs.Patterns.{nodes_of};
ghost use Rattle.js_tree.specs.declared.node.Node as kind;
ghost use Rattle.js_semantics.specs.Prog.{give, throw};
ghost use Rattle.js_semantics.specs.Access.{set};
ghost use Rattle.js_semantics.specs.Properties.{is_symbol};
ghost use Rattle.js_machine.specs.Closed.{IsClosed, Lasts, ValueFits};
ghost use Rattle.js_machine.specs.Does.{Does};
ghost use Rattle.js_calls.specs.Writing.{Written, fault_for, set_next};

use crate::calling::call_over;
use js_machine::{AfterFrame, Control, Next, State, discard, is_cell, is_fit, is_symbol, stopped};
use js_semantics::{Fault, Outcome, StepFault};
use js_tree::Tree;
use proto_props::{Refusal, SetDone, set_step};
use sqlite_items::Items;
use wl_text::Units;
use world_heap::{Heap, HeapFault, Loc, Value};
use world_log::Stop;

// The error of the language for a refusal.
#[tactic(auto, unfolding(crate::specs::Writing::fault_for))]
fn fault_for(refusal: Refusal) -> Fault
    ensures { result ≡ fault_for refusal }
{
    match refusal {
        Refusal::Operand => Fault::WrongOperand,
        Refusal::ReadOnly => Fault::ReadOnly,
        Refusal::NotExtensible => Fault::ReadOnly,
        Refusal::Hole => Fault::NoHoles,
        Refusal::Named => Fault::ReadOnly,
    }
}

// Whether a symbol stands at a location, where a cell does.
fn symbol_at(heap: &Heap, loc: Loc) -> Option<bool>
    ensures { MatchOption result (find nat_eq heap.now.cells loc ≡ None) (λ symbol. symbol ≡ is_symbol (find nat_eq heap.now.cells loc)) }
{
    match heap.get(loc) {
        Some(cell) => Some(is_symbol(cell)),
        None => None,
    }
}

// Writes a property of an object, or stops where a place more would pass the limit.
fn write(
    state: &mut State,
    loc: Loc,
    key: Units,
    value: Value,
) -> Result<Result<SetDone, Stop>, StepFault>
    ensures does { IfOk result (λ got. Written (sets nat_eq state.old.heap.cells loc key value) state.old state.new got) }
    ensures closed { (nodes : List kind.Node) → IsClosed nodes state.old → IsNoEnv nat_eq state.old.heap.cells loc → ValueFits state.old.heap.cells value → Lasts nodes state.old state.new result }
{
    if !is_cell(&state.heap, loc) || !is_fit(&state.heap, &value) {
        discard(key);
        discard(value);
        return Err(StepFault::Dangling);
    }
    state.heap.count();
    match set_step(state.alloc, &mut state.heap, loc, key, value) {
        Ok(done) => Ok(Ok(done)),
        Err(HeapFault::Places) => {
            state.turn_to(Control::Stop);
            Ok(Err(Stop::Places))
        }
        Err(HeapFault::Memory) => Err(StepFault::Memory),
        Err(HeapFault::Cells) => Err(StepFault::Dangling),
        Err(HeapFault::Units) => Err(StepFault::Dangling),
    }
}

// Goes on with what the writing of a property of an object has done: it is done, or its setter is called, or an error is
// thrown.
#[tactic(auto, unfolding(crate::specs::Writing::set_next))]
fn settle(
    state: &mut State,
    tree: &Tree,
    done: SetDone,
    loc: Loc,
    value: Value,
    result_value: Value,
) -> Result<Next, StepFault>
    ensures does { IfOk result (λ next. Does (nodes_of tree.now) 4 (set_next done (Value.Ref loc) value (give result_value)) state.old state.new next) }
    ensures closed { IsClosed (nodes_of tree.now) state.old → IsNoEnv nat_eq state.old.heap.cells loc → ValueFits state.old.heap.cells value → ValueFits state.old.heap.cells result_value → Lasts (nodes_of tree.now) state.old state.new result }
{
    match done {
        SetDone::Done => {
            discard(value);
            state.give(Outcome::Normal(result_value))
        }
        SetDone::CallSetter(setter) => {
            let mut arguments = Items::new(state.alloc);
            arguments.push(value)?;
            let frame = AfterFrame::Result {
                value: result_value,
            };
            call_over(
                state,
                tree,
                &Value::Ref(setter),
                Value::Ref(loc),
                arguments,
                frame,
            )
        }
        SetDone::Refused(refusal) => {
            discard(value);
            discard(result_value);
            state.throw(fault_for(refusal))
        }
    }
}

// Writes a property of an object that is no symbol.
fn set_own(
    state: &mut State,
    tree: &Tree,
    loc: Loc,
    key: Units,
    value: Value,
    result_value: Value,
) -> Result<Next, StepFault>
    ensures does { is_symbol (find nat_eq state.old.heap.cells loc) ≡ false
        → IfOk result (λ next. Does (nodes_of tree.now) 4 (set (Value.Ref loc) key value (give result_value)) state.old state.new next) }
    ensures closed { IsClosed (nodes_of tree.now) state.old → IsNoEnv nat_eq state.old.heap.cells loc → ValueFits state.old.heap.cells value → ValueFits state.old.heap.cells result_value → Lasts (nodes_of tree.now) state.old state.new result }
{
    let argument = value.copy(state.alloc)?;
    match write(state, loc, key, value)? {
        Ok(done) => settle(state, tree, done, loc, argument, result_value),
        Err(stop) => {
            discard(argument);
            discard(result_value);
            Ok(stopped(stop))
        }
    }
}

// Writes a property of what stands at a location.
fn set_at(
    state: &mut State,
    tree: &Tree,
    loc: Loc,
    key: Units,
    value: Value,
    result_value: Value,
) -> Result<Next, StepFault>
    ensures does { IfOk result (λ next. Does (nodes_of tree.now) 4 (set (Value.Ref loc) key value (give result_value)) state.old state.new next) }
    ensures closed { IsClosed (nodes_of tree.now) state.old → IsNoEnv nat_eq state.old.heap.cells loc → ValueFits state.old.heap.cells value → ValueFits state.old.heap.cells result_value → Lasts (nodes_of tree.now) state.old state.new result }
{
    match symbol_at(&state.heap, loc) {
        Some(symbol) => {
            if symbol {
                refuse(state, Fault::ReadOnly, key, value, result_value)
            } else {
                set_own(state, tree, loc, key, value, result_value)
            }
        }
        None => {
            discard(key);
            discard(value);
            discard(result_value);
            Err(StepFault::Dangling)
        }
    }
}

// Throws, and writes nothing.
fn refuse(
    state: &mut State,
    fault: Fault,
    key: Units,
    value: Value,
    result_value: Value,
) -> Result<Next, StepFault>
    ensures does { (nodes : List kind.Node) → IfOk result (λ next. Does nodes 4 (throw fault) state.old state.new next) }
    ensures closed { (nodes : List kind.Node) → IsClosed nodes state.old → Lasts nodes state.old state.new result }
{
    discard(key);
    discard(value);
    discard(result_value);
    state.throw(fault)
}

/// Writes a property of a value, and then gives another value as that of the row. A setter is called with the value as
/// its receiver. Undefined and null are no objects, and a string, number, boolean or symbol takes no property: that
/// throws, as does a property that can't be written. The cost is that of finding the property in the chain of
/// prototypes; the value that is written is copied for a setter.
///
/// # Errors
/// `Memory` where there is none; `Dangling` where a location was met that stands nowhere.
pub fn set(
    state: &mut State,
    tree: &Tree,
    of: Value,
    key: Units,
    value: Value,
    result_value: Value,
) -> Result<Next, StepFault>
    ensures does { IfOk result (λ next. Does (nodes_of tree.now) 4 (set of key value (give result_value)) state.old state.new next) }
    ensures closed { IsClosed (nodes_of tree.now) state.old → ValueFits state.old.heap.cells of → ValueFits state.old.heap.cells value → ValueFits state.old.heap.cells result_value → Lasts (nodes_of tree.now) state.old state.new result }
{
    match of {
        Value::Undefined => refuse(state, Fault::NotAnObject, key, value, result_value),
        Value::Null => refuse(state, Fault::NotAnObject, key, value, result_value),
        Value::Bool(_) => refuse(state, Fault::ReadOnly, key, value, result_value),
        Value::Num(_) => refuse(state, Fault::ReadOnly, key, value, result_value),
        Value::Str(text) => {
            discard(text);
            refuse(state, Fault::ReadOnly, key, value, result_value)
        }
        Value::Ref(loc) => set_at(state, tree, loc, key, value, result_value),
    }
}
