//! The operator `in` (ECMA-262, 13.10.1).
ghost use Rattle.std.specs.Prelude.{◌≡◌, ℕ, nat_eq, IfOk, IfSome, Some, IfErr, MatchResult};
ghost use Rattle.world_heap.specs.Heaps.{IsCell};
ghost use Rattle.world_heap.specs.declared.value.Value as values;
ghost use Rattle.js_semantics.specs.World.{World, over};
ghost use Rattle.js_semantics.specs.Prog.{Prog};
ghost use Rattle.js_semantics.specs.Properties.{has_property, object_of};
ghost use Rattle.js_semantics.specs.Operators.{key_of};
ghost use Rattle.js_semantics.specs.Expressions.{compute, has_key};
ghost use Rattle.js_operators.specs.Answers.{computed_of};
ghost use Rattle.js_machine.specs.Closed.{ValueFits};
ghost use Rattle.js_step_expr.specs.Fitting.{AnswerFits};

use js_machine::{is_cell, object_of};
use js_operators::{Answer, key_of};
use js_semantics::{Fault, StepFault};
use proto_props::find;
use std::alloc::Global;
use wl_text::Units;
use world_heap::{Heap, Loc, Value};

// The location of an object, where a value is one; a symbol is none.
fn object_at(heap: &Heap, value: &Value) -> Result<Option<Loc>, StepFault>
    ensures is { (w : World ℕ) → IfOk result (λ found. found ≡ object_of value.now (over heap.now w)) }
    ensures stands { IfOk result (λ found. IfSome found (λ loc. IsCell nat_eq heap.now.cells loc)) }
    ensures closed { ValueFits heap.now.cells value.now → IfErr result (λ fault. fault ≡ StepFault.Memory) }
{
    match object_of(heap, value) {
        Some(loc) => {
            if !is_cell(heap, loc) {
                return Err(StepFault::Dangling);
            }
            Ok(Some(loc))
        }
        None => Ok(None),
    }
}

// Whether an object or one on its chain of prototypes has a property.
#[tactic(auto, unfolding(js_semantics::specs::Properties::reach))]
fn has_property(heap: &Heap, loc: Loc, key: &Units) -> bool
    requires { IsCell nat_eq heap.now.cells loc }
    ensures { (w : World ℕ) → result ≡ has_property loc key.now (over heap.now w) }
{
    match find(heap, loc, key) {
        Some(_) => true,
        None => false,
    }
}

// What `in` comes to on a key and an object.
fn has_key(heap: &Heap, loc: Loc, key: &Units) -> Answer
    requires { IsCell nat_eq heap.now.cells loc }
    ensures is { (w : World ℕ) (k : values.Value ℕ → Prog ℕ) → has_key (Some key.now) (Some loc) (over heap.now w) k ≡ compute (computed_of result) k }
    ensures closed { AnswerFits heap.now.cells result }
{
    Answer::Is(Value::Bool(has_property(heap, loc, key)))
}

// What `in` comes to on a value and an object. No text is made of a key that is a string.
fn in_object(alloc: Global, heap: &Heap, key: &Value, loc: Loc) -> Result<Answer, StepFault>
    requires { IsCell nat_eq heap.now.cells loc }
    ensures is { (w : World ℕ) (k : values.Value ℕ → Prog ℕ) → IfOk result (λ answer. has_key (key_of key.now) (Some loc) (over heap.now w) k ≡ compute (computed_of answer) k) }
    ensures closed { MatchResult result (λ answer. AnswerFits heap.now.cells answer) (λ fault. fault ≡ StepFault.Memory) }
{
    match key {
        Value::Str(text) => Ok(has_key(heap, loc, text)),
        other => match key_of(alloc, other)? {
            Some(text) => Ok(has_key(heap, loc, &text)),
            None => Ok(Answer::Fails(Fault::WrongOperand)),
        },
    }
}

/// What `in` comes to (ECMA-262, 13.10.1): whether the object or one on its chain of prototypes has a property under the
/// key; the error `WrongOperand` where the right side is no object or the left one is no key. The cost is linear in the
/// chain.
///
/// # Errors
/// `Memory` where there is none, `Dangling` where the object's location stands nowhere.
pub(crate) fn membership(
    alloc: Global,
    heap: &Heap,
    key: &Value,
    object: &Value,
) -> Result<Answer, StepFault>
    ensures is { (w : World ℕ) (k : values.Value ℕ → Prog ℕ) → IfOk result (λ answer. has_key (key_of key.now) (object_of object.now (over heap.now w)) (over heap.now w) k ≡ compute (computed_of answer) k) }
    ensures closed { ValueFits heap.now.cells object.now → MatchResult result (λ answer. AnswerFits heap.now.cells answer) (λ fault. fault ≡ StepFault.Memory) }
{
    match object_at(heap, object)? {
        Some(loc) => in_object(alloc, heap, key, loc),
        None => Ok(Answer::Fails(Fault::WrongOperand)),
    }
}
