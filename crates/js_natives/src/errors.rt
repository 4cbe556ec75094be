//! The functions of errors (ECMA-262, 20.5.1 and 20.5.6.1).
ghost use Rattle.std.specs.Prelude.{◌≡◌, ℕ, List, IfOk, MatchResult, Some};
ghost use Rattle.js_tree.specs.declared.node.Node as kind;
ghost use Rattle.js_semantics.specs.Natives.{error_of, row_error};
ghost use Rattle.js_machine.specs.Does.{Does};
ghost use Rattle.js_machine.specs.Closed.{IsClosed, Lasts};
ghost use Rattle.js_natives.specs.Arguments.{message_given, message_value};

use js_machine::{Next, State, stopped};
use js_semantics::{Fault, Outcome, StepFault};
use parcel::ErrorKind;
use std::alloc::Global;
use wl_text::Units;
use world_heap::Value;

// The message that a value is for an error: none, a string, or `None` for a value of a wrong type.
fn message_value(alloc: Global, value: &Value) -> Result<Option<Option<Units>>, StepFault>
    ensures { MatchResult result (λ message. message ≡ message_value value.now) (λ fault. fault ≡ StepFault.Memory) }
{
    match value {
        Value::Undefined => Ok(Some(None)),
        Value::Str(text) => Ok(Some(Some(text.copy(alloc)?))),
        Value::Null | Value::Bool(_) | Value::Num(_) | Value::Ref(_) => Ok(None),
    }
}

// The message that the arguments give.
fn message_given(alloc: Global, arguments: &[Value]) -> Result<Option<Option<Units>>, StepFault>
    ensures { MatchResult result (λ message. message ≡ message_given arguments.now) (λ fault. fault ≡ StepFault.Memory) }
{
    match arguments.split_first() {
        Some((value, _)) => message_value(alloc, value),
        None => Ok(Some(None)),
    }
}

// Makes an error and gives it.
fn error_of(state: &mut State, error: ErrorKind, message: Option<Units>) -> Result<Next, StepFault>
    ensures does { (nodes : List kind.Node) → IfOk result (λ next. Does nodes 6 (error_of error message) state.old state.new next) }
    ensures closed { (nodes : List kind.Node) → IsClosed nodes state.old → Lasts nodes state.old state.new result }
{
    match state.make_error(error, message)? {
        Ok(loc) => state.give(Outcome::Normal(Value::Ref(loc))),
        Err(stop) => Ok(stopped(stop)),
    }
}

/// The row of a call of the function of a kind of error: an error with the first argument as its message where that is a
/// string, and without one where it is undefined or missing. Another argument throws. The cost is linear in the message.
///
/// # Errors
/// `Memory` where there is none; `Dangling` where the kind's prototype stands nowhere.
pub fn row_error(
    state: &mut State,
    error: ErrorKind,
    arguments: &[Value],
) -> Result<Next, StepFault>
    ensures does { (nodes : List kind.Node) → IfOk result (λ next. Does nodes 6 (row_error error arguments.now) state.old state.new next) }
    ensures closed { (nodes : List kind.Node) → IsClosed nodes state.old → Lasts nodes state.old state.new result }
{
    let given = message_given(state.alloc, arguments)?;
    match given {
        Some(message) => error_of(state, error, message),
        None => state.throw(Fault::WrongArgument),
    }
}
