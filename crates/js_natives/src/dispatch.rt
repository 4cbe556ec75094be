//! Calls of built-in functions.
ghost use Rattle.std.specs.Prelude.{List, IfOk, Some};
ghost use Rattle.js_tree.specs.declared.node.Node as kind;
ghost use Rattle.world_heap.specs.Over.{ListOver};
ghost use Rattle.js_semantics.specs.Natives.{native_row};
ghost use Rattle.js_semantics.specs.Prog.{Native as NativeRequest};
ghost use Rattle.js_semantics.specs.Realm.{module_of};
ghost use Rattle.js_semantics.specs.Rows.{row};
ghost use Rattle.js_machine.specs.Does.{Does};
ghost use Rattle.js_machine.specs.Closed.{IsClosed, Lasts, ValueFits};

use crate::console::row_console;
use crate::errors::row_error;
use crate::require::row_require;
use js_machine::{Next, State};
use js_semantics::{Fault, Native, StepFault};
use world_heap::Value;

// A call of this built-in function.
fn called(state: &mut State, function: Native, arguments: &[Value]) -> Result<Next, StepFault>
    ensures does { (nodes : List kind.Node) (receiver : _) → IfOk result (λ next. Does nodes 6 (native_row module_of (Some function) receiver arguments.now) state.old state.new next) }
    ensures closed { (nodes : List kind.Node) → IsClosed nodes state.old → Lasts nodes state.old state.new result }
{
    match function {
        Native::Console(level) => row_console(state, level, arguments),
        Native::Error(error) => row_error(state, error, arguments),
        Native::Require => row_require(state, arguments),
    }
}

/// The row of a call of the built-in function with a number (ECMA-262, 20.5.1: errors; Console Standard, 1.1: logging).
/// No such function has a use for its receiver; a number that no function has throws. The cost is that of the line told,
/// or linear in the message or name.
///
/// # Errors
/// `Memory` where there is none; `Dangling` where the prototype of an error stands nowhere.
pub fn native(
    state: &mut State,
    id: u16,
    receiver: &Value,
    arguments: &[Value],
) -> Result<Next, StepFault>
    ensures does { (nodes : List kind.Node) → IfOk result (λ next. Does nodes 6 (row (NativeRequest id receiver.now arguments.now)) state.old state.new next) }
    ensures closed { (nodes : List kind.Node) → IsClosed nodes state.old → ValueFits state.old.heap.cells receiver.now → ListOver (ValueFits state.old.heap.cells) arguments.now → Lasts nodes state.old state.new result }
{
    match Native::of(id) {
        Some(function) => called(state, function, arguments),
        None => state.throw(Fault::NotAFunction),
    }
}
