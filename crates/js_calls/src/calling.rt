//! Calls of functions (ECMA-262, 7.3.14: Call; 10.2.1: calls of closures).
ghost use Rattle.std.specs.Prelude.{◌≡◌, ◌≤◌, ◌<◌, ◌++◌, ℕ, List, IfOk, OnOk, Option, Some, slice_get, unwrap_or};
ghost use Rattle.world_heap.specs.Over.{ListOver, OptionOver};
ghost use Rattle.js_tree.specs.declared.node.Node as kind;
ghost use Rattle.js_names.specs.Patterns.{nodes_of};
ghost use Rattle.js_semantics.specs.Prog.{bind, give, on_value};
ghost use Rattle.js_semantics.specs.Access.{call, function_of, invoke, leave, run_function};
ghost use Rattle.js_machine.specs.Closed.{AfterFits, IsClosed, Lasts, ScopeFits, ValueFits};
ghost use Rattle.js_machine.specs.Does.{Does, weight};
ghost use Rattle.js_machine.specs.Frames.{after_rest, parameters_rest};
ghost use Rattle.js_calls.specs.Closed.{CalleeFits, InvocationFits};
ghost use Rattle.js_calls.specs.Calling.{after_frame, allowance, by_callee, call_frames, ending};

use crate::binding::all_parameters;
use crate::callee::{Callee, callee_of};
use crate::functions::function_at;
use js_machine::{AfterFrame, Frame, Next, State, discard, stopped};
use js_names::parameters_of;
use js_semantics::{Fault, Scope, StepFault};
use js_tree::{Function, NodeId, Tree};
use sqlite_items::Items;
use world_heap::{Loc, Value};

/// A call of the function of a node: its environment, its receiver and its arguments.
#[derive(Drop)]
pub(crate) struct Invocation<L = Loc> {
    pub(crate) node: NodeId,
    pub(crate) env: L,
    pub(crate) receiver: Value<L>,
    pub(crate) arguments: Items<Value<L>>,
}

// Leaves the frames of a call: what is done with its value, and its end.
fn push_call(state: &mut State, frame: Option<AfterFrame>) -> Result<(), StepFault>
    ensures frames { OnOk result (state.new.frames.items ≡ state.old.frames.items ++ call_frames frame) }
    ensures rest { state.new ≡ record state.old { frames = state.new.frames } }
    ensures closed { (nodes : List kind.Node) → IsClosed nodes state.old → OptionOver (AfterFits nodes state.old.heap.cells) frame → Lasts nodes state.old state.new result }
{
    match frame {
        Some(frame) => {
            state.frames.push(Frame::After(frame))?;
            state.frames.push(Frame::Leave)?;
            Ok(())
        }
        None => {
            state.frames.push(Frame::Leave)?;
            Ok(())
        }
    }
}

// Binds the parameters of a call and enters the body, over its frames.
fn enter_body(
    state: &mut State,
    tree: &Tree,
    node: NodeId,
    arguments: Items<Value>,
    scope: Scope,
    frame: Option<AfterFrame>,
) -> Result<Next, StepFault>
    ensures does { (n : ℕ) → allowance frame ≤ n → IfOk result (λ next. Does (nodes_of tree.now) n
        (bind (parameters_rest (nodes_of tree.now) node 0 arguments scope) (leave (on_value (ending (nodes_of tree.now) frame)))) state.old state.new next) }
    ensures closed { IsClosed (nodes_of tree.now) state.old → ListOver (ValueFits state.old.heap.cells) arguments → ScopeFits (nodes_of tree.now) state.old.heap.cells scope → OptionOver (AfterFits (nodes_of tree.now) state.old.heap.cells) frame → Lasts (nodes_of tree.now) state.old state.new result }
{
    push_call(state, frame)?;
    all_parameters(state, tree, node, arguments, scope)
}

// Makes the environment of a call, and enters the body in it.
fn run_function(
    state: &mut State,
    tree: &Tree,
    function: &Function,
    invocation: Invocation,
    frame: Option<AfterFrame>,
) -> Result<Next, StepFault>
    ensures does { (n : ℕ) → allowance frame ≤ n → function_of (slice_get (nodes_of tree.now) invocation.node.0) ≡ Some function.now
        → IfOk result (λ next. Does (nodes_of tree.now) n (run_function function.now invocation.env invocation.receiver invocation.arguments (on_value (ending (nodes_of tree.now) frame))) state.old state.new next) }
    ensures closed { IsClosed (nodes_of tree.now) state.old → InvocationFits state.old.heap.cells invocation → OptionOver (AfterFits (nodes_of tree.now) state.old.heap.cells) frame → Lasts (nodes_of tree.now) state.old state.new result }
{
    let bindings = parameters_of(state.alloc, tree, function)?;
    match state.make_environment(Some(invocation.env), bindings)? {
        Ok(inner) => {
            let scope = Scope {
                env: inner,
                receiver: invocation.receiver,
            };
            enter_body(
                state,
                tree,
                invocation.node,
                invocation.arguments,
                scope,
                frame,
            )
        }
        Err(stop) => Ok(stopped(stop)),
    }
}

// Counts a call as active, and runs its function.
fn activate(
    state: &mut State,
    tree: &Tree,
    function: &Function,
    invocation: Invocation,
    frame: Option<AfterFrame>,
) -> Result<Next, StepFault>
    requires { state.old.depth < state.old.heap.limits.depth }
    ensures does { (n : ℕ) → allowance frame ≤ n → function_of (slice_get (nodes_of tree.now) invocation.node.0) ≡ Some function.now
        → IfOk result (λ next. Does (nodes_of tree.now) n (invoke invocation.node.0 invocation.env invocation.receiver invocation.arguments (on_value (ending (nodes_of tree.now) frame))) state.old state.new next) }
    ensures closed { IsClosed (nodes_of tree.now) state.old → InvocationFits state.old.heap.cells invocation → OptionOver (AfterFits (nodes_of tree.now) state.old.heap.cells) frame → Lasts (nodes_of tree.now) state.old state.new result }
{
    let _limits = state.heap.limits();
    state.depth += 1;
    run_function(state, tree, function, invocation, frame)
}

// Calls the function of a node. What can't be called throws before a frame is left.
pub(crate) fn invoke(
    state: &mut State,
    tree: &Tree,
    invocation: Invocation,
    frame: Option<AfterFrame>,
) -> Result<Next, StepFault>
    ensures does { (n : ℕ) → allowance frame ≤ n
        → IfOk result (λ next. Does (nodes_of tree.now) n (invoke invocation.node.0 invocation.env invocation.receiver invocation.arguments (on_value (ending (nodes_of tree.now) frame))) state.old state.new next) }
    ensures closed { IsClosed (nodes_of tree.now) state.old → InvocationFits state.old.heap.cells invocation → OptionOver (AfterFits (nodes_of tree.now) state.old.heap.cells) frame → Lasts (nodes_of tree.now) state.old state.new result }
{
    match function_at(tree, invocation.node) {
        Some(function) => {
            if state.depth < u64::from(state.heap.limits().depth) {
                activate(state, tree, function, invocation, frame)
            } else {
                discard(invocation);
                discard(frame);
                state.throw(Fault::TooManyCalls)
            }
        }
        None => {
            discard(invocation);
            discard(frame);
            state.throw(Fault::NotAFunction)
        }
    }
}

// The receiver that a call has: the one that an arrow function keeps, where there is one.
fn receiver_of(kept: Option<Value>, receiver: Value) -> Value
    ensures { result ≡ unwrap_or kept receiver }
{
    match kept {
        Some(value) => {
            discard(receiver);
            value
        }
        None => receiver,
    }
}

// The frame of what is done with a value.
fn after(frame: Option<AfterFrame>) -> Option<Frame>
    ensures { result ≡ after_frame frame }
{
    match frame {
        Some(frame) => Some(Frame::After(frame)),
        None => None,
    }
}

// Calls a function.
fn call_as(
    state: &mut State,
    tree: &Tree,
    callee: Callee,
    receiver: Value,
    arguments: Items<Value>,
    frame: Option<AfterFrame>,
) -> Result<Next, StepFault>
    ensures does { (n : ℕ) → allowance frame ≤ n
        → IfOk result (λ next. Does (nodes_of tree.now) n (by_callee callee receiver arguments (ending (nodes_of tree.now) frame)) state.old state.new next) }
    ensures closed { IsClosed (nodes_of tree.now) state.old → CalleeFits state.old.heap.cells callee → ValueFits state.old.heap.cells receiver → ListOver (ValueFits state.old.heap.cells) arguments → OptionOver (AfterFits (nodes_of tree.now) state.old.heap.cells) frame → Lasts (nodes_of tree.now) state.old state.new result }
{
    match callee {
        Callee::Closure {
            node,
            env,
            receiver: kept,
        } => {
            let invocation = Invocation {
                node: NodeId(node),
                env,
                receiver: receiver_of(kept, receiver),
                arguments,
            };
            invoke(state, tree, invocation, frame)
        }
        Callee::Native { id } => state.enter_native(after(frame), id, receiver, arguments),
        Callee::Other => {
            discard(receiver);
            discard(arguments);
            discard(frame);
            state.throw(Fault::NotAFunction)
        }
    }
}

// Calls a value, over the frame of what is done with what it gives.
fn call(
    state: &mut State,
    tree: &Tree,
    called: &Value,
    receiver: Value,
    arguments: Items<Value>,
    frame: Option<AfterFrame>,
) -> Result<Next, StepFault>
    ensures does { (n : ℕ) → allowance frame ≤ n
        → IfOk result (λ next. Does (nodes_of tree.now) n (call called.now receiver arguments (ending (nodes_of tree.now) frame)) state.old state.new next) }
    ensures closed { IsClosed (nodes_of tree.now) state.old → ValueFits state.old.heap.cells receiver → ListOver (ValueFits state.old.heap.cells) arguments → OptionOver (AfterFits (nodes_of tree.now) state.old.heap.cells) frame → Lasts (nodes_of tree.now) state.old state.new result }
{
    let callee = callee_of(state.alloc, &state.heap, called)?;
    call_as(state, tree, callee, receiver, arguments, frame)
}

/// Calls a value with a receiver and arguments; what it gives is the value of the row. What can't be called, and a call
/// above the limit of active calls, throws.
///
/// # Errors
/// `Memory` where there is none; `Dangling` where a location was met that stands nowhere.
pub fn call_last(
    state: &mut State,
    tree: &Tree,
    called: &Value,
    receiver: Value,
    arguments: Items<Value>,
) -> Result<Next, StepFault>
    ensures some { IfOk result (λ next. Does (nodes_of tree.now) 4 (call called.now receiver arguments (λ v. give v)) state.old state.new next) }
    ensures many { IfOk result (λ next. Does (nodes_of tree.now) 6 (call called.now receiver arguments (λ v. give v)) state.old state.new next) }
    ensures closed { IsClosed (nodes_of tree.now) state.old → ValueFits state.old.heap.cells receiver → ListOver (ValueFits state.old.heap.cells) arguments → Lasts (nodes_of tree.now) state.old state.new result }
{
    call(state, tree, called, receiver, arguments, None)
}

/// Calls a value with a receiver and arguments, over the frame of what is done with what it gives. What can't be called,
/// and a call above the limit of active calls, throws.
///
/// # Errors
/// `Memory` where there is none; `Dangling` where a location was met that stands nowhere.
pub fn call_over(
    state: &mut State,
    tree: &Tree,
    called: &Value,
    receiver: Value,
    arguments: Items<Value>,
    frame: AfterFrame,
) -> Result<Next, StepFault>
    ensures some { weight (Frame.After frame) ≤ 1 → IfOk result (λ next. Does (nodes_of tree.now) 4 (call called.now receiver arguments (λ v. after_rest (nodes_of tree.now) frame v)) state.old state.new next) }
    ensures many { IfOk result (λ next. Does (nodes_of tree.now) 6 (call called.now receiver arguments (λ v. after_rest (nodes_of tree.now) frame v)) state.old state.new next) }
    ensures closed { IsClosed (nodes_of tree.now) state.old → ValueFits state.old.heap.cells receiver → ListOver (ValueFits state.old.heap.cells) arguments → AfterFits (nodes_of tree.now) state.old.heap.cells frame → Lasts (nodes_of tree.now) state.old state.new result }
{
    call(state, tree, called, receiver, arguments, Some(frame))
}
