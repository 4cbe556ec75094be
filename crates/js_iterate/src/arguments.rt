//! The arguments of a call, with spreads among them (ECMA-262, 13.3.8.1: ArgumentListEvaluation).
ghost use Rattle.std.specs.Prelude.{◌≡◌, ◌+◌, ◌++◌, [], ◌∷◌, slice_get, true, false, List, IfOk, MatchResult, Some, None};
ghost use Rattle.js_tree.specs.declared.node.Node as kind;
ghost use Rattle.world_heap.specs.Over.{ListOver};
ghost use Rattle.js_names.specs.Patterns.{nodes_of};
ghost use Rattle.js_semantics.specs.Access.{call};
ghost use Rattle.js_semantics.specs.Iteration.{items_at, values_of, walk_value};
ghost use Rattle.js_semantics.specs.Objects.{construct};
ghost use Rattle.js_semantics.specs.Prog.{Read, eval, give, step};
ghost use Rattle.js_semantics.specs.World.{cell_at};
ghost use Rattle.js_machine.specs.Closed.{IsClosed, Lasts, ScopeFits, ValueFits};
ghost use Rattle.js_machine.specs.Does.{Does};
ghost use Rattle.js_machine.specs.Frames.{arguments_rest, call_rest, target_call};
ghost use Rattle.js_iterate.specs.Calls.{pending_rest};
ghost use Rattle.js_iterate.specs.Closed.{PendingFits, CallTargetFits};

use crate::rests::items_at;
use crate::walking::walk_value;
use js_calls::{call_last, construct};
use js_machine::{
    CallFrame, CallTarget, Frame, Next, State, ValueFrame, copy_scope, discard, items_of, next_of,
    stopped,
};
use js_semantics::{Scope, StepFault};
use js_step_object::spread_of;
use js_tree::{NodeId, Tree};
use sqlite_items::Items;
use world_heap::{Loc, Value};
use world_log::Stop;

/// A call or `new` whose arguments are being evaluated: its node, the place of the argument that is next, the arguments
/// before it, and what they are for.
#[derive(Drop)]
pub struct Pending<L = Loc> {
    pub node: NodeId,
    pub next: usize,
    pub before: Items<Value<L>>,
    pub target: CallTarget<L>,
}

// The frame of an argument.
fn argument_frame(pending: Pending, next: usize, spread: bool, scope: Scope) -> Frame
    ensures { result ≡ Frame.OnValue (ValueFrame.Call (CallFrame.Argument pending.node next spread pending.before pending.target scope)) }
{
    Frame::OnValue(ValueFrame::Call(CallFrame::Argument {
        node: pending.node,
        next,
        spread,
        done: pending.before,
        target: pending.target,
        scope,
    }))
}

// Enters an argument that isn't spread.
fn enter_one(
    state: &mut State,
    pending: Pending,
    argument: NodeId,
    next: usize,
    scope: Scope,
) -> Result<Next, StepFault>
    ensures does { (nodes : List kind.Node) → IfOk result (λ ended. Does nodes 4 (eval argument scope (λ v. arguments_rest nodes pending.node next (pending.before ++ v ∷ []) pending.target scope)) state.old state.new ended) }
    ensures closed { (nodes : List kind.Node) → IsClosed nodes state.old → PendingFits nodes state.old.heap.cells pending → ScopeFits nodes state.old.heap.cells scope → Lasts nodes state.old state.new result }
{
    let inner = copy_scope(state.alloc, &scope)?;
    let frame = argument_frame(pending, next, false, scope);
    state.enter(frame, argument, inner)
}

// Enters the list of a spread, whose own step is taken first.
fn enter_spread(
    state: &mut State,
    pending: Pending,
    list: NodeId,
    next: usize,
    scope: Scope,
) -> Result<Next, StepFault>
    ensures does { (nodes : List kind.Node) → IfOk result (λ ended. Does nodes 4 (step (eval list scope (λ v. walk_value v (λ array. Read (λ w. arguments_rest nodes pending.node next (pending.before ++ items_at (cell_at array w)) pending.target scope))))) state.old state.new ended) }
    ensures closed { (nodes : List kind.Node) → IsClosed nodes state.old → PendingFits nodes state.old.heap.cells pending → ScopeFits nodes state.old.heap.cells scope → Lasts nodes state.old state.new result }
{
    let inner = copy_scope(state.alloc, &scope)?;
    if !state.step_down() {
        discard(inner);
        discard(scope);
        discard(pending);
        return Ok(stopped(Stop::Fuel));
    }
    let frame = argument_frame(pending, next, true, scope);
    state.enter(frame, list, inner)
}

// Enters an argument.
fn enter_argument(
    state: &mut State,
    tree: &Tree,
    pending: Pending,
    argument: NodeId,
    next: usize,
    scope: Scope,
) -> Result<Next, StepFault>
    ensures does { IfOk result (λ ended. Does (nodes_of tree.now) 4 (Read (λ w. values_of (slice_get w.tree argument.0) argument scope (λ vs. arguments_rest (nodes_of tree.now) pending.node next (pending.before ++ vs) pending.target scope))) state.old state.new ended) }
    ensures closed { IsClosed (nodes_of tree.now) state.old → PendingFits (nodes_of tree.now) state.old.heap.cells pending → ScopeFits (nodes_of tree.now) state.old.heap.cells scope → Lasts (nodes_of tree.now) state.old state.new result }
{
    match spread_of(tree, argument) {
        None => enter_one(state, pending, argument, next, scope),
        Some(list) => enter_spread(state, pending, list, next, scope),
    }
}

// Calls a function with a receiver and arguments.
fn call(
    state: &mut State,
    tree: &Tree,
    callee: Value,
    receiver: Value,
    arguments: Items<Value>,
) -> Result<Next, StepFault>
    ensures does { IfOk result (λ ended. Does (nodes_of tree.now) 4 (call callee receiver arguments (λ v. give v)) state.old state.new ended) }
    ensures closed { IsClosed (nodes_of tree.now) state.old → ValueFits state.old.heap.cells callee → ValueFits state.old.heap.cells receiver → ListOver (ValueFits state.old.heap.cells) arguments → Lasts (nodes_of tree.now) state.old state.new result }
{
    let called = call_last(state, tree, &callee, receiver, arguments);
    discard(callee);
    called
}

// Calls a function as a constructor.
fn make(
    state: &mut State,
    tree: &Tree,
    callee: Value,
    arguments: Items<Value>,
) -> Result<Next, StepFault>
    ensures does { IfOk result (λ ended. Does (nodes_of tree.now) 4 (construct callee arguments (λ v. give v)) state.old state.new ended) }
    ensures closed { IsClosed (nodes_of tree.now) state.old → ValueFits state.old.heap.cells callee → ListOver (ValueFits state.old.heap.cells) arguments → Lasts (nodes_of tree.now) state.old state.new result }
{
    let made = construct(state, tree, &callee, arguments);
    discard(callee);
    made
}

// Does with all arguments what they are for.
fn finish(
    state: &mut State,
    tree: &Tree,
    target: CallTarget,
    arguments: Items<Value>,
) -> Result<Next, StepFault>
    ensures does { IfOk result (λ ended. Does (nodes_of tree.now) 4 (target_call (nodes_of tree.now) target arguments) state.old state.new ended) }
    ensures closed { IsClosed (nodes_of tree.now) state.old → CallTargetFits (nodes_of tree.now) state.old.heap.cells target → ListOver (ValueFits state.old.heap.cells) arguments → Lasts (nodes_of tree.now) state.old state.new result }
{
    match target {
        CallTarget::Call { callee, receiver } => call(state, tree, callee, receiver, arguments),
        CallTarget::New { callee } => make(state, tree, callee, arguments),
    }
}

// The arguments from a place on, and then what they are for.
fn arguments_on(
    state: &mut State,
    tree: &Tree,
    pending: Pending,
    scope: Scope,
) -> Result<Next, StepFault>
    ensures does { IfOk result (λ ended. Does (nodes_of tree.now) 4 (pending_rest (nodes_of tree.now) pending scope) state.old state.new ended) }
    ensures closed { IsClosed (nodes_of tree.now) state.old → PendingFits (nodes_of tree.now) state.old.heap.cells pending → ScopeFits (nodes_of tree.now) state.old.heap.cells scope → Lasts (nodes_of tree.now) state.old state.new result }
{
    match next_of(items_of(tree, pending.node), pending.next) {
        Some((argument, next)) => enter_argument(state, tree, pending, argument, next, scope),
        None => {
            discard(scope);
            finish(state, tree, pending.target, pending.before)
        }
    }
}

/// The arguments of a call or `new` from a place on, one after another, behind those that are evaluated already; then the
/// call, or the construction of an object, whose value is that of the row. What can't be called, or is no constructor,
/// throws once the arguments are evaluated.
///
/// # Errors
/// `Memory` where there is none; `Dangling` where a location was met that stands nowhere.
pub fn arguments_from(
    state: &mut State,
    tree: &Tree,
    pending: Pending,
    scope: Scope,
) -> Result<Next, StepFault>
    ensures some { IfOk result (λ ended. Does (nodes_of tree.now) 4 (pending_rest (nodes_of tree.now) pending scope) state.old state.new ended) }
    ensures many { IfOk result (λ ended. Does (nodes_of tree.now) 6 (pending_rest (nodes_of tree.now) pending scope) state.old state.new ended) }
    ensures closed { IsClosed (nodes_of tree.now) state.old → PendingFits (nodes_of tree.now) state.old.heap.cells pending → ScopeFits (nodes_of tree.now) state.old.heap.cells scope → Lasts (nodes_of tree.now) state.old state.new result }
{
    arguments_on(state, tree, pending, scope)
}

// The same with one argument more before the next.
fn with_value(pending: Pending, value: Value) -> Result<Pending, StepFault>
    ensures { MatchResult result (λ more. more ≡ record pending { before = pending.before ++ value ∷ [] }) (λ fault. fault ≡ StepFault.Memory) }
{
    let mut before = pending.before;
    before.push(value)?;
    Ok(Pending {
        node: pending.node,
        next: pending.next,
        before,
        target: pending.target,
    })
}

// The same with these arguments more before the next.
fn with_values(pending: Pending, values: Items<Value>) -> Result<Pending, StepFault>
    ensures { MatchResult result (λ more. more ≡ record pending { before = pending.before ++ values }) (λ fault. fault ≡ StepFault.Memory) }
{
    let mut before = pending.before;
    before.append(values)?;
    Ok(Pending {
        node: pending.node,
        next: pending.next,
        before,
        target: pending.target,
    })
}

/// The rest of a frame of an argument that isn't spread: its value is an argument, and those behind it follow.
///
/// # Errors
/// `Memory` where there is none; `Dangling` where a location was met that stands nowhere.
pub fn argument_value(
    state: &mut State,
    tree: &Tree,
    pending: Pending,
    scope: Scope,
    value: Value,
) -> Result<Next, StepFault>
    ensures does { IfOk result (λ ended. Does (nodes_of tree.now) 6 (call_rest (nodes_of tree.now) (CallFrame.Argument pending.node pending.next false pending.before pending.target scope) value) state.old state.new ended) }
    ensures closed { IsClosed (nodes_of tree.now) state.old → PendingFits (nodes_of tree.now) state.old.heap.cells pending → ScopeFits (nodes_of tree.now) state.old.heap.cells scope → ValueFits state.old.heap.cells value → Lasts (nodes_of tree.now) state.old state.new result }
{
    let pending = with_value(pending, value)?;
    arguments_from(state, tree, pending, scope)
}

// The items of the array that is walked are arguments, and those behind them follow.
fn spread_items(
    state: &mut State,
    tree: &Tree,
    pending: Pending,
    scope: Scope,
    array: Loc,
) -> Result<Next, StepFault>
    ensures does { IfOk result (λ ended. Does (nodes_of tree.now) 6 (Read (λ w. arguments_rest (nodes_of tree.now) pending.node pending.next (pending.before ++ items_at (cell_at array w)) pending.target scope)) state.old state.new ended) }
    ensures closed { IsClosed (nodes_of tree.now) state.old → PendingFits (nodes_of tree.now) state.old.heap.cells pending → ScopeFits (nodes_of tree.now) state.old.heap.cells scope → Lasts (nodes_of tree.now) state.old state.new result }
{
    let items = items_at(state.alloc, &state.heap, array)?;
    let pending = with_values(pending, items)?;
    arguments_from(state, tree, pending, scope)
}

/// The rest of a frame of an argument that is spread (ECMA-262, 13.3.8.1): the items of what its value is walked as are
/// arguments, and those behind it follow. A value that can't be walked throws.
///
/// # Errors
/// `Memory` where there is none; `Dangling` where a location was met that stands nowhere.
pub fn spread_value(
    state: &mut State,
    tree: &Tree,
    pending: Pending,
    scope: Scope,
    value: &Value,
) -> Result<Next, StepFault>
    ensures does { IfOk result (λ ended. Does (nodes_of tree.now) 6 (call_rest (nodes_of tree.now) (CallFrame.Argument pending.node pending.next true pending.before pending.target scope) value.now) state.old state.new ended) }
    ensures closed { IsClosed (nodes_of tree.now) state.old → PendingFits (nodes_of tree.now) state.old.heap.cells pending → ScopeFits (nodes_of tree.now) state.old.heap.cells scope → ValueFits state.old.heap.cells value.now → Lasts (nodes_of tree.now) state.old state.new result }
{
    match walk_value(state, value)? {
        Ok(array) => spread_items(state, tree, pending, scope, array),
        Err(ended) => {
            discard(pending);
            discard(scope);
            Ok(ended)
        }
    }
}
