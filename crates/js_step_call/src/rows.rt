//! The rows of calls and of `new` (ECMA-262, 13.3.6.1 and 13.3.5.1.1), by what is called.
ghost use Rattle.std.specs.Prelude.{List, IfOk, slice_get};
ghost use Rattle.js_tree.specs.declared.node.Node as kind;
ghost use Rattle.js_tree.specs.declared.node.NodeId.{NodeId};
ghost use Rattle.js_names.specs.Patterns.{nodes_of};
ghost use Rattle.js_semantics.specs.Objects.{row_call, row_new};
ghost use Rattle.js_semantics.specs.Prog.{eval};
ghost use Rattle.js_machine.specs.Closed.{FrameFits, IsClosed, IsNamed, Lasts, ScopeFits};
ghost use Rattle.js_machine.specs.Does.{Does};
ghost use Rattle.js_machine.specs.Frames.{call_rest};
ghost use Rattle.js_machine.specs.Parts.{items_of};
ghost use Rattle.js_step_call.specs.Called.{call_at};

use crate::rests::all_arguments;
use js_machine::{
    CallFrame, CallTarget, Frame, Key, Next, PropertyFrame, State, Use, ValueFrame, copy_scope,
    discard, stopped,
};
use js_primary::{Taken, take_value};
use js_semantics::{Scope, StepFault};
use js_step_access::{property, use_property};
use js_step_expr::{Target, target_of};
use js_tree::{NodeId, Tree};
use world_heap::Value;
use world_log::Stop;

// What is called under a name: the step of the property's node, and its object, which is evaluated in place or entered.
fn dot_object(
    state: &mut State,
    tree: &Tree,
    node: NodeId,
    callee: NodeId,
    object: NodeId,
    scope: Scope,
) -> Result<Next, StepFault>
    ensures does { IfOk result (λ next. Does (nodes_of tree.now) 6 (call_at (nodes_of tree.now) node callee (Target.Dot object) scope) state.old state.new next) }
    ensures closed { IsClosed (nodes_of tree.now) state.old → IsNamed (nodes_of tree.now) callee → ScopeFits (nodes_of tree.now) state.old.heap.cells scope → Lasts (nodes_of tree.now) state.old state.new result }
{
    let usage = Use::Call { node };
    if !state.step_down() {
        return Ok(stopped(Stop::Fuel));
    }
    match take_value(state, tree, object, &scope)? {
        Taken::Value(base) => use_property(state, tree, usage, base, Key::Named(callee), scope),
        Taken::Ended(next) => Ok(next),
        Taken::Nothing => {
            let inner = copy_scope(state.alloc, &scope)?;
            let frame = PropertyFrame::DotObject {
                node: callee,
                usage,
                scope,
            };
            state.enter(Frame::OnValue(ValueFrame::Property(frame)), object, inner)
        }
    }
}

// What is called under a key: the step of the property's node, and its object, which is evaluated in place or entered.
fn index_object(
    state: &mut State,
    tree: &Tree,
    node: NodeId,
    object: NodeId,
    key: NodeId,
    scope: Scope,
) -> Result<Next, StepFault>
    ensures does { (callee : NodeId) → IfOk result (λ next. Does (nodes_of tree.now) 6 (call_at (nodes_of tree.now) node callee (Target.Index object key) scope) state.old state.new next) }
    ensures closed { IsClosed (nodes_of tree.now) state.old → ScopeFits (nodes_of tree.now) state.old.heap.cells scope → Lasts (nodes_of tree.now) state.old state.new result }
{
    let usage = Use::Call { node };
    if !state.step_down() {
        return Ok(stopped(Stop::Fuel));
    }
    match take_value(state, tree, object, &scope)? {
        Taken::Value(base) => {
            let frame = PropertyFrame::IndexObject { key, usage, scope };
            property(state, tree, frame, base)
        }
        Taken::Ended(next) => Ok(next),
        Taken::Nothing => {
            let inner = copy_scope(state.alloc, &scope)?;
            let frame = PropertyFrame::IndexObject { key, usage, scope };
            state.enter(Frame::OnValue(ValueFrame::Property(frame)), object, inner)
        }
    }
}

// Enters a callee.
fn enter_callee(
    state: &mut State,
    frame: CallFrame,
    callee: NodeId,
    scope: Scope,
) -> Result<Next, StepFault>
    ensures does { (nodes : List kind.Node) → IfOk result (λ next. Does nodes 6 (eval callee scope (λ f. call_rest nodes frame f)) state.old state.new next) }
    ensures closed { (nodes : List kind.Node) → IsClosed nodes state.old → FrameFits nodes state.old.heap.cells (Frame.OnValue (ValueFrame.Call frame)) → ScopeFits nodes state.old.heap.cells scope → Lasts nodes state.old state.new result }
{
    state.enter(Frame::OnValue(ValueFrame::Call(frame)), callee, scope)
}

// What is called without a receiver: it is evaluated in place or entered.
fn plain_callee(
    state: &mut State,
    tree: &Tree,
    node: NodeId,
    callee: NodeId,
    scope: Scope,
) -> Result<Next, StepFault>
    ensures does { IfOk result (λ next. Does (nodes_of tree.now) 6 (eval callee scope (λ f. call_rest (nodes_of tree.now) (CallFrame.Callee node scope) f)) state.old state.new next) }
    ensures closed { IsClosed (nodes_of tree.now) state.old → ScopeFits (nodes_of tree.now) state.old.heap.cells scope → Lasts (nodes_of tree.now) state.old state.new result }
{
    match take_value(state, tree, callee, &scope)? {
        Taken::Value(value) => {
            let target = CallTarget::Call {
                callee: value,
                receiver: Value::Undefined,
            };
            all_arguments(state, tree, node, target, scope)
        }
        Taken::Ended(next) => {
            discard(scope);
            Ok(next)
        }
        Taken::Nothing => {
            let inner = copy_scope(state.alloc, &scope)?;
            enter_callee(state, CallFrame::Callee { node, scope }, callee, inner)
        }
    }
}

/// A call (ECMA-262, 13.3.6.1): evaluates what is called, in place where its value is at hand, or enters it. Of a property
/// that is its object, behind the step of the callee's node; the object is the receiver of the call, which else is
/// `undefined`. The node is that of the row, which has the arguments; the leading ones whose values are at hand are
/// evaluated in place as well.
pub fn row_call(
    state: &mut State,
    tree: &Tree,
    node: NodeId,
    callee: NodeId,
    scope: Scope,
) -> Result<Next, StepFault>
    ensures does { IfOk result (λ next. Does (nodes_of tree.now) 6 (row_call callee (items_of (slice_get (nodes_of tree.now) node.0)) scope) state.old state.new next) }
    ensures closed { IsClosed (nodes_of tree.now) state.old → ScopeFits (nodes_of tree.now) state.old.heap.cells scope → Lasts (nodes_of tree.now) state.old state.new result }
{
    match target_of(tree, callee) {
        Target::Dot { object } => dot_object(state, tree, node, callee, object, scope),
        Target::Index { object, key } => index_object(state, tree, node, object, key, scope),
        Target::Name => plain_callee(state, tree, node, callee, scope),
        Target::Other => plain_callee(state, tree, node, callee, scope),
    }
}

/// The operator `new` (ECMA-262, 13.3.5.1.1): enters what is to construct an object. The node is that of the row, which
/// has the arguments.
pub fn row_new(
    state: &mut State,
    node: NodeId,
    callee: NodeId,
    scope: Scope,
) -> Result<Next, StepFault>
    ensures does { (nodes : List kind.Node) → IfOk result (λ next. Does nodes 6 (row_new callee (items_of (slice_get nodes node.0)) scope) state.old state.new next) }
    ensures closed { (nodes : List kind.Node) → IsClosed nodes state.old → ScopeFits nodes state.old.heap.cells scope → Lasts nodes state.old state.new result }
{
    let inner = copy_scope(state.alloc, &scope)?;
    enter_callee(state, CallFrame::NewCallee { node, scope }, callee, inner)
}
