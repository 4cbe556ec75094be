//! What follows the callee, the arguments and the parameters of a call (ECMA-262, 13.3.6.2, 13.3.8.1 and 10.2.11).
ghost use Rattle.std.specs.Prelude.{[], IfOk};
ghost use Rattle.js_names.specs.Patterns.{nodes_of};
ghost use Rattle.js_machine.specs.Closed.{FrameFits, IsClosed, Lasts, ScopeFits, ValueFits};
ghost use Rattle.js_machine.specs.Does.{Does};
ghost use Rattle.js_machine.specs.Frames.{after_rest, arguments_rest, call_rest};
ghost use Rattle.js_machine.specs.declared.frame.Frame.TheVariants as frames;
ghost use Rattle.js_machine.specs.declared.frame.ValueFrame.TheVariants as values;
ghost use Rattle.js_iterate.specs.Closed.{PendingFits, CallTargetFits};

use crate::leading::{Leading, leading_arguments};
use js_calls::{parameter_bound, parameter_default, rest_bound};
use js_iterate::{Pending, argument_value, arguments_from, spread_value};
use js_machine::{AfterFrame, CallFrame, CallTarget, Next, State, discard};
use js_semantics::{Scope, StepFault};
use js_tree::{NodeId, Tree};
use world_heap::Value;

/// The arguments of a node from the first on, and then what they are for. Those before the first whose value isn't at hand
/// are evaluated in place.
pub(crate) fn all_arguments(
    state: &mut State,
    tree: &Tree,
    node: NodeId,
    target: CallTarget,
    scope: Scope,
) -> Result<Next, StepFault>
    ensures some { IfOk result (λ next. Does (nodes_of tree.now) 4 (arguments_rest (nodes_of tree.now) node 0 [] target scope) state.old state.new next) }
    ensures many { IfOk result (λ next. Does (nodes_of tree.now) 6 (arguments_rest (nodes_of tree.now) node 0 [] target scope) state.old state.new next) }
    ensures closed { IsClosed (nodes_of tree.now) state.old → CallTargetFits (nodes_of tree.now) state.old.heap.cells target → ScopeFits (nodes_of tree.now) state.old.heap.cells scope → Lasts (nodes_of tree.now) state.old state.new result }
{
    let leading = leading_arguments(state, tree, node, &scope)?;
    match leading {
        Leading::Values { next, before } => {
            let pending = Pending {
                node,
                next,
                before,
                target,
            };
            arguments_from(state, tree, pending, scope)
        }
        Leading::Ended(ended) => {
            discard(target);
            discard(scope);
            Ok(ended)
        }
    }
}

// The value of an argument, or of the list of a spread.
fn argument(
    state: &mut State,
    tree: &Tree,
    pending: Pending,
    spread: bool,
    scope: Scope,
    value: Value,
) -> Result<Next, StepFault>
    ensures does { IfOk result (λ next. Does (nodes_of tree.now) 6 (call_rest (nodes_of tree.now) (CallFrame.Argument pending.node pending.next spread pending.before pending.target scope) value) state.old state.new next) }
    ensures closed { IsClosed (nodes_of tree.now) state.old → PendingFits (nodes_of tree.now) state.old.heap.cells pending → ScopeFits (nodes_of tree.now) state.old.heap.cells scope → ValueFits state.old.heap.cells value → Lasts (nodes_of tree.now) state.old state.new result }
{
    if spread {
        spread_value(state, tree, pending, scope, &value)
    } else {
        argument_value(state, tree, pending, scope, value)
    }
}

/// What is left of a call, once a part of it has a value: behind the callee the arguments; behind an argument those that
/// follow it, and then the call, or the construction of an object, which is an error where the callee can't be called so;
/// behind a parameter's default its binding; behind a binding the parameters that follow, and the body.
pub fn call_frame(
    state: &mut State,
    tree: &Tree,
    frame: CallFrame,
    value: Value,
) -> Result<Next, StepFault>
    ensures does { IfOk result (λ made. Does (nodes_of tree.now) 6 (call_rest (nodes_of tree.now) frame value) state.old state.new made) }
    ensures closed { IsClosed (nodes_of tree.now) state.old → FrameFits (nodes_of tree.now) state.old.heap.cells (frames.OnValue (values.Call frame)) → ValueFits state.old.heap.cells value → Lasts (nodes_of tree.now) state.old state.new result }
{
    match frame {
        CallFrame::Callee { node, scope } => {
            let target = CallTarget::Call {
                callee: value,
                receiver: Value::Undefined,
            };
            all_arguments(state, tree, node, target, scope)
        }
        CallFrame::NewCallee { node, scope } => {
            all_arguments(state, tree, node, CallTarget::New { callee: value }, scope)
        }
        CallFrame::Argument {
            node,
            next,
            spread,
            done,
            target,
            scope,
        } => {
            let pending = Pending {
                node,
                next,
                before: done,
                target,
            };
            argument(state, tree, pending, spread, scope, value)
        }
        CallFrame::ParameterDefault {
            node,
            at,
            arguments,
            scope,
        } => parameter_default(state, tree, node, at, arguments, scope, value),
        CallFrame::ParameterBound {
            node,
            next,
            arguments,
            scope,
        } => {
            discard(value);
            parameter_bound(state, tree, node, next, arguments, scope)
        }
        CallFrame::RestBound { node, scope } => {
            discard(value);
            rest_bound(state, tree, node, scope)
        }
    }
}

/// The callee of a call was read from an object (ECMA-262, 13.3.6.2): the arguments, and then the call with the object as
/// its receiver.
pub fn after_callee(
    state: &mut State,
    tree: &Tree,
    node: NodeId,
    base: Value,
    scope: Scope,
    callee: Value,
) -> Result<Next, StepFault>
    ensures does { IfOk result (λ next. Does (nodes_of tree.now) 4 (after_rest (nodes_of tree.now) (AfterFrame.Callee node base scope) callee) state.old state.new next) }
    ensures closed { IsClosed (nodes_of tree.now) state.old → ValueFits state.old.heap.cells base → ScopeFits (nodes_of tree.now) state.old.heap.cells scope → ValueFits state.old.heap.cells callee → Lasts (nodes_of tree.now) state.old state.new result }
{
    let target = CallTarget::Call {
        callee,
        receiver: base,
    };
    all_arguments(state, tree, node, target, scope)
}
