//! The parameters of a function that is called (ECMA-262, 10.2.11 and 8.6.3).
ghost use Rattle.std.specs.Prelude.{◌≡◌, ◌+◌, ℕ, [], ◌∷◌, List, drop, slice_get, IfOk, MatchResult, Some, None};
ghost use Rattle.world_heap.specs.declared.value.Value as kept;
ghost use Rattle.world_heap.specs.Over.{ListOver};
ghost use Rattle.js_tree.specs.declared.node.Node as kind;
ghost use Rattle.js_names.specs.Patterns.{nodes_of};
ghost use Rattle.js_semantics.specs.Prog.{Bind, Enter, eval, on_value};
ghost use Rattle.js_semantics.specs.Access.{bind_value, first_of};
ghost use Rattle.js_machine.specs.Closed.{FrameFits, IsClosed, Lasts, ScopeFits, ValueFits};
ghost use Rattle.js_machine.specs.Does.{Does};
ghost use Rattle.js_machine.specs.Frames.{call_rest, parameters_rest};
ghost use Rattle.js_machine.specs.Parts.{parameters_from, rest_parameter};

use crate::functions::{body_of, parameter_at, rest_parameter};
use crate::in_place::leading_parameters;
use js_machine::{
    CallFrame, Frame, Next, State, ValueFrame, copy_scope, copy_values, default_of, stopped,
};
use js_semantics::{Outcome, Scope, StepFault};
use js_tree::{BindElement, NodeId, Tree};
use sqlite_items::Items;
use std::alloc::Global;
use world_heap::Value;

// Enters a node over a frame of a call.
fn enter_part(
    state: &mut State,
    frame: CallFrame,
    node: NodeId,
    scope: Scope,
) -> Result<Next, StepFault>
    ensures does { (nodes : List kind.Node) → IfOk result (λ next. Does nodes 2 (eval node scope (λ v. call_rest nodes frame v)) state.old state.new next) }
    ensures closed { (nodes : List kind.Node) → IsClosed nodes state.old → FrameFits nodes state.old.heap.cells (Frame.OnValue (ValueFrame.Call frame)) → ScopeFits nodes state.old.heap.cells scope → Lasts nodes state.old state.new result }
{
    state.enter(Frame::OnValue(ValueFrame::Call(frame)), node, scope)
}

// Enters a pattern with the value that is bound to it, over a frame of a call.
fn bind_part(
    state: &mut State,
    frame: CallFrame,
    pattern: NodeId,
    value: Value,
    scope: Scope,
) -> Result<Next, StepFault>
    ensures few { (nodes : List kind.Node) → IfOk result (λ next. Does nodes 2 (Enter (Bind pattern value scope) (λ o. on_value (λ v. call_rest nodes frame v) o)) state.old state.new next) }
    ensures many { (nodes : List kind.Node) → IfOk result (λ next. Does nodes 6 (Enter (Bind pattern value scope) (λ o. on_value (λ v. call_rest nodes frame v) o)) state.old state.new next) }
    ensures closed { (nodes : List kind.Node) → IsClosed nodes state.old → FrameFits nodes state.old.heap.cells (Frame.OnValue (ValueFrame.Call frame)) → ValueFits state.old.heap.cells value → ScopeFits nodes state.old.heap.cells scope → Lasts nodes state.old state.new result }
{
    state.bind(
        Frame::OnValue(ValueFrame::Call(frame)),
        pattern,
        value,
        scope,
    )
}

/// The argument at a place; a missing one is undefined.
#[tactic(auto, using(crate::proofs::Defaulted::first_some, crate::proofs::Defaulted::first_none))]
pub(crate) fn argument_at(
    alloc: Global,
    arguments: &Items<Value>,
    at: usize,
) -> Result<Value, StepFault>
    ensures { MatchResult result (λ value. value ≡ first_of (drop at arguments.now)) (λ fault. fault ≡ StepFault.Memory) }
{
    match arguments.get(at) {
        Some(value) => Ok(value.copy(alloc)?),
        None => Ok(Value::Undefined),
    }
}

// The arguments from a place on. The cost is linear in them.
#[tactic(auto, using(js_machine::proofs::Lists::drop_none, std::proofs::lemmas::List::take_rest))]
fn arguments_from(
    alloc: Global,
    arguments: &Items<Value>,
    at: usize,
) -> Result<Items<Value>, StepFault>
    ensures { MatchResult result (λ rest. rest ≡ drop at arguments.now) (λ fault. fault ≡ StepFault.Memory) }
{
    if at < arguments.len() {
        copy_values(alloc, &arguments.as_slice()[at..])
    } else {
        Ok(Items::new(alloc))
    }
}

// Binds a value to the parameter before a place, and goes on with the one there.
fn bind_parameter(
    state: &mut State,
    pattern: NodeId,
    value: Value,
    node: NodeId,
    next: usize,
    arguments: Items<Value>,
    scope: Scope,
) -> Result<Next, StepFault>
    ensures few { (nodes : List kind.Node) → IfOk result (λ next_is. Does nodes 2 (bind_value pattern value scope (parameters_rest nodes node next arguments scope)) state.old state.new next_is) }
    ensures many { (nodes : List kind.Node) → IfOk result (λ next_is. Does nodes 6 (bind_value pattern value scope (parameters_rest nodes node next arguments scope)) state.old state.new next_is) }
    ensures closed { (nodes : List kind.Node) → IsClosed nodes state.old → ValueFits state.old.heap.cells value → ListOver (ValueFits state.old.heap.cells) arguments → ScopeFits nodes state.old.heap.cells scope → Lasts nodes state.old state.new result }
{
    let inner = copy_scope(state.alloc, &scope)?;
    let frame = CallFrame::ParameterBound {
        node,
        next,
        arguments,
        scope,
    };
    bind_part(state, frame, pattern, value, inner)
}

// Binds the argument at a place to its parameter; where it is undefined, the default is evaluated first.
fn parameter(
    state: &mut State,
    element: BindElement,
    node: NodeId,
    at: usize,
    next: usize,
    arguments: Items<Value>,
    scope: Scope,
) -> Result<Next, StepFault>
    ensures does { (nodes : List kind.Node) → drop at (parameters_from (slice_get nodes node.0)) ≡ element ∷ drop next (parameters_from (slice_get nodes node.0)) → next ≡ at + 1
        → IfOk result (λ next_is. Does nodes 2 (parameters_rest nodes node at arguments scope) state.old state.new next_is) }
    ensures closed { (nodes : List kind.Node) → IsClosed nodes state.old → ListOver (ValueFits state.old.heap.cells) arguments → ScopeFits nodes state.old.heap.cells scope → Lasts nodes state.old state.new result }
{
    let value = argument_at(state.alloc, &arguments, at)?;
    match default_of(&value, element.default) {
        Some(default) => {
            let inner = copy_scope(state.alloc, &scope)?;
            let frame = CallFrame::ParameterDefault {
                node,
                at,
                arguments,
                scope,
            };
            enter_part(state, frame, default, inner)
        }
        None => bind_parameter(state, element.bind, value, node, next, arguments, scope),
    }
}

// Binds the arguments from a place on to a rest parameter, as an array.
fn rest(
    state: &mut State,
    pattern: NodeId,
    node: NodeId,
    at: usize,
    arguments: &Items<Value>,
    scope: Scope,
) -> Result<Next, StepFault>
    ensures does { (nodes : List kind.Node) → drop at (parameters_from (slice_get nodes node.0)) ≡ [] → rest_parameter (slice_get nodes node.0) ≡ Some pattern
        → IfOk result (λ next. Does nodes 2 (parameters_rest nodes node at arguments.now scope) state.old state.new next) }
    ensures closed { (nodes : List kind.Node) → IsClosed nodes state.old → ListOver (ValueFits state.old.heap.cells) arguments.now → ScopeFits nodes state.old.heap.cells scope → Lasts nodes state.old state.new result }
{
    let items = arguments_from(state.alloc, arguments, at)?;
    match state.make_array(items)? {
        Ok(array) => {
            let inner = copy_scope(state.alloc, &scope)?;
            let frame = CallFrame::RestBound { node, scope };
            bind_part(state, frame, pattern, Value::Ref(array), inner)
        }
        Err(stop) => Ok(stopped(stop)),
    }
}

// What comes behind the last parameter: the rest parameter, or the body.
fn last(
    state: &mut State,
    tree: &Tree,
    node: NodeId,
    at: usize,
    arguments: Items<Value>,
    scope: Scope,
) -> Result<Next, StepFault>
    ensures does { drop at (parameters_from (slice_get (nodes_of tree.now) node.0)) ≡ []
        → IfOk result (λ next. Does (nodes_of tree.now) 2 (parameters_rest (nodes_of tree.now) node at arguments scope) state.old state.new next) }
    ensures closed { IsClosed (nodes_of tree.now) state.old → ListOver (ValueFits state.old.heap.cells) arguments → ScopeFits (nodes_of tree.now) state.old.heap.cells scope → Lasts (nodes_of tree.now) state.old state.new result }
{
    match rest_parameter(tree, node) {
        Some(pattern) => rest(state, pattern, node, at, &arguments, scope),
        None => state.jump(body_of(tree, node), scope),
    }
}

/// Binds the parameters of a node's function from a place on to the arguments from there on, each after its default
/// where the argument is undefined, and what is left to the rest parameter; then enters the body. What a rest parameter
/// takes is copied, in time linear in it.
///
/// # Errors
/// `Memory` where there is none; `Dangling` where an argument that a rest parameter takes stands nowhere.
pub fn parameters(
    state: &mut State,
    tree: &Tree,
    node: NodeId,
    at: usize,
    arguments: Items<Value>,
    scope: Scope,
) -> Result<Next, StepFault>
    ensures does { IfOk result (λ next. Does (nodes_of tree.now) 2 (parameters_rest (nodes_of tree.now) node at arguments scope) state.old state.new next) }
    ensures closed { IsClosed (nodes_of tree.now) state.old → ListOver (ValueFits state.old.heap.cells) arguments → ScopeFits (nodes_of tree.now) state.old.heap.cells scope → Lasts (nodes_of tree.now) state.old state.new result }
{
    match parameter_at(tree, node, at) {
        Some((element, next)) => parameter(state, element, node, at, next, arguments, scope),
        None => last(state, tree, node, at, arguments, scope),
    }
}

/// Binds all parameters of a node's function to the arguments, as `parameters` does from the first on; those that are
/// names, up to one that isn't or whose default is to be evaluated, are bound in place.
///
/// # Errors
/// As those of `parameters`.
pub(crate) fn all_parameters(
    state: &mut State,
    tree: &Tree,
    node: NodeId,
    arguments: Items<Value>,
    scope: Scope,
) -> Result<Next, StepFault>
    ensures does { IfOk result (λ next. Does (nodes_of tree.now) 2 (parameters_rest (nodes_of tree.now) node 0 arguments scope) state.old state.new next) }
    ensures closed { IsClosed (nodes_of tree.now) state.old → ListOver (ValueFits state.old.heap.cells) arguments → ScopeFits (nodes_of tree.now) state.old.heap.cells scope → Lasts (nodes_of tree.now) state.old state.new result }
{
    let leading = leading_parameters(state, tree, node, &arguments, &scope)?;
    match leading {
        Ok(at) => parameters(state, tree, node, at, arguments, scope),
        Err(next) => Ok(next),
    }
}

/// The default of a parameter has this value: binds it, and goes on with the parameters behind it.
///
/// # Errors
/// As those of `parameters`.
pub fn parameter_default(
    state: &mut State,
    tree: &Tree,
    node: NodeId,
    at: usize,
    arguments: Items<Value>,
    scope: Scope,
    value: Value,
) -> Result<Next, StepFault>
    ensures does { IfOk result (λ next. Does (nodes_of tree.now) 6 (call_rest (nodes_of tree.now) (CallFrame.ParameterDefault node at arguments scope) value) state.old state.new next) }
    ensures closed { IsClosed (nodes_of tree.now) state.old → ListOver (ValueFits state.old.heap.cells) arguments → ScopeFits (nodes_of tree.now) state.old.heap.cells scope → ValueFits state.old.heap.cells value → Lasts (nodes_of tree.now) state.old state.new result }
{
    match parameter_at(tree, node, at) {
        Some((element, next)) => {
            bind_parameter(state, element.bind, value, node, next, arguments, scope)
        }
        None => state.give(Outcome::Normal(Value::Undefined)),
    }
}

/// A parameter is bound: goes on with those behind it.
///
/// # Errors
/// As those of `parameters`.
pub fn parameter_bound(
    state: &mut State,
    tree: &Tree,
    node: NodeId,
    next: usize,
    arguments: Items<Value>,
    scope: Scope,
) -> Result<Next, StepFault>
    ensures does { (u : kept.Value ℕ) → IfOk result (λ next_is. Does (nodes_of tree.now) 6 (call_rest (nodes_of tree.now) (CallFrame.ParameterBound node next arguments scope) u) state.old state.new next_is) }
    ensures closed { IsClosed (nodes_of tree.now) state.old → ListOver (ValueFits state.old.heap.cells) arguments → ScopeFits (nodes_of tree.now) state.old.heap.cells scope → Lasts (nodes_of tree.now) state.old state.new result }
{
    parameters(state, tree, node, next, arguments, scope)
}

/// The rest parameter is bound: enters the body.
///
/// # Errors
/// `Memory` where there is none.
pub fn rest_bound(
    state: &mut State,
    tree: &Tree,
    node: NodeId,
    scope: Scope,
) -> Result<Next, StepFault>
    ensures does { (u : kept.Value ℕ) → IfOk result (λ next. Does (nodes_of tree.now) 6 (call_rest (nodes_of tree.now) (CallFrame.RestBound node scope) u) state.old state.new next) }
    ensures closed { IsClosed (nodes_of tree.now) state.old → ScopeFits (nodes_of tree.now) state.old.heap.cells scope → Lasts (nodes_of tree.now) state.old state.new result }
{
    state.jump(body_of(tree, node), scope)
}
