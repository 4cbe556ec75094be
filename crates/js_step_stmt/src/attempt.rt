//! The row of `try` (ECMA-262, 14.15).
ghost use Rattle.std.specs.Prelude.{List, IfOk, Some};
ghost use Rattle.js_tree.specs.declared.node.Node as kind;
ghost use Rattle.js_names.specs.Patterns.{nodes_of};
ghost use Rattle.js_semantics.specs.Access.{bind_value};
ghost use Rattle.js_semantics.specs.Environments.{env_cell};
ghost use Rattle.js_semantics.specs.Prog.{End, Enter, Node as NodeRequest, alloc, bind};
ghost use Rattle.js_semantics.specs.Statements.{handle, inside, row_try};
ghost use Rattle.js_machine.specs.Does.{Does};
ghost use Rattle.js_machine.specs.Frames.{rest};
ghost use Rattle.js_machine.specs.Closed.{FrameFits, IsClosed, Lasts, OutcomeFits, ScopeFits, ValueFits};
ghost use Rattle.js_step_stmt.specs.Fitting.{BindingsFit};

use crate::environments::{inside, pattern_bindings};
use crate::simple::statement;
use js_machine::{Control, Frame, Next, State, StatementFrame, copy_scope, stopped};
use js_semantics::{Outcome, Scope, StepFault};
use js_tree::{NodeId, Tree};
use sqlite_items::Items;
use world_heap::{Binding, Value};
use world_log::Stop;

// Enters a node for a step, under two frames.
fn enter_under(
    state: &mut State,
    lower: Frame,
    upper: Frame,
    node: NodeId,
    scope: Scope,
) -> Result<Next, StepFault>
    ensures does { (nodes : List kind.Node) → IfOk result (λ next. Does nodes 6 (Enter (NodeRequest node scope) (λ o. bind (rest nodes upper o) (λ p. rest nodes lower p))) state.old state.new next) }
    ensures closed { (nodes : List kind.Node) → IsClosed nodes state.old → FrameFits nodes state.old.heap.cells lower → FrameFits nodes state.old.heap.cells upper → ScopeFits nodes state.old.heap.cells scope → Lasts nodes state.old state.new result }
{
    if state.steps == 0 {
        state.control = Control::Stop;
        return Ok(stopped(Stop::Fuel));
    }
    state.frames.push(lower)?;
    state.frames.push(upper)?;
    state.steps -= 1;
    state.control = Control::Node(node, scope);
    Ok(Next::Go)
}

/// A `try`: its block, over what its handler makes of the outcome, over `finally`.
#[tactic(auto, unfolding(js_semantics::specs::Statements::row_try))]
pub fn row_try(
    state: &mut State,
    block: NodeId,
    bind: Option<NodeId>,
    handler: Option<NodeId>,
    last: Option<NodeId>,
    scope: Scope,
) -> Result<Next, StepFault>
    ensures does { (nodes : List kind.Node) → IfOk result (λ next. Does nodes 6 (row_try block bind handler last scope) state.old state.new next) }
    ensures closed { (nodes : List kind.Node) → IsClosed nodes state.old → ScopeFits nodes state.old.heap.cells scope → Lasts nodes state.old state.new result }
{
    let inner = copy_scope(state.alloc, &scope)?;
    let around = copy_scope(state.alloc, &scope)?;
    let lower = Frame::Last {
        last,
        scope: around,
    };
    let upper = Frame::Catch {
        bind,
        handler,
        scope,
    };
    enter_under(state, lower, upper, block, inner)
}

// Binds a caught value in its environment, and then runs the handler there.
fn bind_caught(
    state: &mut State,
    pattern: NodeId,
    handler: NodeId,
    value: Value,
    scope: Scope,
) -> Result<Next, StepFault>
    ensures does { (nodes : List kind.Node) → IfOk result (λ next. Does nodes 6 (bind_value pattern value scope (Enter (NodeRequest handler scope) (λ o. End o))) state.old state.new next) }
    ensures closed { (nodes : List kind.Node) → IsClosed nodes state.old → ValueFits state.old.heap.cells value → ScopeFits nodes state.old.heap.cells scope → Lasts nodes state.old state.new result }
{
    let inner = copy_scope(state.alloc, &scope)?;
    let frame = StatementFrame::HandlerBound { handler, scope };
    state.bind(statement(frame), pattern, value, inner)
}

// Makes the environment of a handler's pattern.
fn handle_in(
    state: &mut State,
    pattern: NodeId,
    bindings: Items<Binding>,
    handler: NodeId,
    value: Value,
    scope: Scope,
) -> Result<Next, StepFault>
    ensures does { (nodes : List kind.Node) → IfOk result (λ next. Does nodes 6 (alloc (env_cell (Some scope.env) bindings) (λ env. bind_value pattern value (inside env scope) (Enter (NodeRequest handler (inside env scope)) (λ o. End o)))) state.old state.new next) }
    ensures closed { (nodes : List kind.Node) → IsClosed nodes state.old → BindingsFit state.old.heap.cells bindings → ValueFits state.old.heap.cells value → ScopeFits nodes state.old.heap.cells scope → Lasts nodes state.old state.new result }
{
    match state.make_environment(Some(scope.env), bindings)? {
        Ok(env) => bind_caught(state, pattern, handler, value, inside(env, scope)),
        Err(stop) => Ok(stopped(stop)),
    }
}

// The handler, with the value that was thrown.
fn handle(
    state: &mut State,
    tree: &Tree,
    bind: Option<NodeId>,
    handler: NodeId,
    value: Value,
    scope: Scope,
) -> Result<Next, StepFault>
    ensures does { IfOk result (λ next. Does (nodes_of tree.now) 6 (handle bind handler value scope) state.old state.new next) }
    ensures closed { IsClosed (nodes_of tree.now) state.old → ValueFits state.old.heap.cells value → ScopeFits (nodes_of tree.now) state.old.heap.cells scope → Lasts (nodes_of tree.now) state.old state.new result }
{
    match bind {
        Some(pattern) => {
            let bindings = pattern_bindings(state.alloc, tree, pattern, false)?;
            handle_in(state, pattern, bindings, handler, value, scope)
        }
        None => state.jump(handler, scope),
    }
}

/// What becomes of the outcome of a `try`'s block: a thrown value goes to the handler, where there is one.
pub fn caught(
    state: &mut State,
    tree: &Tree,
    bind: Option<NodeId>,
    handler: Option<NodeId>,
    scope: Scope,
    outcome: Outcome,
) -> Result<Next, StepFault>
    ensures does { IfOk result (λ next. Does (nodes_of tree.now) 6 (rest (nodes_of tree.now) (Frame.Catch bind handler scope) outcome) state.old state.new next) }
    ensures closed { IsClosed (nodes_of tree.now) state.old → ScopeFits (nodes_of tree.now) state.old.heap.cells scope → OutcomeFits (nodes_of tree.now) state.old.heap.cells outcome → Lasts (nodes_of tree.now) state.old state.new result }
{
    match handler {
        Some(handler) => match outcome {
            Outcome::Thrown(value) => handle(state, tree, bind, handler, value, scope),
            _ => state.give(outcome),
        },
        None => state.give(outcome),
    }
}

/// The `finally` of a `try`, where there is one, after the outcome before it.
pub fn at_last(
    state: &mut State,
    last: Option<NodeId>,
    scope: Scope,
    outcome: Outcome,
) -> Result<Next, StepFault>
    ensures does { (nodes : List kind.Node) → IfOk result (λ next. Does nodes 6 (rest nodes (Frame.Last last scope) outcome) state.old state.new next) }
    ensures closed { (nodes : List kind.Node) → IsClosed nodes state.old → ScopeFits nodes state.old.heap.cells scope → OutcomeFits nodes state.old.heap.cells outcome → Lasts nodes state.old state.new result }
{
    match last {
        Some(last) => state.enter(Frame::Replaced { before: outcome }, last, scope),
        None => state.give(outcome),
    }
}

/// The end of a `finally`: what it ends with takes the place of the outcome before it, unless it is a value.
pub fn replaced_by(state: &mut State, before: Outcome, outcome: Outcome) -> Result<Next, StepFault>
    ensures does { (nodes : List kind.Node) → IfOk result (λ next. Does nodes 6 (rest nodes (Frame.Replaced before) outcome) state.old state.new next) }
    ensures closed { (nodes : List kind.Node) → IsClosed nodes state.old → OutcomeFits nodes state.old.heap.cells before → OutcomeFits nodes state.old.heap.cells outcome → Lasts nodes state.old state.new result }
{
    match outcome {
        Outcome::Normal(_) => state.give(before),
        _ => state.give(outcome),
    }
}
