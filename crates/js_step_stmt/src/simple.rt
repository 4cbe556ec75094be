//! The rows of statements that end at once or enter one node (ECMA-262, 14.5, 14.6, 14.10 and 14.14).
ghost use Rattle.std.specs.Prelude.{◌≡◌, List, IfOk};
ghost use Rattle.js_tree.specs.declared.node.Node as kind;
ghost use Rattle.js_semantics.specs.Prog.{done};
ghost use Rattle.js_semantics.specs.Statements.{row_expression, row_if, row_return, row_throw, run_or_done};
ghost use Rattle.js_machine.specs.Does.{Does};
ghost use Rattle.js_machine.specs.Frames.{statement_rest};
ghost use Rattle.js_machine.specs.Closed.{IsClosed, Lasts, ScopeFits, ValueFits};

use js_machine::{Frame, Next, State, StatementFrame, ValueFrame, copy_scope, done};
use js_operators::is_truthy;
use js_semantics::{Outcome, Scope, StepFault};
use js_tree::NodeId;
use world_heap::Value;

/// A frame of a statement.
pub fn statement(frame: StatementFrame) -> Frame
    ensures { result ≡ Frame.OnValue (ValueFrame.Statement frame) }
{
    Frame::OnValue(ValueFrame::Statement(frame))
}

/// An expression statement (ECMA-262, 14.5).
#[tactic(auto, unfolding(js_semantics::specs::Statements::row_expression))]
pub fn row_expression(state: &mut State, value: NodeId, scope: Scope) -> Result<Next, StepFault>
    ensures does { (nodes : List kind.Node) → IfOk result (λ next. Does nodes 6 (row_expression value scope) state.old state.new next) }
    ensures closed { (nodes : List kind.Node) → IsClosed nodes state.old → ScopeFits nodes state.old.heap.cells scope → Lasts nodes state.old state.new result }
{
    state.enter(statement(StatementFrame::Expression), value, scope)
}

/// The end of an expression statement.
pub fn expression_end(state: &mut State, value: Value) -> Result<Next, StepFault>
    ensures does { (nodes : List kind.Node) → IfOk result (λ next. Does nodes 6 (statement_rest nodes StatementFrame.Expression value) state.old state.new next) }
    ensures closed { (nodes : List kind.Node) → IsClosed nodes state.old → ValueFits state.old.heap.cells value → Lasts nodes state.old state.new result }
{
    let _ = value;
    done(state)
}

/// An `if` (ECMA-262, 14.6).
#[tactic(auto, unfolding(js_semantics::specs::Statements::row_if))]
pub fn row_if(
    state: &mut State,
    test: NodeId,
    first: NodeId,
    second: Option<NodeId>,
    scope: Scope,
) -> Result<Next, StepFault>
    ensures does { (nodes : List kind.Node) → IfOk result (λ next. Does nodes 6 (row_if test first second scope) state.old state.new next) }
    ensures closed { (nodes : List kind.Node) → IsClosed nodes state.old → ScopeFits nodes state.old.heap.cells scope → Lasts nodes state.old state.new result }
{
    let inner = copy_scope(state.alloc, &scope)?;
    let frame = StatementFrame::If {
        first,
        second,
        scope,
    };
    state.enter(statement(frame), test, inner)
}

/// A statement, or nothing.
pub fn run_or_done(state: &mut State, node: Option<NodeId>, scope: Scope) -> Result<Next, StepFault>
    ensures does { (nodes : List kind.Node) → IfOk result (λ next. Does nodes 6 (run_or_done node scope) state.old state.new next) }
    ensures closed { (nodes : List kind.Node) → IsClosed nodes state.old → ScopeFits nodes state.old.heap.cells scope → Lasts nodes state.old state.new result }
{
    match node {
        Some(node) => state.jump(node, scope),
        None => done(state),
    }
}

/// The branch of an `if` that its test chooses.
pub fn if_end(
    state: &mut State,
    first: NodeId,
    second: Option<NodeId>,
    scope: Scope,
    value: Value,
) -> Result<Next, StepFault>
    ensures does { (nodes : List kind.Node) → IfOk result (λ next. Does nodes 6 (statement_rest nodes (StatementFrame.If first second scope) value) state.old state.new next) }
    ensures closed { (nodes : List kind.Node) → IsClosed nodes state.old → ScopeFits nodes state.old.heap.cells scope → ValueFits state.old.heap.cells value → Lasts nodes state.old state.new result }
{
    if is_truthy(&value) {
        run_or_done(state, Some(first), scope)
    } else {
        run_or_done(state, second, scope)
    }
}

/// A `return` (ECMA-262, 14.10).
#[tactic(auto, unfolding(js_semantics::specs::Statements::row_return))]
pub fn row_return(state: &mut State, value: Option<NodeId>, scope: Scope) -> Result<Next, StepFault>
    ensures does { (nodes : List kind.Node) → IfOk result (λ next. Does nodes 6 (row_return value scope) state.old state.new next) }
    ensures closed { (nodes : List kind.Node) → IsClosed nodes state.old → ScopeFits nodes state.old.heap.cells scope → Lasts nodes state.old state.new result }
{
    match value {
        Some(value) => state.enter(statement(StatementFrame::Return), value, scope),
        None => state.give(Outcome::Return(Value::Undefined)),
    }
}

/// The end of a `return` with a value.
pub fn return_end(state: &mut State, value: Value) -> Result<Next, StepFault>
    ensures does { (nodes : List kind.Node) → IfOk result (λ next. Does nodes 6 (statement_rest nodes StatementFrame.Return value) state.old state.new next) }
    ensures closed { (nodes : List kind.Node) → IsClosed nodes state.old → ValueFits state.old.heap.cells value → Lasts nodes state.old state.new result }
{
    state.give(Outcome::Return(value))
}

/// A `throw` (ECMA-262, 14.14).
#[tactic(auto, unfolding(js_semantics::specs::Statements::row_throw))]
pub fn row_throw(state: &mut State, value: NodeId, scope: Scope) -> Result<Next, StepFault>
    ensures does { (nodes : List kind.Node) → IfOk result (λ next. Does nodes 6 (row_throw value scope) state.old state.new next) }
    ensures closed { (nodes : List kind.Node) → IsClosed nodes state.old → ScopeFits nodes state.old.heap.cells scope → Lasts nodes state.old state.new result }
{
    state.enter(statement(StatementFrame::Throw), value, scope)
}

/// The end of a `throw`.
pub fn throw_end(state: &mut State, value: Value) -> Result<Next, StepFault>
    ensures does { (nodes : List kind.Node) → IfOk result (λ next. Does nodes 6 (statement_rest nodes StatementFrame.Throw value) state.old state.new next) }
    ensures closed { (nodes : List kind.Node) → IsClosed nodes state.old → ValueFits state.old.heap.cells value → Lasts nodes state.old state.new result }
{
    state.give(Outcome::Thrown(value))
}
