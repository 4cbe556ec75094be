//! The rows of `while`, `do` and `for` (ECMA-262, 14.7.2 to 14.7.4).
ghost use Rattle.std.specs.Prelude.{List, IfOk};
ghost use Rattle.js_tree.specs.declared.node.Node as kind;
ghost use Rattle.js_semantics.specs.Prog.{DoWhile, End, Enter, For, While};
ghost use Rattle.js_semantics.specs.Statements.{copy_scope, row_do_while, row_while, run_next};
ghost use Rattle.js_machine.specs.Does.{Does};
ghost use Rattle.js_machine.specs.Frames.{rest, statement_rest};
ghost use Rattle.js_machine.specs.Closed.{IsClosed, Lasts, OutcomeFits, ScopeFits, ValueFits};

use crate::simple::statement;
use js_machine::{ForLoop, Frame, Next, State, StatementFrame, copy_scope, done};
use js_operators::is_truthy;
use js_semantics::{Outcome, Scope, StepFault};
use js_tree::NodeId;
use world_heap::Value;

// A turn of a `while`, from its test on.
fn enter_while(
    state: &mut State,
    test: NodeId,
    body: NodeId,
    scope: Scope,
) -> Result<Next, StepFault>
    ensures does { (nodes : List kind.Node) → IfOk result (λ next. Does nodes 6 (Enter (While test body scope) (λ o. End o)) state.old state.new next) }
    ensures closed { (nodes : List kind.Node) → IsClosed nodes state.old → ScopeFits nodes state.old.heap.cells scope → Lasts nodes state.old state.new result }
{
    let inner = copy_scope(state.alloc, &scope)?;
    let frame = StatementFrame::WhileTest { test, body, scope };
    state.enter(statement(frame), test, inner)
}

/// A `while` (ECMA-262, 14.7.3).
#[tactic(auto, unfolding(js_semantics::specs::Statements::row_while))]
pub fn row_while(
    state: &mut State,
    test: NodeId,
    body: NodeId,
    scope: Scope,
) -> Result<Next, StepFault>
    ensures does { (nodes : List kind.Node) → IfOk result (λ next. Does nodes 6 (row_while test body scope) state.old state.new next) }
    ensures closed { (nodes : List kind.Node) → IsClosed nodes state.old → ScopeFits nodes state.old.heap.cells scope → Lasts nodes state.old state.new result }
{
    enter_while(state, test, body, scope)
}

/// What follows the test of a `while`.
pub fn while_tested(
    state: &mut State,
    test: NodeId,
    body: NodeId,
    scope: Scope,
    value: Value,
) -> Result<Next, StepFault>
    ensures does { (nodes : List kind.Node) → IfOk result (λ next. Does nodes 6 (statement_rest nodes (StatementFrame.WhileTest test body scope) value) state.old state.new next) }
    ensures closed { (nodes : List kind.Node) → IsClosed nodes state.old → ScopeFits nodes state.old.heap.cells scope → ValueFits state.old.heap.cells value → Lasts nodes state.old state.new result }
{
    if is_truthy(&value) {
        let inner = copy_scope(state.alloc, &scope)?;
        state.enter(Frame::WhileBody { test, body, scope }, body, inner)
    } else {
        done(state)
    }
}

/// What follows the body of a `while`.
pub fn while_body_end(
    state: &mut State,
    test: NodeId,
    body: NodeId,
    scope: Scope,
    outcome: Outcome,
) -> Result<Next, StepFault>
    ensures does { (nodes : List kind.Node) → IfOk result (λ next. Does nodes 6 (rest nodes (Frame.WhileBody test body scope) outcome) state.old state.new next) }
    ensures closed { (nodes : List kind.Node) → IsClosed nodes state.old → ScopeFits nodes state.old.heap.cells scope → OutcomeFits nodes state.old.heap.cells outcome → Lasts nodes state.old state.new result }
{
    match outcome {
        Outcome::Normal(_) | Outcome::Continue => enter_while(state, test, body, scope),
        Outcome::Break => done(state),
        Outcome::Return(value) => state.give(Outcome::Return(value)),
        Outcome::Thrown(value) => state.give(Outcome::Thrown(value)),
    }
}

// A turn of a `do`, from its body on.
fn enter_do(state: &mut State, body: NodeId, test: NodeId, scope: Scope) -> Result<Next, StepFault>
    ensures does { (nodes : List kind.Node) → IfOk result (λ next. Does nodes 6 (Enter (DoWhile body test scope) (λ o. End o)) state.old state.new next) }
    ensures closed { (nodes : List kind.Node) → IsClosed nodes state.old → ScopeFits nodes state.old.heap.cells scope → Lasts nodes state.old state.new result }
{
    let inner = copy_scope(state.alloc, &scope)?;
    state.enter(Frame::DoBody { body, test, scope }, body, inner)
}

/// A `do` (ECMA-262, 14.7.2).
#[tactic(auto, unfolding(js_semantics::specs::Statements::row_do_while))]
pub fn row_do_while(
    state: &mut State,
    body: NodeId,
    test: NodeId,
    scope: Scope,
) -> Result<Next, StepFault>
    ensures does { (nodes : List kind.Node) → IfOk result (λ next. Does nodes 6 (row_do_while body test scope) state.old state.new next) }
    ensures closed { (nodes : List kind.Node) → IsClosed nodes state.old → ScopeFits nodes state.old.heap.cells scope → Lasts nodes state.old state.new result }
{
    enter_do(state, body, test, scope)
}

// The test of a `do`.
fn test_do(state: &mut State, body: NodeId, test: NodeId, scope: Scope) -> Result<Next, StepFault>
    ensures does { (nodes : List kind.Node) → IfOk result (λ next. Does nodes 6 (rest nodes (Frame.DoBody body test scope) Outcome.Continue) state.old state.new next) }
    ensures closed { (nodes : List kind.Node) → IsClosed nodes state.old → ScopeFits nodes state.old.heap.cells scope → Lasts nodes state.old state.new result }
{
    let inner = copy_scope(state.alloc, &scope)?;
    let frame = StatementFrame::DoTest { body, test, scope };
    state.enter(statement(frame), test, inner)
}

/// What follows the body of a `do`.
pub fn do_body_end(
    state: &mut State,
    body: NodeId,
    test: NodeId,
    scope: Scope,
    outcome: Outcome,
) -> Result<Next, StepFault>
    ensures does { (nodes : List kind.Node) → IfOk result (λ next. Does nodes 6 (rest nodes (Frame.DoBody body test scope) outcome) state.old state.new next) }
    ensures closed { (nodes : List kind.Node) → IsClosed nodes state.old → ScopeFits nodes state.old.heap.cells scope → OutcomeFits nodes state.old.heap.cells outcome → Lasts nodes state.old state.new result }
{
    match outcome {
        Outcome::Normal(_) | Outcome::Continue => test_do(state, body, test, scope),
        Outcome::Break => done(state),
        Outcome::Return(value) => state.give(Outcome::Return(value)),
        Outcome::Thrown(value) => state.give(Outcome::Thrown(value)),
    }
}

/// What follows the test of a `do`.
pub fn do_tested(
    state: &mut State,
    body: NodeId,
    test: NodeId,
    scope: Scope,
    value: Value,
) -> Result<Next, StepFault>
    ensures does { (nodes : List kind.Node) → IfOk result (λ next. Does nodes 6 (statement_rest nodes (StatementFrame.DoTest body test scope) value) state.old state.new next) }
    ensures closed { (nodes : List kind.Node) → IsClosed nodes state.old → ScopeFits nodes state.old.heap.cells scope → ValueFits state.old.heap.cells value → Lasts nodes state.old state.new result }
{
    if is_truthy(&value) {
        enter_do(state, body, test, scope)
    } else {
        done(state)
    }
}

/// A turn of a `for`: its test, or its body where it has no test.
#[inline(always)]
pub fn enter_for(state: &mut State, turn: ForLoop, scope: Scope) -> Result<Next, StepFault>
    ensures does { (nodes : List kind.Node) → IfOk result (λ next. Does nodes 6 (Enter (For turn.copied turn.test turn.next turn.body scope) (λ o. End o)) state.old state.new next) }
    ensures closed { (nodes : List kind.Node) → IsClosed nodes state.old → ScopeFits nodes state.old.heap.cells scope → Lasts nodes state.old state.new result }
{
    let inner = copy_scope(state.alloc, &scope)?;
    match turn.test {
        Some(test) => state.enter(
            statement(StatementFrame::ForTest { turn, scope }),
            test,
            inner,
        ),
        None => state.enter(Frame::ForBody { turn, scope }, turn.body, inner),
    }
}

/// What follows the test of a `for`.
#[inline(always)]
pub fn for_tested(
    state: &mut State,
    turn: ForLoop,
    scope: Scope,
    value: Value,
) -> Result<Next, StepFault>
    ensures does { (nodes : List kind.Node) → IfOk result (λ next. Does nodes 6 (statement_rest nodes (StatementFrame.ForTest turn scope) value) state.old state.new next) }
    ensures closed { (nodes : List kind.Node) → IsClosed nodes state.old → ScopeFits nodes state.old.heap.cells scope → ValueFits state.old.heap.cells value → Lasts nodes state.old state.new result }
{
    if is_truthy(&value) {
        let inner = copy_scope(state.alloc, &scope)?;
        state.enter(Frame::ForBody { turn, scope }, turn.body, inner)
    } else {
        done(state)
    }
}

/// What stands third in a `for`, where it is to be done, and then the next turn.
#[inline(always)]
pub fn step_then(
    state: &mut State,
    turn: ForLoop,
    then: Option<NodeId>,
    scope: Scope,
) -> Result<Next, StepFault>
    ensures does { (nodes : List kind.Node) → IfOk result (λ next. Does nodes 6 (run_next then scope (Enter (For turn.copied turn.test turn.next turn.body scope) (λ o. End o))) state.old state.new next) }
    ensures closed { (nodes : List kind.Node) → IsClosed nodes state.old → ScopeFits nodes state.old.heap.cells scope → Lasts nodes state.old state.new result }
{
    match then {
        Some(node) => {
            let inner = copy_scope(state.alloc, &scope)?;
            state.enter(
                statement(StatementFrame::ForNext { turn, scope }),
                node,
                inner,
            )
        }
        None => enter_for(state, turn, scope),
    }
}
