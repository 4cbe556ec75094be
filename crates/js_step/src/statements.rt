//! Statements whose one operand is evaluated in place where its value is at hand (ECMA-262, 14.6, 14.7, 14.10 and 14.14):
//! what follows it is done at once, without a frame.
ghost use Rattle.std.specs.Prelude.{◌≡◌, true, Some, slice_get, IfOk};
ghost use Rattle.js_names.specs.Patterns.{nodes_of};
ghost use Rattle.js_semantics.specs.Prog.{End, Enter, For};
ghost use Rattle.js_semantics.specs.Rows.{row_of};
ghost use Rattle.js_semantics.specs.Statements.{row_if, row_return, row_throw, row_while};
ghost use Rattle.js_machine.specs.Closed.{IsClosed, Lasts, OutcomeFits, ScopeFits};
ghost use Rattle.js_machine.specs.Does.{Does};
ghost use Rattle.js_machine.specs.Frames.{rest};
ghost use Rattle.js_step_stmt.specs.Choices.{is_statement};

use js_machine::{ForLoop, Frame, Next, State, discard};
use js_primary::{Taken, take_value};
use js_semantics::{Outcome, Scope, StepFault};
use js_step_stmt::{enter_for, for_tested, if_end, return_end, throw_end, while_tested};
use js_tree::{Node, NodeId, Tree};

// A `return` (ECMA-262, 14.10): its value is evaluated in place, or entered.
#[tactic(auto, unfolding(js_semantics::specs::Statements::row_return))]
fn row_return(
    state: &mut State,
    tree: &Tree,
    value: Option<NodeId>,
    scope: Scope,
) -> Result<Next, StepFault>
    ensures does { IfOk result (λ next. Does (nodes_of tree.now) 6 (row_return value scope) state.old state.new next) }
    ensures closed { IsClosed (nodes_of tree.now) state.old → ScopeFits (nodes_of tree.now) state.old.heap.cells scope → Lasts (nodes_of tree.now) state.old state.new result }
{
    match value {
        Some(operand) => match take_value(state, tree, operand, &scope)? {
            Taken::Value(given) => {
                discard(scope);
                return_end(state, given)
            }
            Taken::Ended(next) => {
                discard(scope);
                Ok(next)
            }
            Taken::Nothing => js_step_stmt::row_return(state, Some(operand), scope),
        },
        None => js_step_stmt::row_return(state, None, scope),
    }
}

// A `throw` (ECMA-262, 14.14): its value is evaluated in place, or entered.
#[tactic(auto, unfolding(js_semantics::specs::Statements::row_throw))]
fn row_throw(state: &mut State, tree: &Tree, value: NodeId, scope: Scope) -> Result<Next, StepFault>
    ensures does { IfOk result (λ next. Does (nodes_of tree.now) 6 (row_throw value scope) state.old state.new next) }
    ensures closed { IsClosed (nodes_of tree.now) state.old → ScopeFits (nodes_of tree.now) state.old.heap.cells scope → Lasts (nodes_of tree.now) state.old state.new result }
{
    match take_value(state, tree, value, &scope)? {
        Taken::Value(given) => {
            discard(scope);
            throw_end(state, given)
        }
        Taken::Ended(next) => {
            discard(scope);
            Ok(next)
        }
        Taken::Nothing => js_step_stmt::row_throw(state, value, scope),
    }
}

// An `if` (ECMA-262, 14.6): its test is evaluated in place, or entered.
#[tactic(auto, unfolding(js_semantics::specs::Statements::row_if))]
fn row_if(
    state: &mut State,
    tree: &Tree,
    test: NodeId,
    first: NodeId,
    second: Option<NodeId>,
    scope: Scope,
) -> Result<Next, StepFault>
    ensures does { IfOk result (λ next. Does (nodes_of tree.now) 6 (row_if test first second scope) state.old state.new next) }
    ensures closed { IsClosed (nodes_of tree.now) state.old → ScopeFits (nodes_of tree.now) state.old.heap.cells scope → Lasts (nodes_of tree.now) state.old state.new result }
{
    match take_value(state, tree, test, &scope)? {
        Taken::Value(value) => if_end(state, first, second, scope, value),
        Taken::Ended(next) => {
            discard(scope);
            Ok(next)
        }
        Taken::Nothing => js_step_stmt::row_if(state, test, first, second, scope),
    }
}

// A `while`, or a turn more of one (ECMA-262, 14.7.3): its test is evaluated in place, or entered.
#[tactic(auto, unfolding(js_semantics::specs::Statements::row_while))]
fn row_while(
    state: &mut State,
    tree: &Tree,
    test: NodeId,
    body: NodeId,
    scope: Scope,
) -> Result<Next, StepFault>
    ensures does { IfOk result (λ next. Does (nodes_of tree.now) 6 (row_while test body scope) state.old state.new next) }
    ensures closed { IsClosed (nodes_of tree.now) state.old → ScopeFits (nodes_of tree.now) state.old.heap.cells scope → Lasts (nodes_of tree.now) state.old state.new result }
{
    match take_value(state, tree, test, &scope)? {
        Taken::Value(value) => while_tested(state, test, body, scope, value),
        Taken::Ended(next) => {
            discard(scope);
            Ok(next)
        }
        Taken::Nothing => js_step_stmt::row_while(state, test, body, scope),
    }
}

/// The row of a statement that is no block (ECMA-262, 14): the operand of `return`, `throw`, `if` and `while` is evaluated
/// in place where its value is at hand.
#[tactic(auto, unfolding(js_semantics::specs::Rows::row_of))]
pub(crate) fn row_statement(
    state: &mut State,
    tree: &Tree,
    node: &Node,
    id: NodeId,
    scope: Scope,
) -> Result<Next, StepFault>
    requires stands { slice_get (nodes_of tree.now) id.0 ≡ Some node.now }
    requires kind { is_statement node.now ≡ true }
    ensures does { IfOk result (λ next. Does (nodes_of tree.now) 6 (row_of (Some node.now) id scope) state.old state.new next) }
    ensures closed { IsClosed (nodes_of tree.now) state.old → ScopeFits (nodes_of tree.now) state.old.heap.cells scope → Lasts (nodes_of tree.now) state.old state.new result }
{
    match node {
        Node::Return(value) => row_return(state, tree, *value, scope),
        Node::Throw(value) => row_throw(state, tree, *value, scope),
        Node::If { test, yes, no } => row_if(state, tree, *test, *yes, *no, scope),
        Node::While { test, body } => row_while(state, tree, *test, *body, scope),
        _ => js_step_stmt::row_statement(state, tree, node, id, scope),
    }
}

/// What follows the body of a `while` (ECMA-262, 14.7.3): the test of the next turn is evaluated in place where its value
/// is at hand.
#[tactic(auto, unfolding(js_semantics::specs::Statements::row_while))]
pub(crate) fn while_body_end(
    state: &mut State,
    tree: &Tree,
    test: NodeId,
    body: NodeId,
    scope: Scope,
    outcome: Outcome,
) -> Result<Next, StepFault>
    ensures does { IfOk result (λ next. Does (nodes_of tree.now) 6 (rest (nodes_of tree.now) (Frame.WhileBody test body scope) outcome) state.old state.new next) }
    ensures closed { IsClosed (nodes_of tree.now) state.old → ScopeFits (nodes_of tree.now) state.old.heap.cells scope → OutcomeFits (nodes_of tree.now) state.old.heap.cells outcome → Lasts (nodes_of tree.now) state.old state.new result }
{
    match outcome {
        Outcome::Normal(_) | Outcome::Continue => row_while(state, tree, test, body, scope),
        _ => js_step_stmt::while_body_end(state, test, body, scope, outcome),
    }
}

/// The next turn of a `for` (ECMA-262, 14.7.4.3): its test is evaluated in place where its value is at hand.
pub(crate) fn for_turn(
    state: &mut State,
    tree: &Tree,
    turn: ForLoop,
    scope: Scope,
) -> Result<Next, StepFault>
    ensures does { IfOk result (λ next. Does (nodes_of tree.now) 6 (Enter (For turn.copied turn.test turn.next turn.body scope) (λ o. End o)) state.old state.new next) }
    ensures closed { IsClosed (nodes_of tree.now) state.old → ScopeFits (nodes_of tree.now) state.old.heap.cells scope → Lasts (nodes_of tree.now) state.old state.new result }
{
    match turn.test {
        Some(test) => match take_value(state, tree, test, &scope)? {
            Taken::Value(value) => for_tested(state, turn, scope, value),
            Taken::Ended(next) => {
                discard(scope);
                Ok(next)
            }
            Taken::Nothing => enter_for(state, turn, scope),
        },
        None => enter_for(state, turn, scope),
    }
}
