//! Which function makes the row of a statement, and what is left of one.
ghost use Rattle.std.specs.Prelude.{◌≡◌, true, false, Some, slice_get, IfOk};
ghost use Rattle.js_names.specs.Patterns.{nodes_of};
ghost use Rattle.js_semantics.specs.Rows.{row_of};
ghost use Rattle.js_machine.specs.Does.{Does};
ghost use Rattle.js_machine.specs.Frames.{statement_rest};
ghost use Rattle.js_step_stmt.specs.Choices.{is_statement, walks_list};
ghost use Rattle.js_machine.specs.declared.frame.Frame.TheVariants.{OnValue};
ghost use Rattle.js_machine.specs.declared.frame.ValueFrame.TheVariants.{Statement};
ghost use Rattle.js_machine.specs.Closed.{FrameFits, IsClosed, Lasts, ScopeFits, ValueFits};

use crate::attempt::row_try;
use crate::declaration::{declare_pairs, declared_value};
use crate::items::run_items;
use crate::iteration::{Walk, of_bound, row_for_of};
use crate::loops::{do_tested, enter_for, for_tested, row_do_while, row_while, while_tested};
use crate::simple::{
    expression_end, if_end, return_end, row_expression, row_if, row_return, row_throw, throw_end,
};
use crate::turns::{for_start, row_for};
use js_machine::{Next, State, StatementFrame, done};
use js_semantics::{Outcome, Scope, StepFault};
use js_tree::{Node, NodeId, Tree};
use world_heap::Value;

/// What is left of a statement's row, once what it evaluates has a value. The frame isn't that of the list of a `for`,
/// for which an array is made elsewhere.
pub fn statement_end(
    state: &mut State,
    tree: &Tree,
    frame: StatementFrame,
    value: Value,
) -> Result<Next, StepFault>
    requires { walks_list frame ≡ false }
    ensures does { IfOk result (λ next. Does (nodes_of tree.now) 6 (statement_rest (nodes_of tree.now) frame value) state.old state.new next) }
    ensures closed { IsClosed (nodes_of tree.now) state.old → FrameFits (nodes_of tree.now) state.old.heap.cells (OnValue (Statement frame)) → ValueFits state.old.heap.cells value → Lasts (nodes_of tree.now) state.old state.new result }
{
    match frame {
        StatementFrame::Item { node, next, scope } => run_items(state, tree, node, next, scope),
        StatementFrame::DeclaredValue { node, at, scope } => {
            declared_value(state, tree, node, at, scope, value)
        }
        StatementFrame::Declared { node, next, scope } => {
            declare_pairs(state, tree, node, next, scope)
        }
        StatementFrame::Expression => expression_end(state, value),
        StatementFrame::If {
            first,
            second,
            scope,
        } => if_end(state, first, second, scope, value),
        StatementFrame::Return => return_end(state, value),
        StatementFrame::Throw => throw_end(state, value),
        StatementFrame::WhileTest { test, body, scope } => {
            while_tested(state, test, body, scope, value)
        }
        StatementFrame::DoTest { body, test, scope } => do_tested(state, body, test, scope, value),
        StatementFrame::ForFirst { turn, scope } => for_start(state, turn, scope),
        StatementFrame::ForTest { turn, scope } => for_tested(state, turn, scope, value),
        StatementFrame::ForNext { turn, scope } => enter_for(state, turn, scope),
        StatementFrame::ForOfList { .. } => unreachable!(),
        StatementFrame::ForOfBound {
            constant,
            bind,
            body,
            array,
            place,
            turn,
            around,
        } => {
            let walk = Walk {
                constant,
                bind,
                body,
                array,
            };
            of_bound(state, walk, place, turn, around, value)
        }
        StatementFrame::HandlerBound { handler, scope } => state.jump(handler, scope),
    }
}

/// The row of a statement that is no block.
#[tactic(auto, unfolding(js_semantics::specs::Rows::row_of))]
pub fn row_statement(
    state: &mut State,
    tree: &Tree,
    node: &Node,
    id: NodeId,
    scope: Scope,
) -> Result<Next, StepFault>
    requires stands { slice_get (nodes_of tree.now) id.0 ≡ Some node.now }
    requires kind { is_statement node.now ≡ true }
    ensures does { IfOk result (λ next. Does (nodes_of tree.now) 6 (row_of (Some node.now) id scope) state.old state.new next) }
    ensures closed { IsClosed (nodes_of tree.now) state.old → ScopeFits (nodes_of tree.now) state.old.heap.cells scope → Lasts (nodes_of tree.now) state.old state.new result }
{
    match node {
        Node::Let(_) => declare_pairs(state, tree, id, 0, scope),
        Node::Const(_) => declare_pairs(state, tree, id, 0, scope),
        Node::FunDecl { .. } => done(state),
        Node::If { test, yes, no } => row_if(state, *test, *yes, *no, scope),
        Node::While { test, body } => row_while(state, *test, *body, scope),
        Node::DoWhile { body, test } => row_do_while(state, *body, *test, scope),
        Node::For {
            first,
            test,
            next,
            body,
        } => row_for(state, tree, *first, *test, *next, *body, scope),
        Node::ForOf {
            constant,
            bind,
            list,
            body,
        } => row_for_of(state, *constant, *bind, *list, *body, scope),
        Node::Return(value) => row_return(state, *value, scope),
        Node::Break => state.give(Outcome::Break),
        Node::Continue => state.give(Outcome::Continue),
        Node::Throw(value) => row_throw(state, *value, scope),
        Node::Try {
            block,
            bind,
            handler,
            last,
        } => row_try(state, *block, *bind, *handler, *last, scope),
        Node::Empty => done(state),
        Node::ExprStmt(value) => row_expression(state, *value, scope),
        _ => unreachable!(),
    }
}
