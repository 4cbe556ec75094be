//! Which function makes the row of an operator or an assignment.
ghost use Rattle.std.specs.Prelude.{◌≡◌, true, Some, IfOk};
ghost use Rattle.js_names.specs.Patterns.{nodes_of};
ghost use Rattle.js_semantics.specs.Rows.{row_of};
ghost use Rattle.js_machine.specs.Closed.{IsClosed, Lasts, ScopeFits};
ghost use Rattle.js_machine.specs.Does.{Does};
ghost use Rattle.js_step.specs.Kinds.{is_operator};

use js_machine::{Next, State};
use js_semantics::{Scope, StepFault};
use js_step_access::{row_assign, row_assign_with, row_binary, row_typeof, row_update};
use js_step_expr::{row_and, row_cond, row_delete, row_nullish, row_or, row_seq, row_unary};
use js_tree::{Node, NodeId, Tree};

/// The row of an operator with its operands, or of an assignment (ECMA-262, 13.4 to 13.16).
#[tactic(auto, unfolding(js_semantics::specs::Rows::row_of))]
#[inline(always)]
pub(crate) fn row_operator(
    state: &mut State,
    tree: &Tree,
    node: &Node,
    id: NodeId,
    scope: Scope,
) -> Result<Next, StepFault>
    requires { is_operator node.now ≡ true }
    ensures does { IfOk result (λ next. Does (nodes_of tree.now) 6 (row_of (Some node.now) id scope) state.old state.new next) }
    ensures closed { IsClosed (nodes_of tree.now) state.old → ScopeFits (nodes_of tree.now) state.old.heap.cells scope → Lasts (nodes_of tree.now) state.old state.new result }
{
    match node {
        Node::Seq { first, second } => row_seq(state, *first, *second, scope),
        Node::Cond { test, yes, no } => row_cond(state, *test, *yes, *no, scope),
        Node::And { left, right } => row_and(state, *left, *right, scope),
        Node::Or { left, right } => row_or(state, *left, *right, scope),
        Node::Nullish { left, right } => row_nullish(state, *left, *right, scope),
        Node::Assign { target, value } => row_assign(state, tree, *target, *value, scope),
        Node::AssignOp {
            operator,
            target,
            value,
        } => row_assign_with(state, tree, *operator, *target, *value, scope),
        Node::Update {
            operator,
            target,
            before,
        } => row_update(state, tree, *operator, *target, *before, scope),
        Node::Binary {
            operator,
            left,
            right,
        } => row_binary(state, tree, *operator, *left, *right, scope),
        Node::Unary { operator, operand } => row_unary(state, *operator, *operand, scope),
        Node::Typeof(operand) => row_typeof(state, tree, *operand, scope),
        Node::Delete(operand) => row_delete(state, tree, *operand, scope),
        _ => unreachable!(),
    }
}
