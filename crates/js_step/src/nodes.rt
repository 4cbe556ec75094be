//! Which function makes the row of a node, by its kind.
ghost use Rattle.std.specs.Prelude.{◌≡◌, Some, slice_get, IfOk};
ghost use Rattle.js_names.specs.Patterns.{nodes_of};
ghost use Rattle.js_semantics.specs.Prog.{Node as NodeRequest};
ghost use Rattle.js_semantics.specs.Rows.{row, row_of};
ghost use Rattle.js_machine.specs.Closed.{IsClosed, Lasts, ScopeFits};
ghost use Rattle.js_machine.specs.Does.{Does};

use crate::operands::row_operand;
use crate::operators::row_operator;
use crate::statements::row_statement;
use js_machine::{Next, State, discard, done, node_at};
use js_semantics::{Scope, StepFault};
use js_step_block::row_block;
use js_tree::{Node, NodeId, Tree};

// The row of a node that stands in the tree.
#[tactic(auto, unfolding(js_semantics::specs::Rows::row_of))]
fn row_kind(
    state: &mut State,
    tree: &Tree,
    node: &Node,
    id: NodeId,
    scope: Scope,
) -> Result<Next, StepFault>
    requires { slice_get (nodes_of tree.now) id.0 ≡ Some node.now }
    ensures does { IfOk result (λ next. Does (nodes_of tree.now) 6 (row_of (Some node.now) id scope) state.old state.new next) }
    ensures closed { IsClosed (nodes_of tree.now) state.old → ScopeFits (nodes_of tree.now) state.old.heap.cells scope → Lasts (nodes_of tree.now) state.old state.new result }
{
    match node {
        Node::Block(_) => row_block(state, tree, id, scope),
        Node::Let(_)
        | Node::Const(_)
        | Node::FunDecl { .. }
        | Node::If { .. }
        | Node::While { .. }
        | Node::DoWhile { .. }
        | Node::For { .. }
        | Node::ForOf { .. }
        | Node::Return(_)
        | Node::Break
        | Node::Continue
        | Node::Throw(_)
        | Node::Try { .. }
        | Node::Empty
        | Node::ExprStmt(_) => row_statement(state, tree, node, id, scope),
        Node::Seq { .. }
        | Node::Cond { .. }
        | Node::And { .. }
        | Node::Or { .. }
        | Node::Nullish { .. }
        | Node::Assign { .. }
        | Node::AssignOp { .. }
        | Node::Update { .. }
        | Node::Binary { .. }
        | Node::Unary { .. }
        | Node::Typeof(_)
        | Node::Delete(_) => row_operator(state, tree, node, id, scope),
        Node::Name(_)
        | Node::This
        | Node::Null
        | Node::Bool(_)
        | Node::Num(_)
        | Node::Str(_)
        | Node::Template { .. }
        | Node::ArrayLit(_)
        | Node::ObjectLit(_)
        | Node::Fun { .. }
        | Node::Arrow(_)
        | Node::Dot { .. }
        | Node::Index { .. }
        | Node::Call { .. }
        | Node::New { .. } => row_operand(state, tree, node, id, scope),
        _ => {
            discard(scope);
            done(state)
        }
    }
}

/// The row of the node with a number. Patterns, members and spreads have none of their own here, nor has a number that
/// no node has: the row ends.
pub(crate) fn row_node(
    state: &mut State,
    tree: &Tree,
    id: NodeId,
    scope: Scope,
) -> Result<Next, StepFault>
    ensures does { IfOk result (λ next. Does (nodes_of tree.now) 6 (row (NodeRequest id scope)) state.old state.new next) }
    ensures closed { IsClosed (nodes_of tree.now) state.old → ScopeFits (nodes_of tree.now) state.old.heap.cells scope → Lasts (nodes_of tree.now) state.old state.new result }
{
    match node_at(tree, id) {
        Some(node) => row_kind(state, tree, node, id, scope),
        None => {
            discard(scope);
            done(state)
        }
    }
}
