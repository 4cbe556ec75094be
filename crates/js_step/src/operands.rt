//! Which function makes the row of a literal, a function, a property or a call.
ghost use Rattle.std.specs.Prelude.{◌≡◌, true, Some, slice_get, IfOk};
ghost use Rattle.js_names.specs.Patterns.{nodes_of};
ghost use Rattle.js_semantics.specs.Operators.{literal_number};
ghost use Rattle.js_semantics.specs.Rows.{row_of};
ghost use Rattle.js_machine.specs.Closed.{IsClosed, Lasts, ScopeFits};
ghost use Rattle.js_machine.specs.Does.{Does};
ghost use Rattle.js_step.specs.Kinds.{is_operand};

use js_machine::{Next, State};
use js_primary::number_value;
use js_semantics::{Scope, StepFault};
use js_step_access::{row_dot, row_index, row_name};
use js_step_call::{row_call, row_new};
use js_step_expr::{row_literal, row_template, row_text, row_this};
use js_step_object::{row_array, row_arrow, row_fun, row_object};
use js_tree::{Node, NodeId, Tree};
use world_heap::Value;

/// The row of a literal, a name, a function, a property or a call (ECMA-262, 13.2, 13.3 and 15).
#[tactic(auto, unfolding(js_semantics::specs::Rows::row_of))]
pub(crate) fn row_operand(
    state: &mut State,
    tree: &Tree,
    node: &Node,
    id: NodeId,
    scope: Scope,
) -> Result<Next, StepFault>
    requires stands { slice_get (nodes_of tree.now) id.0 ≡ Some node.now }
    requires kind { is_operand node.now ≡ true }
    ensures does { IfOk result (λ next. Does (nodes_of tree.now) 6 (row_of (Some node.now) id scope) state.old state.new next) }
    ensures closed { IsClosed (nodes_of tree.now) state.old → ScopeFits (nodes_of tree.now) state.old.heap.cells scope → Lasts (nodes_of tree.now) state.old state.new result }
{
    match node {
        Node::Name(_) => row_name(state, tree, id, scope),
        Node::This => row_this(state, scope),
        Node::Null => row_literal(state, Value::Null),
        Node::Bool(truth) => row_literal(state, Value::Bool(*truth)),
        Node::Num(number) => row_literal(state, number_value(number)),
        Node::Str(text) => row_text(state, text),
        Node::Template { .. } => row_template(state, tree, id, scope),
        Node::ArrayLit(_) => row_array(state, tree, id, scope),
        Node::ObjectLit(_) => row_object(state, tree, id, scope),
        Node::Fun { name, .. } => row_fun(state, id, name, scope),
        Node::Arrow(_) => row_arrow(state, id, scope),
        Node::Dot { object, .. } => row_dot(state, tree, id, *object, scope),
        Node::Index { object, key } => row_index(state, tree, *object, *key, scope),
        Node::Call { callee, .. } => row_call(state, tree, id, *callee, scope),
        Node::New { callee, .. } => row_new(state, id, *callee, scope),
        _ => unreachable!(),
    }
}
