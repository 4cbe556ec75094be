//! Operators between two operands (ECMA-262, 13.6 to 13.12), which are evaluated in place where their values are at hand.
ghost use Rattle.std.specs.Prelude.{IfOk};
ghost use Rattle.js_names.specs.Patterns.{nodes_of};
ghost use Rattle.js_semantics.specs.Expressions.{row_binary};
ghost use Rattle.js_machine.specs.Closed.{IsClosed, Lasts, ScopeFits, ValueFits};
ghost use Rattle.js_machine.specs.Does.{Does};
ghost use Rattle.js_machine.specs.Frames.{operand_rest};

use crate::instance::instance_of;
use js_machine::{Next, OperandFrame, State, discard};
use js_primary::{Taken, take_value};
use js_semantics::{Scope, StepFault};
use js_step_expr::{binary_right, enter_operand};
use js_tree::{BinaryOperator, NodeId, Tree};
use world_heap::Value;

// The operator with the values of both operands.
fn both_operands(
    state: &mut State,
    tree: &Tree,
    operator: BinaryOperator,
    left: Value,
    right: Value,
) -> Result<Next, StepFault>
    ensures does { IfOk result (λ next. Does (nodes_of tree.now) 6 (operand_rest (nodes_of tree.now) (OperandFrame.BinaryRight operator left) right) state.old state.new next) }
    ensures closed { IsClosed (nodes_of tree.now) state.old → ValueFits state.old.heap.cells left → ValueFits state.old.heap.cells right → Lasts (nodes_of tree.now) state.old state.new result }
{
    match operator {
        BinaryOperator::InstanceOf => instance_of(state, tree, left, right, None),
        other => binary_right(state, other, left, right),
    }
}

/// The operator with the value of its left operand: the right one is evaluated in place, or entered.
pub(crate) fn right_operand(
    state: &mut State,
    tree: &Tree,
    operator: BinaryOperator,
    right: NodeId,
    scope: Scope,
    left: Value,
) -> Result<Next, StepFault>
    ensures does { IfOk result (λ next. Does (nodes_of tree.now) 6 (operand_rest (nodes_of tree.now) (OperandFrame.BinaryLeft operator right scope) left) state.old state.new next) }
    ensures closed { IsClosed (nodes_of tree.now) state.old → ScopeFits (nodes_of tree.now) state.old.heap.cells scope → ValueFits state.old.heap.cells left → Lasts (nodes_of tree.now) state.old state.new result }
{
    match take_value(state, tree, right, &scope)? {
        Taken::Value(value) => {
            discard(scope);
            both_operands(state, tree, operator, left, value)
        }
        Taken::Ended(next) => {
            discard(left);
            discard(scope);
            Ok(next)
        }
        Taken::Nothing => {
            let frame = OperandFrame::BinaryRight { operator, left };
            enter_operand(state, frame, right, scope)
        }
    }
}

/// An operator between two operands (ECMA-262, 13.6 to 13.12): the left one is evaluated in place, or entered.
#[tactic(auto, unfolding(js_semantics::specs::Expressions::row_binary))]
pub fn row_binary(
    state: &mut State,
    tree: &Tree,
    operator: BinaryOperator,
    left: NodeId,
    right: NodeId,
    scope: Scope,
) -> Result<Next, StepFault>
    ensures does { IfOk result (λ next. Does (nodes_of tree.now) 6 (row_binary operator left right scope) state.old state.new next) }
    ensures closed { IsClosed (nodes_of tree.now) state.old → ScopeFits (nodes_of tree.now) state.old.heap.cells scope → Lasts (nodes_of tree.now) state.old state.new result }
{
    match take_value(state, tree, left, &scope)? {
        Taken::Value(value) => right_operand(state, tree, operator, right, scope, value),
        Taken::Ended(next) => {
            discard(scope);
            Ok(next)
        }
        Taken::Nothing => js_step_expr::row_binary(state, operator, left, right, scope),
    }
}
