//! Operators before one operand (ECMA-262, 13.5).
ghost use Rattle.std.specs.Prelude.{◌≡◌, List, IfOk};
ghost use Rattle.js_tree.specs.declared.node.Node as kind;
ghost use Rattle.js_semantics.specs.Expressions.{row_unary};
ghost use Rattle.js_machine.specs.Does.{Does};
ghost use Rattle.js_machine.specs.Frames.{operand_rest};
ghost use Rattle.js_machine.specs.Closed.{IsClosed, Lasts, ScopeFits, ValueFits};

use crate::entering::enter_operand;
use crate::settling::finish;
use js_machine::{Next, OperandFrame, State};
use js_operators::unary_of;
use js_semantics::{Scope, StepFault};
use js_tree::{NodeId, UnaryOperator};
use world_heap::Value;

/// An operator before its operand (ECMA-262, 13.5): enters the operand.
#[tactic(auto, unfolding(js_semantics::specs::Expressions::row_unary))]
pub fn row_unary(
    state: &mut State,
    operator: UnaryOperator,
    operand: NodeId,
    scope: Scope,
) -> Result<Next, StepFault>
    ensures does { (nodes : List kind.Node) → IfOk result (λ next. Does nodes 6 (row_unary operator operand scope) state.old state.new next) }
    ensures closed { (nodes : List kind.Node) → IsClosed nodes state.old → ScopeFits nodes state.old.heap.cells scope → Lasts nodes state.old state.new result }
{
    enter_operand(state, OperandFrame::Unary { operator }, operand, scope)
}

/// The operator with the value of its operand: what it comes to.
///
/// # Errors
/// `Memory` where there is none; `Dangling` for `-` before -2^63, which is no number of a script, and where the prototype
/// of errors stands nowhere.
pub fn unary_operand(
    state: &mut State,
    operator: UnaryOperator,
    operand: Value,
) -> Result<Next, StepFault>
    ensures does { (nodes : List kind.Node) → IfOk result (λ next. Does nodes 6 (operand_rest nodes (OperandFrame.Unary operator) operand) state.old state.new next) }
    ensures closed { (nodes : List kind.Node) → IsClosed nodes state.old → ValueFits state.old.heap.cells operand → Lasts nodes state.old state.new result }
{
    match unary_of(operator, &operand) {
        Some(answer) => finish(state, answer),
        None => Err(StepFault::Dangling),
    }
}
