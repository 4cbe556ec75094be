//! Operators between two operands (ECMA-262, 13.6 to 13.12).
ghost use Rattle.std.specs.Prelude.{◌≡◌, ◌≢◌, ℕ, List, IfOk, MatchResult};
ghost use Rattle.world_heap.specs.declared.value.Value as values;
ghost use Rattle.js_tree.specs.declared.node.Node as kind;
ghost use Rattle.js_semantics.specs.Prog.{Prog};
ghost use Rattle.js_semantics.specs.Expressions.{apply, compute, row_binary};
ghost use Rattle.js_operators.specs.Answers.{computed_of};
ghost use Rattle.js_machine.specs.Does.{Does, Moves};
ghost use Rattle.js_machine.specs.Frames.{operand_rest};
ghost use Rattle.js_step_expr.specs.Settling.{Settles};
ghost use Rattle.js_machine.specs.Closed.{IsClosed, Lasts, ScopeFits, ValueFits};
ghost use Rattle.js_step_expr.specs.Fitting.{AnswerFits, LastsWith, SettledFits};

use crate::entering::enter_operand;
use crate::membership::membership;
use crate::settling::{finish, settle};
use js_machine::{Next, OperandFrame, State, copy_scope};
use js_operators::{Answer, of_operands, strictly_equal};
use js_semantics::{Scope, StepFault};
use js_tree::{BinaryOperator, NodeId};
use world_heap::Value;

/// An operator between two operands (ECMA-262, 13.6 to 13.12): enters the left one.
#[tactic(auto, unfolding(js_semantics::specs::Expressions::row_binary))]
pub fn row_binary(
    state: &mut State,
    operator: BinaryOperator,
    left: NodeId,
    right: NodeId,
    scope: Scope,
) -> Result<Next, StepFault>
    ensures does { (nodes : List kind.Node) → IfOk result (λ next. Does nodes 6 (row_binary operator left right scope) state.old state.new next) }
    ensures closed { (nodes : List kind.Node) → IsClosed nodes state.old → ScopeFits nodes state.old.heap.cells scope → Lasts nodes state.old state.new result }
{
    let inner = copy_scope(state.alloc, &scope)?;
    let frame = OperandFrame::BinaryLeft {
        operator,
        right,
        scope,
    };
    enter_operand(state, frame, left, inner)
}

/// The operator with the value of its left operand: enters the right one.
pub fn binary_left(
    state: &mut State,
    operator: BinaryOperator,
    right: NodeId,
    scope: Scope,
    left: Value,
) -> Result<Next, StepFault>
    ensures does { (nodes : List kind.Node) → IfOk result (λ next. Does nodes 6 (operand_rest nodes (OperandFrame.BinaryLeft operator right scope) left) state.old state.new next) }
    ensures closed { (nodes : List kind.Node) → IsClosed nodes state.old → ScopeFits nodes state.old.heap.cells scope → ValueFits state.old.heap.cells left → Lasts nodes state.old state.new result }
{
    enter_operand(
        state,
        OperandFrame::BinaryRight { operator, left },
        right,
        scope,
    )
}

// What an operator comes to on two values, where it reads no property.
#[inline(always)]
fn answer_of(
    state: &State,
    operator: BinaryOperator,
    left: &Value,
    right: &Value,
) -> Result<Answer, StepFault>
    requires { operator ≢ BinaryOperator.InstanceOf }
    ensures is { (nodes : List kind.Node) (k : values.Value ℕ → Prog ℕ) → IfOk result (λ answer. Moves nodes (apply operator left.now right.now k) state.now (compute (computed_of answer) k) state.now) }
    ensures closed { ValueFits state.now.heap.cells left.now → ValueFits state.now.heap.cells right.now → MatchResult result (λ answer. AnswerFits state.now.heap.cells answer) (λ fault. fault ≡ StepFault.Memory) }
{
    match operator {
        BinaryOperator::In => Ok(membership(state.alloc, &state.heap, left, right)?),
        BinaryOperator::StrictEqual => Ok(Answer::Is(Value::Bool(strictly_equal(left, right)))),
        BinaryOperator::StrictNotEqual => {
            Ok(Answer::Is(Value::Bool(!strictly_equal(left, right))))
        }
        other => Ok(of_operands(state.alloc, other, left, right)?),
    }
}

/// What an operator gives for two values (ECMA-262, 13.6 to 13.12), or the end of the step. `instanceof` is none of these
/// operators, since it reads a property.
///
/// # Errors
/// `Memory` where there is none; `Dangling` where the right side of `in` is at a location that stands nowhere, or the
/// prototype of errors does.
#[inline(always)]
pub fn apply(
    state: &mut State,
    operator: BinaryOperator,
    left: &Value,
    right: &Value,
) -> Result<Result<Value, Next>, StepFault>
    requires { operator ≢ BinaryOperator.InstanceOf }
    ensures does { (nodes : List kind.Node) (k : values.Value ℕ → Prog ℕ) → IfOk result (λ settled. Settles nodes (apply operator left.now right.now k) k state.old state.new settled) }
    ensures closed { (nodes : List kind.Node) → IsClosed nodes state.old → ValueFits state.old.heap.cells left.now → ValueFits state.old.heap.cells right.now → LastsWith SettledFits nodes state.old state.new result }
{
    let answer = answer_of(state, operator, left, right)?;
    settle(state, answer)
}

/// The operator with the values of both operands: gives what it comes to.
///
/// # Errors
/// As those of `apply`.
pub fn binary_right(
    state: &mut State,
    operator: BinaryOperator,
    left: Value,
    right: Value,
) -> Result<Next, StepFault>
    requires { operator ≢ BinaryOperator.InstanceOf }
    ensures does { (nodes : List kind.Node) → IfOk result (λ next. Does nodes 6 (operand_rest nodes (OperandFrame.BinaryRight operator left) right) state.old state.new next) }
    ensures closed { (nodes : List kind.Node) → IsClosed nodes state.old → ValueFits state.old.heap.cells left → ValueFits state.old.heap.cells right → Lasts nodes state.old state.new result }
{
    let answer = answer_of(state, operator, &left, &right)?;
    finish(state, answer)
}
