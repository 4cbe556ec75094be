//! Operators before one operand, and `++` and `--` (ECMA-262, 13.4 and 13.5).
ghost use Rattle.std.specs.Prelude.{◌≡◌, negsuc, MatchOption};
ghost use Rattle.world_heap.specs.declared.value.Value.TheVariants.{Num};
ghost use Rattle.js_tree.specs.declared.node.UnaryOperator.TheVariants.{Minus};
ghost use Rattle.js_semantics.specs.Operators.{whole, of_number, unary_of};
ghost use Rattle.js_semantics.specs.Expressions.{moved_by};
ghost use Rattle.js_operators.specs.Answers.{computed_of};

use crate::answer::Answer;
use crate::bits::to_unsigned;
use crate::convert::is_truthy;
use crate::numbers::{difference, of_bits, sum};
use js_semantics::Fault;
use js_tree::{UnaryOperator, UpdateOperator};
use world_heap::Value;

/// The number after `++` or `--`, or the error `NotAWholeNumber` where it isn't from -(2^53-1) to 2^53-1.
pub fn moved(operator: UpdateOperator, number: i64) -> Answer
    ensures { computed_of result ≡ whole (moved_by operator number) }
{
    match operator {
        UpdateOperator::Increment => sum(number, 1),
        UpdateOperator::Decrement => difference(number, 1),
    }
}

// `-` on a number; there is no negative of -2^63 among the numbers of 64 bits.
fn negated(number: i64) -> Option<Answer>
    ensures { MatchOption result (number ≡ negsuc 9_223_372_036_854_775_807) (λ answer. computed_of answer ≡ of_number Minus number) }
{
    match number.checked_neg() {
        Some(negative) => Some(Answer::Is(Value::Num(negative))),
        None => None,
    }
}

/// What an operator before its operand comes to: `!` and `void` take any value, and `+`, `-` and `~` a number; another
/// operand is the error `WrongOperand`.
///
/// None exactly for `-` before -2^63, which is no number of a script: they lie from -(2^53-1) to 2^53-1.
#[tactic(auto, unfolding(js_semantics::specs::Operators::unary_of))]
pub fn unary_of(operator: UnaryOperator, operand: &Value) -> Option<Answer>
    ensures { MatchOption result ((operator ≡ Minus) × (operand.now ≡ Num (negsuc 9_223_372_036_854_775_807))) (λ answer. computed_of answer ≡ unary_of operator operand.now) }
{
    match operator {
        UnaryOperator::Not => Some(Answer::Is(Value::Bool(!is_truthy(operand)))),
        UnaryOperator::Void => Some(Answer::Is(Value::Undefined)),
        UnaryOperator::Plus => match operand {
            Value::Num(number) => Some(Answer::Is(Value::Num(*number))),
            _ => Some(Answer::Fails(Fault::WrongOperand)),
        },
        UnaryOperator::Minus => match operand {
            Value::Num(number) => negated(*number),
            _ => Some(Answer::Fails(Fault::WrongOperand)),
        },
        UnaryOperator::BitNot => match operand {
            Value::Num(number) => Some(of_bits(!to_unsigned(*number))),
            _ => Some(Answer::Fails(Fault::WrongOperand)),
        },
    }
}
