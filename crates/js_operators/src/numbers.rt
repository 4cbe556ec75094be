//! Operators on two numbers (ECMA-262, 6.1.6.1, over whole numbers).
ghost use Rattle.std.specs.Prelude.{◌≡◌, ◌*◌, ◌/◌, ◌%◌, ◌^◌, ◌+ℤ◌, ◌-ℤ◌, ◌*ℤ◌, pos};
ghost use Rattle.world_heap.specs.declared.value.Value.TheVariants.{Num};
ghost use Rattle.js_semantics.specs.Operators.{Is, whole, quotient, rest_of, of_numbers, signed, to_signed, to_unsigned, halved};
ghost use Rattle.js_operators.specs.Answers.{computed_of};

use crate::answer::Answer;
use crate::bits::{to_signed, to_unsigned};
use js_semantics::Fault;
use js_tree::BinaryOperator;
use world_heap::Value;

/// The greatest whole number of a script, 2^53 - 1; the least is its negative (ECMA-262, 21.1.2.6).
const GREATEST: i64 = 9_007_199_254_740_991;

// A number, where it is one in range.
pub(crate) fn whole(number: i64) -> Answer
    ensures { computed_of result ≡ whole number }
{
    if number < -GREATEST || GREATEST < number {
        return Answer::Fails(Fault::NotAWholeNumber);
    }
    Answer::Is(Value::Num(number))
}

pub(crate) fn sum(left: i64, right: i64) -> Answer
    ensures { computed_of result ≡ whole (left +ℤ right) }
{
    match left.checked_add(right) {
        Some(sum) => whole(sum),
        None => Answer::Fails(Fault::NotAWholeNumber),
    }
}

pub(crate) fn difference(left: i64, right: i64) -> Answer
    ensures { computed_of result ≡ whole (left -ℤ right) }
{
    match left.checked_sub(right) {
        Some(difference) => whole(difference),
        None => Answer::Fails(Fault::NotAWholeNumber),
    }
}

fn product(left: i64, right: i64) -> Answer
    ensures { computed_of result ≡ whole (left *ℤ right) }
{
    match left.checked_mul(right) {
        Some(product) => whole(product),
        None => Answer::Fails(Fault::NotAWholeNumber),
    }
}

// An exact quotient; there is none by zero.
fn quotient(left: i64, right: i64) -> Answer
    ensures { computed_of result ≡ quotient left right }
{
    if right == 0 {
        return Answer::Fails(Fault::NotAWholeNumber);
    }
    if left.wrapping_rem(right) != 0 {
        return Answer::Fails(Fault::NotAWholeNumber);
    }
    match left.checked_div(right) {
        Some(exact) => whole(exact),
        None => Answer::Fails(Fault::NotAWholeNumber),
    }
}

// What is left of a division, with the sign of the dividend.
fn rest(left: i64, right: i64) -> Answer
    ensures { computed_of result ≡ rest_of left right }
{
    if right == 0 {
        return Answer::Fails(Fault::NotAWholeNumber);
    }
    whole(left.wrapping_rem(right))
}

// A number of 32 bits.
pub(crate) fn of_bits(bits: u32) -> Answer
    ensures { computed_of result ≡ signed bits }
{
    Answer::Is(Value::Num(i64::from(to_signed(bits))))
}

// The bits moved to the left; what passes 32 bits is lost.
fn shifted_left(left: i64, right: i64) -> Answer
    ensures { computed_of result ≡ signed ((to_unsigned left * 2 ^ (to_unsigned right % 32)) % 4_294_967_296) }
{
    of_bits(to_unsigned(left).wrapping_shl(to_unsigned(right)))
}

// The bits moved to the right, below copies of the sign.
fn shifted_right(left: i64, right: i64) -> Answer
    ensures { computed_of result ≡ Is (Num (halved (to_signed (to_unsigned left)) (2 ^ (to_unsigned right % 32)))) }
{
    let shifted = to_signed(to_unsigned(left)).wrapping_shr(to_unsigned(right));
    Answer::Is(Value::Num(i64::from(shifted)))
}

// The bits moved to the right, below zeros.
fn shifted_right_unsigned(left: i64, right: i64) -> Answer
    ensures { computed_of result ≡ Is (Num (pos (to_unsigned left / 2 ^ (to_unsigned right % 32)))) }
{
    let shifted = to_unsigned(left).wrapping_shr(to_unsigned(right));
    Answer::Is(Value::Num(i64::from(shifted)))
}

/// What an operator comes to on two numbers, whatever their values (ECMA-262, 6.1.6.1, over whole numbers): the number,
/// where it is whole and from -(2^53-1) to 2^53-1, and else the error `NotAWholeNumber`, as by zero; for a comparison a
/// boolean. The operators on bits work modulo 2^32. `instanceof`, `in`, `===` and `!==` are the error `WrongOperand`.
#[tactic(auto, unfolding(js_semantics::specs::Operators::of_numbers))]
pub fn of_numbers(operator: BinaryOperator, left: i64, right: i64) -> Answer
    ensures { computed_of result ≡ of_numbers operator left right }
{
    match operator {
        BinaryOperator::Add => sum(left, right),
        BinaryOperator::Subtract => difference(left, right),
        BinaryOperator::Multiply => product(left, right),
        BinaryOperator::Divide => quotient(left, right),
        BinaryOperator::Remainder => rest(left, right),
        BinaryOperator::Less => Answer::Is(Value::Bool(left < right)),
        BinaryOperator::Greater => Answer::Is(Value::Bool(left > right)),
        BinaryOperator::LessOrEqual => Answer::Is(Value::Bool(left <= right)),
        BinaryOperator::GreaterOrEqual => Answer::Is(Value::Bool(left >= right)),
        BinaryOperator::BitAnd => of_bits(to_unsigned(left) & to_unsigned(right)),
        BinaryOperator::BitOr => of_bits(to_unsigned(left) | to_unsigned(right)),
        BinaryOperator::BitXor => of_bits(to_unsigned(left) ^ to_unsigned(right)),
        BinaryOperator::ShiftLeft => shifted_left(left, right),
        BinaryOperator::ShiftRight => shifted_right(left, right),
        BinaryOperator::ShiftRightUnsigned => shifted_right_unsigned(left, right),
        BinaryOperator::InstanceOf
        | BinaryOperator::In
        | BinaryOperator::StrictEqual
        | BinaryOperator::StrictNotEqual => Answer::Fails(Fault::WrongOperand),
    }
}
