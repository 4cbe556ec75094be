//! Operators between two operands (ECMA-262, 13.6 to 13.12).
ghost use Rattle.std.specs.Prelude.{◌≡◌, Some, IfOk};
ghost use Rattle.js_tree.specs.declared.node.BinaryOperator.TheVariants.{Add};
ghost use Rattle.js_semantics.specs.Operators.{joined, of_numbers, of_operands, primitive_text};
ghost use Rattle.js_operators.specs.Answers.{computed_of, settled};

use crate::answer::Answer;
use crate::convert::primitive_text;
use crate::numbers::of_numbers;
use crate::texts::{joined_text, of_texts};
use js_semantics::Fault;
use js_tree::BinaryOperator;
use std::alloc::{AllocError, Global};
use wl_text::Units;
use world_heap::Value;

// A text with the text of a primitive value behind it.
fn with_behind(alloc: Global, text: &Units, value: &Value) -> Result<Answer, AllocError>
    ensures { IfOk result (λ answer. computed_of answer ≡ settled (joined Add (Some text.now) (primitive_text value.now))) }
{
    match primitive_text(alloc, value)? {
        Some(back) => joined_text(alloc, text, &back),
        None => Ok(Answer::Fails(Fault::WrongOperand)),
    }
}

// A text with the text of a primitive value in front of it.
fn with_front(alloc: Global, value: &Value, text: &Units) -> Result<Answer, AllocError>
    ensures { IfOk result (λ answer. computed_of answer ≡ settled (joined Add (primitive_text value.now) (Some text.now))) }
{
    match primitive_text(alloc, value)? {
        Some(front) => joined_text(alloc, &front, text),
        None => Ok(Answer::Fails(Fault::WrongOperand)),
    }
}

// What an operator comes to on a text and a value that is none.
fn text_and_value(
    alloc: Global,
    operator: BinaryOperator,
    text: &Units,
    value: &Value,
) -> Result<Answer, AllocError>
    ensures { IfOk result (λ answer. computed_of answer ≡ settled (joined operator (Some text.now) (primitive_text value.now))) }
{
    match operator {
        BinaryOperator::Add => with_behind(alloc, text, value),
        _ => Ok(Answer::Fails(Fault::WrongOperand)),
    }
}

// What an operator comes to on a value that is no text and a text.
fn value_and_text(
    alloc: Global,
    operator: BinaryOperator,
    value: &Value,
    text: &Units,
) -> Result<Answer, AllocError>
    ensures { IfOk result (λ answer. computed_of answer ≡ settled (joined operator (primitive_text value.now) (Some text.now))) }
{
    match operator {
        BinaryOperator::Add => with_front(alloc, value, text),
        _ => Ok(Answer::Fails(Fault::WrongOperand)),
    }
}

// What an operator comes to on two numbers, which is no text.
fn of_both_numbers(operator: BinaryOperator, left: i64, right: i64) -> Answer
    ensures { computed_of result ≡ settled (of_numbers operator left right) }
{
    of_numbers(operator, left, right)
}

/// What an operator that looks at the types of its operands comes to (ECMA-262, 13.15.3, over whole numbers): on two
/// numbers or two texts what their operators give; `+` also joins a text and another primitive value. All else is the
/// error `WrongOperand`, and a text of more than 1,048,576 units the error `TooLong`. `instanceof`, `in`, `===` and `!==`
/// are no such operators, and give `WrongOperand`. The cost is linear in the units of the texts.
#[tactic(auto, unfolding(js_semantics::specs::Operators::of_operands))]
pub fn of_operands(
    alloc: Global,
    operator: BinaryOperator,
    left: &Value,
    right: &Value,
) -> Result<Answer, AllocError>
    ensures { IfOk result (λ answer. computed_of answer ≡ settled (of_operands operator left.now right.now)) }
{
    match left {
        Value::Num(number) => match right {
            Value::Num(other) => Ok(of_both_numbers(operator, *number, *other)),
            Value::Str(text) => value_and_text(alloc, operator, left, text),
            _ => Ok(Answer::Fails(Fault::WrongOperand)),
        },
        Value::Str(text) => match right {
            Value::Str(other) => of_texts(alloc, operator, text, other),
            other => text_and_value(alloc, operator, text, other),
        },
        other => match right {
            Value::Str(text) => value_and_text(alloc, operator, other, text),
            _ => Ok(Answer::Fails(Fault::WrongOperand)),
        },
    }
}
