//! Operators on two texts, and the texts that operators and templates make.
ghost use Rattle.std.specs.Prelude.{◌≡◌, ◌++◌, IfOk};
ghost use Rattle.std.specs.List.{concat};
ghost use Rattle.js_semantics.specs.Operators.{of_texts, text_before};
ghost use Rattle.js_operators.specs.Answers.{computed_of, settled, made};

use crate::answer::Answer;
use js_semantics::Fault;
use js_tree::BinaryOperator;
use std::alloc::{AllocError, Global};
use wl_text::{TextFault, Units};
use world_heap::Value;

/// The units of both texts in a row, or the error `TooLong` where there are more than 1,048,576 (ECMA-262, 6.1.4). The
/// cost is linear in the units.
#[tactic(auto, unfolding(crate::specs::Answers::made))]
pub fn joined_text(alloc: Global, front: &Units, back: &Units) -> Result<Answer, AllocError>
    ensures { IfOk result (λ answer. computed_of answer ≡ made (front.now ++ back.now)) }
{
    match front.join(alloc, back) {
        Ok(text) => Ok(Answer::Makes(text)),
        Err(TextFault::TooLong) => Ok(Answer::Fails(Fault::TooLong)),
        Err(TextFault::Memory) => Err(AllocError),
    }
}

// The units as a text, or the error where there are too many.
#[tactic(auto, unfolding(crate::specs::Answers::made))]
fn made_units(alloc: Global, units: &[u16]) -> Result<Answer, AllocError>
    ensures { IfOk result (λ answer. computed_of answer ≡ made units.now) }
{
    match Units::of_units(alloc, units) {
        Ok(text) => Ok(Answer::Makes(text)),
        Err(TextFault::TooLong) => Ok(Answer::Fails(Fault::TooLong)),
        Err(TextFault::Memory) => Err(AllocError),
    }
}

/// The units of all parts in a row, as of a template (ECMA-262, 13.2.8.6), or the error `TooLong` where there are more
/// than 1,048,576. The cost is linear in the units.
pub fn made_text(alloc: Global, parts: &[Units]) -> Result<Answer, AllocError>
    ensures { IfOk result (λ answer. computed_of answer ≡ made (concat parts.now)) }
{
    let mut list = Vec::new(alloc);
    for part in parts {
        if list.len() + part.len() > Units::LIMIT {
            return Ok(Answer::Fails(Fault::TooLong));
        }
        list.extend_from_slice(part.as_slice())?;
    }
    made_units(alloc, list.as_slice())
}

// Whether a text stands before another, unit by unit (ECMA-262, 7.2.13: IsLessThan).
#[tactic(auto, using(crate::proofs::Orders::text_before_is))]
fn is_before(left: &Units, right: &Units) -> bool
    ensures { result ≡ text_before left.now right.now }
{
    left.before(right)
}

/// What an operator comes to on two texts: `+` joins them, and `<`, `>`, `<=` and `>=` compare them unit by unit; any
/// other is the error `WrongOperand` (ECMA-262, 7.2.13 and 13.15.3). A text of more than 1,048,576 units is the error
/// `TooLong`. The cost is linear in the units.
#[tactic(auto, unfolding(js_semantics::specs::Operators::of_texts))]
pub fn of_texts(
    alloc: Global,
    operator: BinaryOperator,
    left: &Units,
    right: &Units,
) -> Result<Answer, AllocError>
    ensures { IfOk result (λ answer. computed_of answer ≡ settled (of_texts operator left.now right.now)) }
{
    match operator {
        BinaryOperator::Add => joined_text(alloc, left, right),
        BinaryOperator::Less => Ok(Answer::Is(Value::Bool(is_before(left, right)))),
        BinaryOperator::Greater => Ok(Answer::Is(Value::Bool(is_before(right, left)))),
        BinaryOperator::LessOrEqual => Ok(Answer::Is(Value::Bool(!is_before(right, left)))),
        BinaryOperator::GreaterOrEqual => Ok(Answer::Is(Value::Bool(!is_before(left, right)))),
        _ => Ok(Answer::Fails(Fault::WrongOperand)),
    }
}
