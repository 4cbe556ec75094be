//! Conversions and equality of values.
ghost use Rattle.std.specs.Prelude.{◌≡◌, ◌<◌, IfOk, length, nat_eq};
ghost use Rattle.std.specs.Fmt.{signed_decimal};
ghost use Rattle.js_semantics.specs.Properties.{same_text};
ghost use Rattle.js_semantics.specs.Operators.{is_truthy, primitive_text, key_of, strictly_equal};

use std::alloc::{AllocError, Global};
use wl_text::{TextFault, Units};
use world_heap::Value;

/// Whether a value counts as true (ECMA-262, 7.1.2: ToBoolean).
#[tactic(auto, unfolding(js_semantics::specs::Operators::is_truthy))]
pub fn is_truthy(value: &Value) -> bool
    ensures { result ≡ is_truthy value.now }
{
    match value {
        Value::Undefined => false,
        Value::Null => false,
        Value::Bool(truth) => *truth,
        Value::Num(number) => *number != 0,
        Value::Str(text) => text.len() != 0,
        Value::Ref(_) => true,
    }
}

/// An ASCII text of fewer than 128 bytes, as units.
pub fn short_text(alloc: Global, text: &str) -> Result<Units, AllocError>
    requires { length text.now < 128 }
    ensures { IfOk result (λ units. units ≡ text.now) }
{
    let mut list = Vec::new(alloc);
    for byte in text.as_bytes() {
        list.push(u16::from(*byte))?;
    }
    match Units::of_units(alloc, list.as_slice()) {
        Ok(units) => Ok(units),
        Err(TextFault::Memory) => Err(AllocError),
        Err(TextFault::TooLong) => unreachable!(),
    }
}

// The decimal text of a number.
fn number_text(alloc: Global, number: i64) -> Result<Units, AllocError>
    ensures { IfOk result (λ text. text ≡ signed_decimal number) }
{
    let digits = number.to_string(alloc)?;
    short_text(alloc, &digits)
}

/// The text of a primitive value (ECMA-262, 7.1.17: ToString); objects and symbols have none. A string is copied, in time
/// linear in its units.
#[tactic(auto, unfolding(js_semantics::specs::Operators::primitive_text))]
pub fn primitive_text(alloc: Global, value: &Value) -> Result<Option<Units>, AllocError>
    ensures { IfOk result (λ text. text ≡ primitive_text value.now) }
{
    match value {
        Value::Undefined => Ok(Some(short_text(alloc, "undefined")?)),
        Value::Null => Ok(Some(short_text(alloc, "null")?)),
        Value::Bool(true) => Ok(Some(short_text(alloc, "true")?)),
        Value::Bool(false) => Ok(Some(short_text(alloc, "false")?)),
        Value::Num(number) => Ok(Some(number_text(alloc, *number)?)),
        Value::Str(text) => Ok(Some(text.copy(alloc)?)),
        Value::Ref(_) => Ok(None),
    }
}

/// The key that a value is (ECMA-262, 7.1.19: ToPropertyKey): a string, or the decimal text of a number; any other value
/// is none. A string is copied, in time linear in its units.
#[tactic(auto, unfolding(js_semantics::specs::Operators::key_of))]
pub fn key_of(alloc: Global, value: &Value) -> Result<Option<Units>, AllocError>
    ensures { IfOk result (λ key. key ≡ key_of value.now) }
{
    match value {
        Value::Num(number) => Ok(Some(number_text(alloc, *number)?)),
        Value::Str(text) => Ok(Some(text.copy(alloc)?)),
        Value::Undefined => Ok(None),
        Value::Null => Ok(None),
        Value::Bool(_) => Ok(None),
        Value::Ref(_) => Ok(None),
    }
}

/// Whether two texts are the same. The cost is linear in the shorter one.
pub fn same_text(left: &Units, right: &Units) -> bool
    ensures { result ≡ same_text left.now right.now }
{
    left == right
}

/// Whether two values are the same (ECMA-262, 7.2.15: IsStrictlyEqual); an object is the same as itself alone. The cost
/// for two strings is linear in the shorter one.
#[tactic(auto, unfolding(js_semantics::specs::Operators::strictly_equal))]
pub fn strictly_equal(left: &Value, right: &Value) -> bool
    ensures { result ≡ strictly_equal nat_eq left.now right.now }
{
    match left {
        Value::Undefined => matches!(right, Value::Undefined),
        Value::Null => matches!(right, Value::Null),
        Value::Bool(truth) => match right {
            Value::Bool(other) => truth == other,
            _ => false,
        },
        Value::Num(number) => match right {
            Value::Num(other) => number == other,
            _ => false,
        },
        Value::Str(text) => match right {
            Value::Str(other) => same_text(text, other),
            _ => false,
        },
        Value::Ref(loc) => match right {
            Value::Ref(other) => loc == other,
            _ => false,
        },
    }
}
