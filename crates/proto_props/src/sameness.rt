//! Whether two values are the same (ECMA-262, 7.2.10).
ghost use Rattle.std.specs.Prelude.{◌≡◌, nat_eq};
ghost use Rattle.proto_props.specs.Same.{same_value, same_function};

use world_heap::{Loc, Value};

/// Whether two values are the same. The cost is linear in the texts.
pub fn are_same(left: &Value, right: &Value) -> bool
    ensures { result ≡ same_value nat_eq left.now right.now }
{
    match (left, right) {
        (Value::Undefined, Value::Undefined) => true,
        (Value::Null, Value::Null) => true,
        (Value::Bool(left), Value::Bool(right)) => *left == *right,
        (Value::Num(left), Value::Num(right)) => *left == *right,
        (Value::Str(left), Value::Str(right)) => *left == *right,
        (Value::Ref(left), Value::Ref(right)) => left.number() == right.number(),
        _ => false,
    }
}

/// Whether two functions, each of which may be missing, are the same.
pub fn are_same_functions(left: Option<Loc>, right: Option<Loc>) -> bool
    ensures { result ≡ same_function nat_eq left right }
{
    match (left, right) {
        (None, None) => true,
        (Some(left), Some(right)) => left.number() == right.number(),
        _ => false,
    }
}
