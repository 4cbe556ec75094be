//! How the evaluation of a node ends.
use world_heap::{Loc, Value};

/// How the evaluation of a node ends: with a value, a jump, or a thrown value (ECMA-262, 6.2.4: completions).
#[derive(Drop)]
pub enum Outcome<L = Loc> {
    Normal(Value<L>),
    Return(Value<L>),
    Break,
    Continue,
    Thrown(Value<L>),
}
