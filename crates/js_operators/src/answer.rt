//! What an operator answers.
ghost use Rattle.js_operators.specs.Answers.{IsSettledAlike};

use js_semantics::Fault;
use wl_text::Units;
use world_heap::{Loc, Value};

/// What an operator answers: a value; a text that it makes, whose units are still to be counted; or the error that is to
/// be thrown.
#[derive(Drop)]
pub enum Answer<L = Loc> {
    Is(Value<L>),
    Makes(Units),
    Fails(Fault),
}

/// To go on with what an operator comes to is to go on with its answer: where the text would be too long, the error is
/// thrown that making it would throw.
pub fn settled_alike()
    ensures { IsSettledAlike }
{}
