//! One turn of the machine, and what a delivery comes to, from its coming to the next wait.
#![tactic(auto)]

mod afters;
mod frames;
mod nodes;
mod operands;
mod operators;
mod resuming;
mod statements;
mod stepping;
mod values;

pub use resuming::{advance, begin, resume};
pub use stepping::step;
