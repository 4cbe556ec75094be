//! What the console shows of values.
#![tactic(auto)]

mod cells;
mod line;
mod shown;
mod values;

pub use shown::{display, line_of};
