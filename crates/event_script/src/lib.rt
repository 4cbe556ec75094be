//! Event scripts: which worlds get which events, and when their processes go on.
#![tactic(auto)]

mod line;
mod parts;
mod script;
#[cfg(test)]
mod tests;

pub use line::{Line, LineFault, LineKind};
pub use script::read_script;
