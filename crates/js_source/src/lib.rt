//! The source of a script: from its bytes to a checked syntax tree, or its first fault.
#![tactic(auto)]

mod fault;
mod reading;
#[cfg(test)]
mod tests;

pub use fault::{SourceFault, SourceKind};
pub use reading::{Source, read_source};
