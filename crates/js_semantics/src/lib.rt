//! What scripts mean: the rows of the language (ECMA-262 over whole numbers), as definitions, and their laws.
#![tactic(auto)]

mod fault;
mod laws;
mod mode;
mod native;
mod outcome;
mod scope;

pub use fault::{Fault, StepFault};
pub use laws::{agreeing, continued, determined, recursive, renaming};
pub use mode::Mode;
pub use native::Native;
pub use outcome::Outcome;
pub use scope::Scope;
