//! The rows of patterns (ECMA-262, 8.6.2 and 14.3.3: BindingInitialization): a value is bound to the names of a pattern, by
//! the properties or elements that the pattern names.
//!
//! Each function that takes a state answers `Memory` where memory runs out, and `Dangling` where it meets a location that
//! stands nowhere, to which no script comes.
#![tactic(auto)]

mod binding;
mod entries;
mod properties;

pub use binding::{bind_pattern, pattern_frame};
pub use properties::after_property_read;
