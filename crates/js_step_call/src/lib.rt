//! The rows of calls and of `new` (ECMA-262, 13.3.5 and 13.3.6), and what follows their callees, arguments and parameters.
//!
//! Each function that takes a state answers `Memory` where memory runs out, and `Dangling` where it meets a location that
//! stands nowhere, to which no script comes.
#![tactic(auto)]

mod leading;
mod rests;
mod rows;

pub use rests::{after_callee, call_frame};
pub use rows::{row_call, row_new};
