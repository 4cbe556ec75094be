//! What operators leave to do where it may call code of the script: names and properties are read, written and removed,
//! and then the rows of updates, assignments, `typeof`, `delete` and `instanceof` end. What is at hand of an assignment is
//! evaluated in place.
//!
//! Each function that takes a state answers `Memory` where memory runs out, and `Dangling` where it meets a location that
//! stands nowhere, or a node without the name it should have; to neither comes a script.
#![tactic(auto)]

mod after;
mod assigning;
mod binary;
mod finishing;
mod inheritance;
mod instance;
mod keys;
mod naming;
mod objects;
mod removal;
mod rows;
mod usage;
mod writing;

pub use after::{after_assign_by, after_update};
pub use assigning::row_assign;
pub use binary::row_binary;
pub use finishing::finish;
pub use instance::{after_assign_instance, after_instance, instance_of};
pub use keys::{copy_key, key_units, name_at};
pub use naming::{read_name, row_name};
pub use objects::{row_dot, row_index};
pub use removal::delete;
pub use rows::{operand, property, row_assign_with, row_typeof, row_update};
pub use usage::use_property;
pub use writing::write_place;
