//! The rows of operators and operands: what is evaluated, in which order, and what is done with the values.
//!
//! Each function that takes a state answers `Memory` where memory runs out, and `Dangling` where it meets a location that
//! stands nowhere, to which no script comes: from a closed state it goes on to one, or answers `Memory`.
#![tactic(auto)]

mod after;
mod binary;
mod choice;
mod entering;
mod frames;
mod literal;
mod membership;
mod properties;
mod references;
mod settling;
mod targets;
mod template;
mod types;
mod unary;

pub use after::{after_give, after_typeof};
pub use binary::{apply, binary_left, binary_right, row_binary};
pub use choice::{
    and_left, cond_test, nullish_left, or_left, row_and, row_cond, row_nullish, row_or, row_seq,
    seq_first,
};
pub use entering::{enter_operand, pass};
pub use frames::{Remaining, operand};
pub use literal::{row_literal, row_text, row_this};
pub use properties::{index_key, index_object, property, used};
pub use references::{
    row_assign, row_assign_with, row_delete, row_dot, row_index, row_name, row_typeof, row_update,
};
pub use settling::{finish, make_text, settle};
pub use targets::{Target, target_of};
pub use template::{row_template, template_part};
pub use types::{delete_value, give_type, row_delete_value, row_typeof_value, typeof_value};
pub use unary::{row_unary, unary_operand};
