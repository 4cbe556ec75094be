//! The rows of functions, object literals and array literals (ECMA-262, 13.2.4, 13.2.5 and 15).
#![tactic(auto)]

mod defining;
mod element;
mod functions;
mod member;

pub use defining::define;
pub use element::{element_value, elements_from, push, row_array, spread_of};
pub use functions::{make_function, row_arrow, row_fun};
pub use member::{
    Member, Part, member_keyed, members_from, property_value, row_member, row_object,
};
