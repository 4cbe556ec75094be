//! The rows of statements (ECMA-262, 14): one function for each row, and one for the rest of each frame.
#![tactic(auto)]

mod attempt;
mod declaration;
mod dispatch;
mod environments;
mod items;
mod iteration;
mod lists;
mod loops;
mod patterns;
mod script;
mod simple;
mod turns;

pub use attempt::{at_last, caught, replaced_by, row_try};
pub use declaration::{declare_pairs, declared_value};
pub use dispatch::{row_statement, statement_end};
pub use environments::inside;
pub use items::run_items;
pub use iteration::{Walk, of_body_end, of_bound, of_turn, row_for_of};
pub use loops::{
    do_body_end, do_tested, enter_for, for_tested, row_do_while, row_while, while_body_end,
    while_tested,
};
pub use patterns::{bind_array, bind_elements, bind_name, element_defaulted, pattern};
pub use script::script_end;
pub use simple::{
    expression_end, if_end, return_end, row_expression, row_if, row_return, row_throw, run_or_done,
    throw_end,
};
pub use turns::{for_body_end, for_start, row_for};
