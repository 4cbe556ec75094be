//! The rows of blocks and scripts, whose functions are made when their scope is entered (ECMA-262, 14.2 and 16.1).
#![tactic(auto)]

mod block;
mod filling;
mod script;

pub use block::row_block;
pub use script::row_script;
