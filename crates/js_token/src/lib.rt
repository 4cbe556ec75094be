//! Tokens of a script.
#![tactic(auto)]

mod characters;
mod gaps;
mod laws;
mod literals;
pub mod mark;
mod marks;
mod nesting;
mod numbers;
mod scan;
mod token;
mod words;

pub use laws::{places_ascend, templates_nest, tokens_end_once};
pub use scan::tokens;
pub use token::{LexFault, LexKind, Token, TokenKind};
pub use words::is_name;

#[cfg(test)]
mod tests;
