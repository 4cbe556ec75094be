//! The parser of scripts.
#![tactic(auto)]

mod bindings;
mod expressions;
mod fault;
mod fork;
mod functions;
mod grammar;
mod literals;
mod nesting;
mod operators;
mod parsing;
mod part;
mod reader;
mod statements;
mod symbol;

pub use fault::ParseFault;
pub use parsing::parse;
