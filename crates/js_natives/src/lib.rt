//! The rows of the built-in functions: the console, the functions of errors, and `require`.
#![tactic(auto)]

mod console;
mod dispatch;
mod errors;
mod require;
#[cfg(test)]
mod tests;

pub use dispatch::native;
