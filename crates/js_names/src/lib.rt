//! The names that scopes declare, and environments with their bindings (ECMA-262, 8.2 and 9.1).
#![tactic(auto)]

mod bind;
mod declare;
mod place;

pub use bind::{bind_in, fill_name};
pub use declare::{declare_pattern, declared_in, parameters_of};
pub use place::binding_of;

#[cfg(test)]
mod tests;
