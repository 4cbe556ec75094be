//! The realm of a world: the heap with its built-in cells, and the state before anything has happened.
#![tactic(auto)]

mod bare;
mod filling;
mod members;
mod places;
mod realm;
mod tables;

pub use realm::{first_state, new_realm};

#[cfg(test)]
mod tests;
