//! The worlds of an application over one pool: what each takes, what it makes, and its end.
#![tactic(auto)]

mod fault;
mod machine;
mod world;
mod yielding;

pub use world::World;
pub use yielding::Yield;

#[cfg(test)]
mod tests;
