//! A store that fills and empties slots without moving what stands in the others.
#![tactic(auto)]

mod chunks;

pub use chunks::{Chunks, Slot};

#[cfg(test)]
mod tests;
