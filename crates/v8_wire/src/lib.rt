//! The bytes of a message, as V8's serializer writes and reads them (V8, src/objects/value-serializer.cc).
#![tactic(auto)]

mod contents;
mod fault;
mod key;
mod kind;
mod laws;
mod leaf;
mod met;
mod number;
mod open;
mod properties;
mod putting;
mod taking;
#[cfg(test)]
mod tests;
mod text;
mod view;
mod writing;

pub use kind::{WireFault, WireKind};
pub use laws::{bytes_read_once, spellings_are_read};
pub use putting::put;
pub use taking::take;
