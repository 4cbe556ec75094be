//! The cells of the worlds: values, properties, cells and limits.
#![tactic(auto)]

mod bodies;
mod builtin;
mod cell;
mod heap;
mod keys;
mod limits;
mod pool;
mod size;
mod store;
mod table;
mod value;

pub use bodies::body;
pub use builtin::BuiltIn;
pub use cell::{Binding, Body, Cell, MapEntry, PromiseState, Reaction};
pub use heap::Heap;
pub use limits::{Counts, Full, HeapFault, Limits};
pub use pool::{Pool, Seat};
pub use table::Table;
pub use value::{Loc, Property, Value};
pub use world_kind::WorldKind;

#[cfg(test)]
mod tests;
