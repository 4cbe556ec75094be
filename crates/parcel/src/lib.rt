//! Parcels: values without locations, as they cross between worlds.
#![tactic(auto)]

mod keys;
mod parcel;
mod sides;
mod tally;
mod text;
mod walk;

pub use parcel::{ErrorKind, Item, Mem, PNode, Parcel, Side};
pub use sides::{copy, swap_sides, swap_sides_twice};
pub use tally::Tally;
pub use text::{show, show_is_injective};
pub use walk::check;

#[cfg(test)]
mod tests;
