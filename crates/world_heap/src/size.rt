//! How many places and units a cell takes.
ghost use Rattle.std.specs.Prelude.{◌≡◌, ◌+◌, ◌^◌, ◌-◌, min, length};
ghost use Rattle.world_heap.specs.Heaps.{places_of, units_of};

use crate::cell::Cell;

// A place, and one for each of so many.
fn one_more(first: usize) -> u64
    ensures { result ≡ min (1 + first) (2 ^ 64 - 1) }
{
    (first as u64).saturating_add(1)
}

// A place, and one for each of so many and of so many others.
fn one_more_than(first: usize, second: usize) -> u64
    ensures { result ≡ min (1 + first + second) (2 ^ 64 - 1) }
{
    (first as u64)
        .saturating_add(1)
        .saturating_add(second as u64)
}

/// The places that a cell takes when it is added, or 2^64-1 where they are more.
pub fn place_count(cell: &Cell) -> u64
    ensures { result ≡ min (places_of cell.now) (2 ^ 64 - 1) }
{
    match cell {
        Cell::Object { body } => one_more(body.properties.len()),
        Cell::Array { items, .. } => one_more(items.len()),
        Cell::Closure { body, .. } => one_more(body.properties.len()),
        Cell::Native { body, .. } => one_more(body.properties.len()),
        Cell::Far { body, .. } => one_more(body.properties.len()),
        Cell::Error { body, .. } => one_more(body.properties.len()),
        Cell::Map { body, entries } => one_more_than(body.properties.len(), entries.len()),
        Cell::Set { body, entries } => one_more_than(body.properties.len(), entries.len()),
        Cell::Promise {
            body,
            reactions,
            ..
        } => one_more_than(body.properties.len(), reactions.len()),
        Cell::Port { body, .. } => one_more(body.properties.len()),
        Cell::Buffer { body, .. } => one_more(body.properties.len()),
        Cell::View { body, .. } => one_more(body.properties.len()),
        Cell::Symbol { .. } => 1,
        Cell::Env { bindings, .. } => one_more(bindings.len()),
    }
}

/// The units that a cell takes when it is added.
pub fn unit_count(cell: &Cell) -> u64
    ensures { result ≡ units_of cell.now }
{
    match cell {
        Cell::Buffer { bytes, .. } => bytes.len() as u64,
        _ => 0,
    }
}
