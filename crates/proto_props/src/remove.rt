//! Deleting a property (ECMA-262, 10.1.10, 10.4.2 and 10.4.5.6).
ghost use Rattle.std.specs.Prelude.{◌≡◌, Some, if◌then◌else◌, option_map, nat_eq};
ghost use Rattle.world_heap.specs.Table.{found_under};
ghost use Rattle.std.specs.Option.{option_and_then};
ghost use Rattle.world_heap.specs.Maps.{keys, find};
ghost use Rattle.world_heap.specs.Heaps.{IsCell, IsWell};
ghost use Rattle.world_heap.specs.Bodies.{body_of, HasBody, rebodied};
ghost use Rattle.proto_props.specs.Removes.{removal_of, removal, removal_from, is_gone, after_removal, cells_without};
ghost use Rattle.proto_props.specs.Bared.{bare};

use crate::own::names_length;
use std::alloc::Global;
use wl_text::{Units, index_of};
use world_heap::{Body, Cell, Heap, Loc, Property, Table, body};

/// What becomes of a property that is to be removed: there is none, or it may not be removed, or it may.
#[derive(Debug, Drop, Clone, Copy, PartialEq, Eq)]
pub enum Removal {
    Absent,
    Fixed,
    Free,
}

/// Lets a value go. A generic function keeps the cases of its drop out of its callers' proofs.
pub fn discard<T: Drop>(_value: T) {}

// What becomes of a property of a body.
fn body_removal(body: &Body, key: &Units) -> Removal
    ensures { result ≡ removal_of (found_under body.now.properties key.now) }
{
    match body.properties.get(key) {
        None => Removal::Absent,
        Some(Property::Data { configurable, .. }) => told(*configurable),
        Some(Property::Access { configurable, .. }) => told(*configurable),
    }
}

// What becomes of a property that may be removed or not.
fn told(configurable: bool) -> Removal
    ensures { result ≡ (if configurable then Removal.Free else Removal.Fixed) }
{
    if configurable {
        Removal::Free
    } else {
        Removal::Fixed
    }
}

// What becomes of a property of a cell.
fn cell_removal(cell: &Cell, key: &Units) -> Removal
    ensures { result ≡ removal cell.now key.now }
{
    match cell {
        Cell::Array { items, .. } => {
            if names_length(key) {
                return Removal::Fixed;
            }
            match index_of(key) {
                Some(index) if (index as usize) < items.len() => Removal::Fixed,
                _ => Removal::Absent,
            }
        }
        Cell::View { body, length, .. } => match index_of(key) {
            Some(index) if index < *length => Removal::Fixed,
            Some(_) => Removal::Absent,
            None => body_removal(body, key),
        },
        other => match body(other) {
            Some(body) => body_removal(body, key),
            None => Removal::Absent,
        },
    }
}

// The body of a cell without its properties.
fn blank(alloc: Global, heap: &Heap, loc: Loc) -> Body
    requires { HasBody heap.now.cells loc }
    ensures is { option_map bare (option_and_then body_of (find nat_eq heap.now.cells loc)) ≡ Some result }
    ensures well { IsWell nat_eq heap.now.cells }
{
    match body(heap.cell(loc)) {
        Some(body) => Body {
            proto: body.proto,
            properties: Table::new(alloc),
            extensible: body.extensible,
        },
        None => unreachable!(),
    }
}

/// Takes the body of a cell out, and leaves it without its properties.
pub fn bared(alloc: Global, heap: &mut Heap, loc: Loc) -> Body
    requires { HasBody heap.old.cells loc }
    ensures was { option_and_then body_of (find nat_eq heap.old.cells loc) ≡ Some result }
    ensures is { heap.new ≡ record heap.old { cells = rebodied heap.old.cells loc (bare result) } }
    ensures well { IsWell nat_eq heap.old.cells }
{
    let empty = blank(alloc, heap, loc);
    heap.replace_body(loc, empty)
}

// Takes a property of a body out.
fn take_out(alloc: Global, heap: &mut Heap, loc: Loc, key: &Units)
    requires { HasBody heap.old.cells loc }
    ensures { heap.new ≡ record heap.old { cells = cells_without heap.old.cells loc key.now } }
{
    let mut body = bared(alloc, heap, loc);
    body.properties.remove(key);
    discard(heap.replace_body(loc, body));
}

/// Deletes an own property. It answers false exactly where the property may not be removed, and the heap is then as it
/// was. It takes no memory: `alloc` is that of the heap.
pub fn delete(alloc: Global, heap: &mut Heap, loc: Loc, key: &Units) -> bool
    requires { IsCell nat_eq heap.old.cells loc }
    ensures told { result ≡ is_gone (removal_from heap.old.cells loc key.now) }
    ensures is { heap.new ≡ record heap.old { cells = after_removal (removal_from heap.old.cells loc key.now) heap.old.cells loc key.now } }
    ensures keys { keys heap.new.cells ≡ keys heap.old.cells }
{
    match cell_removal(heap.cell(loc), key) {
        Removal::Absent => true,
        Removal::Fixed => false,
        Removal::Free => {
            take_out(alloc, heap, loc, key);
            true
        }
    }
}
