//! Freezing an object (ECMA-262, 7.3.15).
ghost use Rattle.std.specs.Prelude.{◌≡◌, Some, None, ◌⊎◌, map, is_some, true, false, nat_eq};
ghost use Rattle.std.specs.Option.{option_and_then};
ghost use Rattle.world_heap.specs.Maps.{keys, find};
ghost use Rattle.world_heap.specs.Heaps.{IsCell, IsWell};
ghost use Rattle.world_heap.specs.Bodies.{body_of, HasBody, rebodied};
ghost use Rattle.proto_props.specs.Freezes.{frozen_property, frozen_entry, frozen_body, frozen_cell, IsFreezable, cells_frozen, IsArrayAt};

use crate::remove::{bared, discard};
use sqlite_items::Items;
use std::alloc::Global;
use world_heap::{Cell, Heap, Loc, Property, Table, Value, body};

// A property that can be neither written nor redefined nor deleted.
fn hard(property: Property) -> Property
    ensures { result ≡ frozen_property property }
{
    match property {
        Property::Data {
            value,
            enumerable,
            ..
        } => Property::Data {
            value,
            writable: false,
            enumerable,
            configurable: false,
        },
        Property::Access {
            get,
            set,
            enumerable,
            ..
        } => Property::Access {
            get,
            set,
            enumerable,
            configurable: false,
        },
    }
}

// Freezes the properties of a table. It takes no memory.
fn harden(table: &mut Table<Property>)
    ensures { table.new ≡ map frozen_entry table.old }
{
    'properties: for at in 0..table.len() {
        let blank = Property::Data {
            value: Value::Undefined,
            writable: false,
            enumerable: false,
            configurable: false,
        };
        let property = table.replace_at(at, blank);
        discard(table.replace_at(at, hard(property)));
    }
}

// Freezes a cell with a body.
fn freeze_body(alloc: Global, heap: &mut Heap, loc: Loc)
    requires { HasBody heap.old.cells loc }
    ensures { heap.new ≡ record heap.old { cells = cells_frozen heap.old.cells loc } }
{
    let mut body = bared(alloc, heap, loc);
    harden(&mut body.properties);
    body.extensible = false;
    discard(heap.replace_body(loc, body));
}

// Freezes an array.
fn freeze_array(alloc: Global, heap: &mut Heap, loc: Loc, proto: Option<Loc>)
    requires array { IsArrayAt heap.old.cells loc proto }
    requires well { IsWell nat_eq heap.old.cells }
    ensures { heap.new ≡ record heap.old { cells = cells_frozen heap.old.cells loc } }
{
    let empty = Cell::Array {
        proto,
        items: Items::new(alloc),
        frozen: true,
    };
    match heap.replace(loc, empty) {
        Cell::Array { proto, items, .. } => {
            discard(heap.replace(
                loc,
                Cell::Array {
                    proto,
                    items,
                    frozen: true,
                },
            ));
        }
        _ => unreachable!(),
    }
}

/// Freezes an object: it can't be extended, its properties can't be written, redefined or deleted, and neither can the
/// elements of an array. The cell is no view with elements. It takes no memory: `alloc` is that of the heap. The cost is
/// linear in the properties.
pub fn freeze(alloc: Global, heap: &mut Heap, loc: Loc)
    requires stands { IsCell nat_eq heap.old.cells loc }
    requires freezable { IsFreezable (find nat_eq heap.old.cells loc) }
    ensures is { heap.new ≡ record heap.old { cells = cells_frozen heap.old.cells loc } }
    ensures keys { keys heap.new.cells ≡ keys heap.old.cells }
{
    match heap.cell(loc) {
        Cell::Array { proto, .. } => {
            let proto = *proto;
            freeze_array(alloc, heap, loc, proto)
        }
        other => match body(other) {
            Some(_) => freeze_body(alloc, heap, loc),
            None => {}
        },
    }
}
