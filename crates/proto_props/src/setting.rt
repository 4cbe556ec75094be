//! Writing a property (ECMA-262, 10.1.9, 10.4.2 and 10.4.5).
ghost use Rattle.std.specs.Prelude.{◌≡◌, ℕ, List, Option, Some, Bool, length, nat_eq, if◌then◌else◌};
ghost use Rattle.wl_text.specs.Number.{index_of};
ghost use Rattle.world_heap.specs.declared.value.Value.{Value as V};
ghost use Rattle.world_heap.specs.declared.cell.Cell.{Cell as C};
ghost use Rattle.world_heap.specs.declared.cell.Cell.TheVariants.{Array};
ghost use Rattle.world_heap.specs.Maps.{keys, find};
ghost use Rattle.world_heap.specs.Table.{found_under};
ghost use Rattle.world_heap.specs.Over.{ValueOver};
ghost use Rattle.world_heap.specs.Heaps.{IsNoEnv, IsCell};
ghost use Rattle.proto_props.specs.Chains.{search};
ghost use Rattle.proto_props.specs.Gets.{own_property};
ghost use Rattle.proto_props.specs.Adds.{IsArray, number_of, plain, cut_to, item_set};
ghost use Rattle.proto_props.specs.Changes.{Carries};
ghost use Rattle.proto_props.specs.Sets.{byte_of, writability, rewritten, property_at, set_by, set_reached, element_set, sets};

use crate::adding::add;
use crate::chain::{Reach, search_from};
use crate::outcome::{Refusal, SetDone};
use crate::own::names_length;
use crate::remove::discard;
use crate::writing::{cut_items, put_item, put_property};
use sqlite_items::Items;
use std::alloc::Global;
use wl_text::{Units, index_of};
use world_heap::{Body, Cell, Heap, HeapFault, Loc, Property, Value, body};

/// What a property says of writing: there is none; or it can't be written; or it can, with the attributes that stay; or
/// this setter is called.
#[derive(Debug, Drop, Clone, Copy, PartialEq, Eq)]
pub enum Writability<L = Loc> {
    Missing,
    Fixed,
    Open {
        enumerable: bool,
        configurable: bool,
    },
    Setter(L),
}

// What a property says of writing.
fn writability_of(property: &Property) -> Writability
    ensures { result ≡ writability (Some property.now) }
{
    match property {
        Property::Data {
            writable,
            enumerable,
            configurable,
            ..
        } => {
            if *writable {
                Writability::Open {
                    enumerable: *enumerable,
                    configurable: *configurable,
                }
            } else {
                Writability::Fixed
            }
        }
        Property::Access { set, .. } => match set {
            Some(set) => Writability::Setter(*set),
            None => Writability::Fixed,
        },
    }
}

// What a property of a body says of writing.
fn body_writability(body: &Body, key: &Units) -> Writability
    ensures { result ≡ writability (found_under body.now.properties key.now) }
{
    match body.properties.get(key) {
        Some(property) => writability_of(property),
        None => Writability::Missing,
    }
}

// What an own property that an array may have says of writing.
fn unless_frozen(frozen: bool, enumerable: bool, configurable: bool) -> Writability
    ensures { result ≡ (if frozen then Writability.Fixed else Writability.Open enumerable configurable) }
{
    if frozen {
        Writability::Fixed
    } else {
        Writability::Open {
            enumerable,
            configurable,
        }
    }
}

// What a property of an array says of writing.
fn array_writability(items: &Items<Value>, frozen: bool, key: &Units) -> Writability
    ensures { (cells : List (ℕ × C ℕ)) (p : Option ℕ) → result ≡ writability (own_property nat_eq cells (Array p items.now frozen) key.now) }
{
    if names_length(key) {
        return unless_frozen(frozen, false, false);
    }
    match index_of(key) {
        None => Writability::Missing,
        Some(index) => match items.get(index as usize) {
            None => Writability::Missing,
            Some(_) => unless_frozen(frozen, true, true),
        },
    }
}

// What a property of a cell says of writing.
fn cell_writability(cell: &Cell, key: &Units) -> Writability
    ensures { (cells : List (ℕ × C ℕ)) → result ≡ writability (own_property nat_eq cells cell.now key.now) }
{
    match cell {
        Cell::Array { items, frozen, .. } => array_writability(items, *frozen, key),
        Cell::View { body, length, .. } => match index_of(key) {
            None => body_writability(body, key),
            Some(index) => {
                if index < *length {
                    unless_frozen(false, true, true)
                } else {
                    Writability::Missing
                }
            }
        },
        other => match body(other) {
            None => Writability::Missing,
            Some(body) => body_writability(body, key),
        },
    }
}

/// The number that a value is.
pub fn number_in(value: Value) -> Option<i64>
    ensures { result ≡ number_of value }
{
    match value {
        Value::Num(number) => Some(number),
        other => {
            discard(other);
            None
        }
    }
}

// Sets the length of an array.
fn set_length(alloc: Global, heap: &mut Heap, loc: Loc, value: Value) -> Result<SetDone, HeapFault>
    requires { IsArray heap.old.cells loc }
    ensures { (p : Option ℕ) (vs : List (V ℕ)) (f : Bool) → find nat_eq heap.old.cells loc ≡ Some (Array p vs f)
        → Carries (cut_to p vs loc (number_of value)) heap.old result heap.new }
{
    let length = match heap.cell(loc) {
        Cell::Array { items, .. } => items.len(),
        _ => unreachable!(),
    };
    let number = match number_in(value) {
        Some(number) => number,
        None => return Ok(SetDone::Refused(Refusal::Hole)),
    };
    if number < 0 {
        return Ok(SetDone::Refused(Refusal::Hole));
    }
    let count = number as usize;
    if count > length {
        return Ok(SetDone::Refused(Refusal::Hole));
    }
    cut_items(alloc, heap, loc, count);
    Ok(SetDone::Done)
}

/// Puts another value in the place of an element of an array, or of its length.
pub fn set_item(
    alloc: Global,
    heap: &mut Heap,
    loc: Loc,
    key: &Units,
    value: Value,
) -> Result<SetDone, HeapFault>
    requires array { IsArray heap.old.cells loc }
    requires fits { ValueOver (IsNoEnv nat_eq heap.old.cells) value }
    ensures { (p : Option ℕ) (vs : List (V ℕ)) (f : Bool) → find nat_eq heap.old.cells loc ≡ Some (Array p vs f)
        → Carries (item_set p vs loc (index_of key.now) value) heap.old result heap.new }
{
    match index_of(key) {
        None => set_length(alloc, heap, loc, value),
        Some(index) => {
            put_item(alloc, heap, loc, index as usize, value);
            Ok(SetDone::Done)
        }
    }
}

// The attributes of a property that stay when its value is set.
#[derive(Debug, Drop, Clone, Copy, PartialEq, Eq)]
struct Attributes {
    enumerable: bool,
    configurable: bool,
}

// Puts another value under a key that the cell has as its own.
fn rewrite(
    alloc: Global,
    heap: &mut Heap,
    loc: Loc,
    key: Units,
    value: Value,
    kept: Attributes,
) -> Result<SetDone, HeapFault>
    requires stands { IsCell nat_eq heap.old.cells loc }
    requires fits { ValueOver (IsNoEnv nat_eq heap.old.cells) value }
    ensures { Carries (rewritten (find nat_eq heap.old.cells loc) loc key value kept.enumerable kept.configurable) heap.old result heap.new }
{
    match heap.cell(loc) {
        Cell::Array { .. } => set_item(alloc, heap, loc, &key, value),
        other => match body(other) {
            None => {
                discard(value);
                Ok(SetDone::Refused(Refusal::NotExtensible))
            }
            Some(_) => put_property(
                alloc,
                heap,
                loc,
                key,
                Property::Data {
                    value,
                    writable: true,
                    enumerable: kept.enumerable,
                    configurable: kept.configurable,
                },
            ),
        },
    }
}

// A property that can be written, listed and removed.
fn open(value: Value) -> Property
    ensures { result ≡ plain value }
{
    Property::Data {
        value,
        writable: true,
        enumerable: true,
        configurable: true,
    }
}

// Writes a property, by what the one says that was found at a location.
fn set_found(
    alloc: Global,
    heap: &mut Heap,
    at: Loc,
    loc: Loc,
    key: Units,
    value: Value,
) -> Result<SetDone, HeapFault>
    requires found { IsCell nat_eq heap.old.cells at }
    requires stands { IsCell nat_eq heap.old.cells loc }
    requires fits { ValueOver (IsNoEnv nat_eq heap.old.cells) value }
    ensures { Carries (set_by nat_eq heap.old.cells at (writability (property_at nat_eq heap.old.cells at key)) loc key value) heap.old result heap.new }
{
    match cell_writability(heap.cell(at), &key) {
        Writability::Missing => add(alloc, heap, loc, key, open(value)),
        Writability::Fixed => {
            discard(value);
            Ok(SetDone::Refused(Refusal::ReadOnly))
        }
        Writability::Setter(set) => {
            discard(value);
            Ok(SetDone::CallSetter(set))
        }
        Writability::Open {
            enumerable,
            configurable,
        } => {
            if at.number() == loc.number() {
                let kept = Attributes {
                    enumerable,
                    configurable,
                };
                rewrite(alloc, heap, loc, key, value, kept)
            } else {
                add(alloc, heap, loc, key, open(value))
            }
        }
    }
}

// Writes a property of an object by the search for it.
fn set_reached(
    alloc: Global,
    heap: &mut Heap,
    loc: Loc,
    key: Units,
    value: Value,
) -> Result<SetDone, HeapFault>
    requires stands { IsCell nat_eq heap.old.cells loc }
    requires fits { ValueOver (IsNoEnv nat_eq heap.old.cells) value }
    ensures { Carries (set_reached nat_eq heap.old.cells (search nat_eq heap.old.cells key (length heap.old.cells) loc) loc key value) heap.old result heap.new }
{
    match search_from(heap, loc, &key) {
        Reach::Has(at) => set_found(alloc, heap, at, loc, key, value),
        Reach::Past => {
            discard(value);
            Ok(SetDone::Done)
        }
        Reach::Nowhere => add(alloc, heap, loc, key, open(value)),
    }
}

// The byte that a number is, modulo 256.
fn byte_in(number: i64) -> u8
    ensures { result ≡ byte_of number }
{
    if number >= 0 {
        (number % 256) as u8
    } else {
        255 - (-(number + 1) % 256) as u8
    }
}

// Writes an element of a view.
fn set_element(
    heap: &mut Heap,
    buffer: Loc,
    offset: u32,
    count: u32,
    index: u32,
    value: Value,
) -> Result<SetDone, HeapFault>
    requires { IsCell nat_eq heap.old.cells buffer }
    ensures { Carries (element_set nat_eq heap.old.cells buffer offset count index (number_of value)) heap.old result heap.new }
{
    let number = match number_in(value) {
        Some(number) => number,
        None => return Ok(SetDone::Refused(Refusal::Operand)),
    };
    if index >= count {
        return Ok(SetDone::Done);
    }
    heap.write_byte(buffer, offset as usize + index as usize, byte_in(number));
    Ok(SetDone::Done)
}

/// Writes a property of an object, and counts a place where the key is a new one of it. The value's location stands, and
/// is no environment's.
///
/// A setter that the search along the chain of prototypes finds is named and not called. A refusal is told exactly where
/// its definition says, of several the first, and then where a count would pass its limit or memory runs out, that; the
/// heap is then as it was. `alloc` is that of the heap. The cost is linear in the chain, and else constant on average, but
/// for an array that is cut.
pub fn set_step(
    alloc: Global,
    heap: &mut Heap,
    loc: Loc,
    key: Units,
    value: Value,
) -> Result<SetDone, HeapFault>
    requires stands { IsCell nat_eq heap.old.cells loc }
    requires fits { ValueOver (IsNoEnv nat_eq heap.old.cells) value }
    ensures is { Carries (sets nat_eq heap.old.cells loc key value) heap.old result heap.new }
    ensures keys { keys heap.new.cells ≡ keys heap.old.cells }
{
    match heap.cell(loc) {
        Cell::View {
            buffer,
            offset,
            length,
            ..
        } => {
            let (buffer, offset, length) = (*buffer, *offset, *length);
            match index_of(&key) {
                Some(index) => set_element(heap, buffer, offset, length, index, value),
                None => set_reached(alloc, heap, loc, key, value),
            }
        }
        _ => set_reached(alloc, heap, loc, key, value),
    }
}
