//! Defining a property (ECMA-262, 10.1.6, 10.4.2.1 and 10.4.5.3).
ghost use Rattle.std.specs.Prelude.{◌≡◌, ◌&&◌, not, ℕ, Bool, List, Option, Some, is_some, if◌then◌else◌, option_map, nat_eq};
ghost use Rattle.std.specs.Option.{option_and_then};
ghost use Rattle.world_heap.specs.declared.value.Value.{Value as V};
ghost use Rattle.world_heap.specs.declared.cell.Cell.{Cell as C};
ghost use Rattle.world_heap.specs.declared.cell.Cell.TheVariants.{Array};
ghost use Rattle.world_heap.specs.Maps.{keys, find};
ghost use Rattle.world_heap.specs.Table.{found_under};
ghost use Rattle.world_heap.specs.Over.{PropertyOver};
ghost use Rattle.world_heap.specs.Heaps.{IsNoEnv, IsCell};
ghost use Rattle.world_heap.specs.Bodies.{body_of};
ghost use Rattle.proto_props.specs.Adds.{IsArray, value_with};
ghost use Rattle.proto_props.specs.Changes.{Carries};
ghost use Rattle.proto_props.specs.Removes.{is_configurable};
ghost use Rattle.proto_props.specs.Same.{same_value};
ghost use Rattle.proto_props.specs.Defines.{is_enumerable, keeps, allows, item_value, body_defined, defined_in, defines};

use crate::adding::{add, value_of};
use crate::outcome::{Refusal, SetDone};
use crate::own::names_length;
use crate::remove::discard;
use crate::sameness::{are_same, are_same_functions};
use crate::setting::set_item;
use crate::writing::put_property;
use sqlite_items::Items;
use std::alloc::Global;
use wl_text::{Units, index_of};
use world_heap::{Cell, Heap, HeapFault, Loc, Property, Value, body};

/// The greatest whole number that a value may be.
const GREATEST: usize = 9_007_199_254_740_991;

// Whether a property may be removed or become another.
fn can_change(property: &Property) -> bool
    ensures { result ≡ is_configurable property.now }
{
    match property {
        Property::Data { configurable, .. } => *configurable,
        Property::Access { configurable, .. } => *configurable,
    }
}

// Whether a property is listed.
fn is_listed(property: &Property) -> bool
    ensures { result ≡ is_enumerable property.now }
{
    match property {
        Property::Data { enumerable, .. } => *enumerable,
        Property::Access { enumerable, .. } => *enumerable,
    }
}

// Whether a property is what another was, but for a value that can be written, and for being written.
fn stays_what_it_is(old: &Property, new: &Property) -> bool
    ensures { result ≡ keeps nat_eq old.now new.now }
{
    match (old, new) {
        (
            Property::Data {
                value,
                writable,
                ..
            },
            Property::Data {
                value: other,
                writable: writes,
                ..
            },
        ) => *writable || (!*writes && are_same(value, other)),
        (
            Property::Access { get, set, .. },
            Property::Access {
                get: getter,
                set: setter,
                ..
            },
        ) => are_same_functions(*get, *getter) && are_same_functions(*set, *setter),
        (Property::Data { .. }, Property::Access { .. }) => false,
        (Property::Access { .. }, Property::Data { .. }) => false,
    }
}

// Whether a property may take the place of another.
fn is_allowed(old: &Property, new: &Property) -> bool
    ensures { result ≡ allows nat_eq old.now new.now }
{
    can_change(old)
        || (!can_change(new) && is_listed(old) == is_listed(new) && stays_what_it_is(old, new))
}

// Whether an array has an own property under a key.
fn has_item(items: &Items<Value>, key: &Units) -> bool
    ensures { result ≡ is_some (item_value items.now key.now) }
{
    if names_length(key) {
        return true;
    }
    match index_of(key) {
        None => false,
        Some(index) => items.get(index as usize).is_some(),
    }
}

// Whether a value is that of an own property of an array.
fn is_item(items: &Items<Value>, key: &Units, value: &Value) -> bool
    ensures { (v : V ℕ) → item_value items.now key.now ≡ Some v → result ≡ same_value nat_eq v value.now }
{
    if names_length(key) {
        let length = Value::Num(items.len().min(GREATEST) as i64);
        return are_same(&length, value);
    }
    match index_of(key) {
        None => false,
        Some(index) => match items.get(index as usize) {
            None => false,
            Some(item) => are_same(item, value),
        },
    }
}

// The value of a property that has the attributes of an own property of an array.
fn value_asked(property: Property, frozen: bool, length: bool) -> Option<Value>
    ensures { result ≡ value_with (not frozen) (not length) (not frozen && not length) property }
{
    value_of(property, !frozen, !length, !frozen && !length)
}

// Whether a value is that of an own property of an array that is frozen, as what defining it answers.
fn kept(cell: &Cell, key: &Units, value: &Value) -> SetDone
    ensures { (p : Option ℕ) (vs : List (V ℕ)) (f : Bool) (v : V ℕ) → cell.now ≡ Array p vs f → item_value vs key.now ≡ Some v
        → result ≡ (if same_value nat_eq v value.now then SetDone.Done else SetDone.Refused Refusal.ReadOnly) }
{
    match cell {
        Cell::Array { items, .. } if is_item(items, key, value) => SetDone::Done,
        _ => SetDone::Refused(Refusal::ReadOnly),
    }
}

// Defines a property of an array.
fn define_item(
    alloc: Global,
    heap: &mut Heap,
    loc: Loc,
    key: Units,
    property: Property,
) -> Result<SetDone, HeapFault>
    requires array { IsArray heap.old.cells loc }
    requires fits { PropertyOver (IsNoEnv nat_eq heap.old.cells) property }
    ensures { Carries (defined_in nat_eq (find nat_eq heap.old.cells loc) loc key property) heap.old result heap.new }
{
    let (own, frozen) = match heap.cell(loc) {
        Cell::Array { items, frozen, .. } => (has_item(items, &key), *frozen),
        _ => unreachable!(),
    };
    if !own {
        return add(alloc, heap, loc, key, property);
    }
    let value = match value_asked(property, frozen, names_length(&key)) {
        Some(value) => value,
        None => return Ok(SetDone::Refused(Refusal::ReadOnly)),
    };
    if frozen {
        let done = kept(heap.cell(loc), &key, &value);
        discard(value);
        return Ok(done);
    }
    set_item(alloc, heap, loc, &key, value)
}

// Whether a property may take the place of the one that the body of a cell has, where it has one.
fn verdict(cell: &Cell, key: &Units, property: &Property) -> Option<bool>
    ensures { result ≡ option_map (λ q. allows nat_eq q property.now) (option_and_then (λ b. found_under b.properties key.now) (body_of cell.now)) }
{
    match body(cell) {
        None => None,
        Some(body) => match body.properties.get(key) {
            None => None,
            Some(old) => Some(is_allowed(old, property)),
        },
    }
}

// Defines a property of the body of a cell.
fn define_in(
    alloc: Global,
    heap: &mut Heap,
    loc: Loc,
    key: Units,
    property: Property,
) -> Result<SetDone, HeapFault>
    requires stands { IsCell nat_eq heap.old.cells loc }
    requires fits { PropertyOver (IsNoEnv nat_eq heap.old.cells) property }
    ensures { (c : C ℕ) → find nat_eq heap.old.cells loc ≡ Some c → Carries (body_defined nat_eq (body_of c) c loc key property) heap.old result heap.new }
{
    match verdict(heap.cell(loc), &key, &property) {
        None => add(alloc, heap, loc, key, property),
        Some(true) => put_property(alloc, heap, loc, key, property),
        Some(false) => {
            discard(property);
            Ok(SetDone::Refused(Refusal::ReadOnly))
        }
    }
}

/// Defines a property of an object with all its attributes, and counts a place where the key is a new one of it. The
/// locations in the property stand, and are no environments'.
///
/// A refusal is told exactly where its definition says, of several the first, and then where a count would pass its limit
/// or memory runs out, that; the heap is then as it was. No setter is called or named. `alloc` is that of the heap. The
/// cost is constant on average, but for an array that is cut.
pub fn define(
    alloc: Global,
    heap: &mut Heap,
    loc: Loc,
    key: Units,
    property: Property,
) -> Result<SetDone, HeapFault>
    requires stands { IsCell nat_eq heap.old.cells loc }
    requires fits { PropertyOver (IsNoEnv nat_eq heap.old.cells) property }
    ensures is { Carries (defines nat_eq heap.old.cells loc key property) heap.old result heap.new }
    ensures keys { keys heap.new.cells ≡ keys heap.old.cells }
{
    match heap.cell(loc) {
        Cell::Array { .. } => define_item(alloc, heap, loc, key, property),
        Cell::View { .. } => match index_of(&key) {
            Some(_) => {
                discard(property);
                Ok(SetDone::Refused(Refusal::ReadOnly))
            }
            None => define_in(alloc, heap, loc, key, property),
        },
        _ => define_in(alloc, heap, loc, key, property),
    }
}
