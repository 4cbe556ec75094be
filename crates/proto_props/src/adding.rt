//! New properties of cells (ECMA-262, 10.1.6, 10.4.2 and 10.4.5).
ghost use Rattle.std.specs.Prelude.{◌≡◌, nat_eq};
ghost use Rattle.world_heap.specs.Maps.{find};
ghost use Rattle.world_heap.specs.Over.{PropertyOver};
ghost use Rattle.world_heap.specs.Heaps.{IsNoEnv, IsCell};
ghost use Rattle.proto_props.specs.Adds.{value_with, unnamed, added, IsArray};
ghost use Rattle.proto_props.specs.Changes.{Carries};

use crate::outcome::{Refusal, SetDone};
use crate::remove::discard;
use crate::writing::{add_property, push_item};
use std::alloc::Global;
use wl_text::{Units, index_of};
use world_heap::{Cell, Heap, HeapFault, Loc, Property, Value, body};

/// The value of a data property that has these attributes, where it is one.
pub fn value_of(
    property: Property,
    writable: bool,
    enumerable: bool,
    configurable: bool,
) -> Option<Value>
    ensures { result ≡ value_with writable enumerable configurable property }
{
    match property {
        Property::Data {
            value,
            writable: writes,
            enumerable: lists,
            configurable: changes,
        } => {
            if writable == writes && enumerable == lists && configurable == changes {
                Some(value)
            } else {
                discard(value);
                None
            }
        }
        Property::Access { .. } => None,
    }
}

// Why a new key isn't taken, where the object could else be extended or not.
fn unnamed_in(extensible: bool) -> Refusal
    ensures { result ≡ unnamed extensible }
{
    if extensible {
        Refusal::Named
    } else {
        Refusal::NotExtensible
    }
}

// Adds a property to an array.
fn add_item(
    alloc: Global,
    heap: &mut Heap,
    loc: Loc,
    key: &Units,
    property: Property,
) -> Result<SetDone, HeapFault>
    requires array { IsArray heap.old.cells loc }
    requires fits { PropertyOver (IsNoEnv nat_eq heap.old.cells) property }
    ensures { Carries (added (find nat_eq heap.old.cells loc) loc key.now property) heap.old result heap.new }
{
    let (next, frozen) = match heap.cell(loc) {
        Cell::Array { items, frozen, .. } => (items.len(), *frozen),
        _ => unreachable!(),
    };
    let index = match index_of(key) {
        Some(index) => index as usize,
        None => {
            discard(property);
            return Ok(SetDone::Refused(unnamed_in(!frozen)));
        }
    };
    let value = match value_of(property, true, true, true) {
        Some(value) => value,
        None => return Ok(SetDone::Refused(Refusal::ReadOnly)),
    };
    if frozen {
        discard(value);
        return Ok(SetDone::Refused(Refusal::NotExtensible));
    }
    if index != next {
        discard(value);
        return Ok(SetDone::Refused(Refusal::Hole));
    }
    push_item(alloc, heap, loc, value)
}

/// Adds a property under a key that is no own key of the cell, or tells why not.
pub fn add(
    alloc: Global,
    heap: &mut Heap,
    loc: Loc,
    key: Units,
    property: Property,
) -> Result<SetDone, HeapFault>
    requires stands { IsCell nat_eq heap.old.cells loc }
    requires fits { PropertyOver (IsNoEnv nat_eq heap.old.cells) property }
    ensures { Carries (added (find nat_eq heap.old.cells loc) loc key property) heap.old result heap.new }
{
    match heap.cell(loc) {
        Cell::Array { .. } => add_item(alloc, heap, loc, &key, property),
        Cell::Buffer { body, .. } => {
            discard(property);
            Ok(SetDone::Refused(unnamed_in(body.extensible)))
        }
        Cell::View { body, .. } => {
            discard(property);
            Ok(SetDone::Refused(unnamed_in(body.extensible)))
        }
        other => match body(other) {
            Some(body) if body.extensible => add_property(alloc, heap, loc, key, property),
            _ => {
                discard(property);
                Ok(SetDone::Refused(Refusal::NotExtensible))
            }
        },
    }
}
