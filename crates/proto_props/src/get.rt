//! Reading a property (ECMA-262, 10.1.8, 10.4.2, 10.4.3 and 10.4.5).
ghost use Rattle.std.specs.Prelude.{◌≡◌, ◌+◌, ℕ, List, Some, IfOk, slice_get, nat_eq};
ghost use Rattle.world_heap.specs.declared.cell.Cell as kept;
ghost use Rattle.world_heap.specs.Over.{ListOver, PropertyOver, ValueOver};
ghost use Rattle.world_heap.specs.Heaps.{IsCell, IsNoEnv, Fits};
ghost use Rattle.proto_props.specs.Gets.{GotOver, byte_at, got_of, own_property, got_at, gets, string_got, text_got, text_unit};
ghost use Rattle.world_heap.specs.Maps.{keys};
ghost use Rattle.proto_props.specs.Standing.{ReachStands};
ghost use Rattle.world_heap.specs.Table.{found_under};

use crate::chain::{Reach, search_from};
use crate::own::names_length;
use std::alloc::{AllocError, Global};
use wl_text::{Units, index_of};
use world_heap::{Body, BuiltIn, Cell, Heap, Loc, Property, Value, body};

/// What reading a property gives: its value; or the getter that is to be called; or nothing, where there is no such
/// property; or a refusal, where the value has no properties.
#[derive(Drop)]
pub enum Got<L = Loc> {
    Value(Value<L>),
    CallGetter(L),
    Absent,
    Refused,
}

/// The greatest whole number that a value may be.
const GREATEST: usize = 9_007_199_254_740_991;

// A byte of a buffer, and 0 where there is none.
fn byte_of(heap: &Heap, buffer: Loc, at: usize) -> u8
    requires { IsCell nat_eq heap.now.cells buffer }
    ensures { result ≡ byte_at nat_eq heap.now.cells buffer at }
{
    match heap.cell(buffer) {
        Cell::Buffer { bytes, .. } => bytes.get(at).copied().unwrap_or(0),
        _ => 0,
    }
}

// What a property gives.
fn told(alloc: Global, property: &Property) -> Result<Got, AllocError>
    ensures is { IfOk result (λ got. got ≡ got_of (Some property.now)) }
    ensures fits { (cells : List (ℕ × kept.Cell ℕ)) → PropertyOver (IsNoEnv nat_eq cells) property.now → IfOk result (λ got. GotOver (IsNoEnv nat_eq cells) got) }
{
    match property {
        Property::Data { value, .. } => Ok(Got::Value(value.copy(alloc)?)),
        Property::Access { get, .. } => match get {
            Some(getter) => Ok(Got::CallGetter(*getter)),
            None => Ok(Got::Value(Value::Undefined)),
        },
    }
}

// What a property of a body gives.
fn body_told(alloc: Global, body: &Body, key: &Units) -> Result<Got, AllocError>
    ensures is { IfOk result (λ got. got ≡ got_of (found_under body.now.properties key.now)) }
    ensures fits { (cells : List (ℕ × kept.Cell ℕ)) → ListOver (λ m. PropertyOver (IsNoEnv nat_eq cells) m.1) body.now.properties → IfOk result (λ got. GotOver (IsNoEnv nat_eq cells) got) }
{
    match body.properties.get(key) {
        Some(property) => told(alloc, property),
        None => Ok(Got::Absent),
    }
}

// What an own property of a cell gives.
fn own_told(alloc: Global, heap: &Heap, cell: &Cell, key: &Units) -> Result<Got, AllocError>
    requires { Fits nat_eq heap.now.cells cell.now }
    ensures is { IfOk result (λ got. got ≡ got_of (own_property nat_eq heap.now.cells cell.now key.now)) }
    ensures fits { IfOk result (λ got. GotOver (IsNoEnv nat_eq heap.now.cells) got) }
{
    match cell {
        Cell::Array { items, .. } => {
            if names_length(key) {
                return Ok(Got::Value(Value::Num(items.len().min(GREATEST) as i64)));
            }
            match index_of(key) {
                None => Ok(Got::Absent),
                Some(index) => match items.get(index as usize) {
                    Some(item) => Ok(Got::Value(item.copy(alloc)?)),
                    None => Ok(Got::Absent),
                },
            }
        }
        Cell::View {
            body,
            buffer,
            offset,
            length,
        } => match index_of(key) {
            None => body_told(alloc, body, key),
            Some(index) => {
                if index >= *length {
                    return Ok(Got::Absent);
                }
                let byte = byte_of(heap, *buffer, *offset as usize + index as usize);
                Ok(Got::Value(Value::Num(i64::from(byte))))
            }
        },
        other => match body(other) {
            Some(body) => body_told(alloc, body, key),
            None => Ok(Got::Absent),
        },
    }
}

// What the property gives that a search has found.
fn reached_told(alloc: Global, heap: &Heap, reach: Reach, key: &Units) -> Result<Got, AllocError>
    requires { ReachStands heap.now.cells reach }
    ensures is { IfOk result (λ got. got ≡ got_at nat_eq heap.now.cells key.now reach) }
    ensures fits { IfOk result (λ got. GotOver (IsNoEnv nat_eq heap.now.cells) got) }
{
    match reach {
        Reach::Has(at) => own_told(alloc, heap, heap.cell(at), key),
        Reach::Past => Ok(Got::Absent),
        Reach::Nowhere => Ok(Got::Absent),
    }
}

// The unit of a text at the index that the key is, as a text of its own.
fn unit_of(alloc: Global, text: &Units, key: &Units) -> Result<Option<Units>, AllocError>
    ensures { IfOk result (λ unit. unit ≡ text_unit text.now key.now) }
{
    match index_of(key) {
        None => Ok(None),
        Some(index) => {
            let index = index as usize;
            if index >= text.len() {
                return Ok(None);
            }
            Ok(Some(text.part(alloc, index, index + 1)?))
        }
    }
}

// What a property of the prototype of strings gives.
fn string_told(alloc: Global, heap: &Heap, key: &Units) -> Result<Got, AllocError>
    ensures is { IfOk result (λ got. got ≡ string_got nat_eq heap.now.cells key.now (slice_get (keys heap.now.cells) 10)) }
    ensures fits { IfOk result (λ got. GotOver (IsNoEnv nat_eq heap.now.cells) got) }
{
    match heap.built_in(BuiltIn::StringPrototype) {
        Some(proto) => reached_told(alloc, heap, search_from(heap, proto, key), key),
        None => Ok(Got::Absent),
    }
}

// What a property of a text gives: its length, one of its units, or what its prototype has.
fn text_told(alloc: Global, heap: &Heap, text: &Units, key: &Units) -> Result<Got, AllocError>
    ensures is { IfOk result (λ got. got ≡ text_got nat_eq heap.now.cells text.now key.now) }
    ensures fits { IfOk result (λ got. GotOver (IsNoEnv nat_eq heap.now.cells) got) }
{
    if names_length(key) {
        return Ok(Got::Value(Value::Num(text.len() as i64)));
    }
    match unit_of(alloc, text, key)? {
        Some(unit) => Ok(Got::Value(Value::Str(unit))),
        None => string_told(alloc, heap, key),
    }
}

/// What reading a property of a value gives. The value's location stands.
///
/// It is refused exactly where the value is undefined or null. Numbers, booleans and symbols have no properties; a text
/// has `length`, its units, and what the prototype of strings has. What it gives may stand in a cell of the heap: it holds
/// no environment, and its numbers are in range.
pub fn get_step(alloc: Global, heap: &Heap, of: &Value, key: &Units) -> Result<Got, AllocError>
    requires { ValueOver (IsCell nat_eq heap.now.cells) of.now }
    ensures is { IfOk result (λ got. got ≡ gets nat_eq heap.now.cells of.now key.now) }
    ensures fits { IfOk result (λ got. GotOver (IsNoEnv nat_eq heap.now.cells) got) }
{
    match of {
        Value::Undefined => Ok(Got::Refused),
        Value::Null => Ok(Got::Refused),
        Value::Bool(_) => Ok(Got::Absent),
        Value::Num(_) => Ok(Got::Absent),
        Value::Str(text) => text_told(alloc, heap, text, key),
        Value::Ref(at) => reached_told(alloc, heap, search_from(heap, *at, key), key),
    }
}
