//! The members of built-in objects.
ghost use Rattle.std.specs.Prelude.{◌≡◌, ◌<◌, OnOk, length, slice_index};
ghost use Rattle.world_heap.specs.BuiltIns.{place_of};
ghost use Rattle.world_heap.specs.Table.{put_under};
ghost use Rattle.js_semantics.specs.Faults.{kind_name, kind_number, prototype_of_kind};
ghost use Rattle.js_semantics.specs.Properties.{member};
ghost use Rattle.js_realm.specs.Filling.{Puts};

use js_operators::short_text;
use parcel::ErrorKind;
use std::alloc::{AllocError, Global};
use world_heap::{Loc, Property, Table, Value};

// A member of a built-in object: it can be written and removed, and isn't listed (ECMA-262, 17).
fn member(value: Value) -> Property
    ensures { result ≡ member value }
{
    Property::Data {
        value,
        writable: true,
        enumerable: false,
        configurable: true,
    }
}

// Puts a property under a name.
fn put(
    alloc: Global,
    members: &mut Table<Property>,
    name: &str,
    property: Property,
) -> Result<(), AllocError>
    requires { length name.now < 128 }
    ensures { OnOk result (members.new ≡ put_under members.old name.now property) }
{
    let name = short_text(alloc, name)?;
    members.put(name, property)?;
    Ok(())
}

/// Puts a member with a text.
pub fn put_text(
    alloc: Global,
    places: &[Loc],
    members: &mut Table<Property>,
    name: &str,
    text: &str,
) -> Result<(), AllocError>
    requires name { length name.now < 128 }
    requires text { length text.now < 128 }
    ensures { OnOk result (Puts places.now (λ ms. put_under ms name.now (member (Value.Str text.now))) members.old members.new) }
{
    let text = short_text(alloc, text)?;
    put(alloc, members, name, member(Value::Str(text)))?;
    Ok(())
}

/// Puts a member whose value is undefined.
pub fn put_undefined(
    alloc: Global,
    places: &[Loc],
    members: &mut Table<Property>,
    name: &str,
) -> Result<(), AllocError>
    requires { length name.now < 128 }
    ensures { OnOk result (Puts places.now (λ ms. put_under ms name.now (member Value.Undefined)) members.old members.new) }
{
    put(alloc, members, name, member(Value::Undefined))?;
    Ok(())
}

/// Puts a member whose value is the object at a place.
pub fn put_object(
    alloc: Global,
    places: &[Loc],
    members: &mut Table<Property>,
    name: &str,
    place: usize,
) -> Result<(), AllocError>
    requires name { length name.now < 128 }
    requires place { place < length places.now }
    ensures { OnOk result (Puts places.now (λ ms. put_under ms name.now (member (Value.Ref (slice_index places.now place)))) members.old members.new) }
{
    put(alloc, members, name, member(Value::Ref(places[place])))?;
    Ok(())
}

/// The name of a kind of error (ECMA-262, 20.5.6.3.2).
pub fn kind_name(kind: ErrorKind) -> &'static str
    ensures is { result.now ≡ kind_name kind }
    ensures short { length result.now < 128 }
{
    match kind {
        ErrorKind::Error => "Error",
        ErrorKind::EvalError => "EvalError",
        ErrorKind::RangeError => "RangeError",
        ErrorKind::ReferenceError => "ReferenceError",
        ErrorKind::SyntaxError => "SyntaxError",
        ErrorKind::TypeError => "TypeError",
        ErrorKind::URIError => "URIError",
    }
}

/// The place of a kind of error in the list of all kinds, from 0.
pub fn kind_number(kind: ErrorKind) -> usize
    ensures is { result ≡ kind_number kind }
    ensures few { result < 7 }
{
    match kind {
        ErrorKind::Error => 0,
        ErrorKind::EvalError => 1,
        ErrorKind::RangeError => 2,
        ErrorKind::ReferenceError => 3,
        ErrorKind::SyntaxError => 4,
        ErrorKind::TypeError => 5,
        ErrorKind::URIError => 6,
    }
}

/// The place of the prototype of a kind's errors among the cells of a heap.
pub fn prototype_place(kind: ErrorKind) -> usize
    ensures is { result ≡ place_of (prototype_of_kind kind) }
    ensures few { result < 8 }
{
    1 + kind_number(kind)
}
