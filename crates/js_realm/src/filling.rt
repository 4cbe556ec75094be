//! Members that are put into the cells of a realm.
ghost use Rattle.std.specs.Prelude.{◌<◌, ◌≤◌, OnOk, length, nat_eq};
ghost use Rattle.world_heap.specs.Heaps.{IsWell};
ghost use Rattle.js_semantics.specs.Realm.{error_kinds, realm_length};
ghost use Rattle.js_realm.specs.Filling.{AreWithin, Fills, IsOpen, filled, with_all, with_console, with_error, with_errors, with_global, with_module};

use crate::members::{kind_number, prototype_place};
use crate::tables::{
    console_members, function_members, global_members, main_members, preload_members,
    prototype_members,
};
use parcel::ErrorKind;
use std::alloc::{AllocError, Global};
use world_heap::{Body, Heap, Loc, Property, Table, body};
use world_kind::WorldKind;

/// The place of the global object among the cells of a heap.
const GLOBAL: usize = 16;

/// The place of the console.
const CONSOLE: usize = 17;

/// The place of the first of the built-in functions, which stand in the order of their numbers.
const NATIVES: usize = 18;

/// The place of the module with the calls of Electron.
const MODULE: usize = 30;

// Lets a value go. A generic function keeps the cases of its drop out of its callers' proofs.
fn discard<T: Drop>(_value: T) {}

// Puts members into the object at a place, in the place of those that it has. It takes no memory.
//
// The heap's cells stand at these locations and are objects; the place is one of them, and the members refer to such
// objects alone.
fn fill(heap: &mut Heap, places: &[Loc], place: usize, members: Table<Property>)
    requires heap { IsOpen places.now heap.old }
    requires place { place < length places.now }
    requires members { AreWithin places.now members }
    ensures does { Fills places.now (filled place members) heap.old heap.new }
    ensures well { IsWell nat_eq heap.new.cells }
{
    let loc = places[place];
    let (proto, extensible) = match body(heap.cell(loc)) {
        Some(body) => (body.proto, body.extensible),
        None => unreachable!(),
    };
    discard(heap.replace_body(
        loc,
        Body {
            proto,
            properties: members,
            extensible,
        },
    ));
}

// Fills the prototype and the function of a kind of error (ECMA-262, 20.5.2, 20.5.3 and 20.5.6).
fn fill_error(
    alloc: Global,
    heap: &mut Heap,
    places: &[Loc],
    kind: ErrorKind,
) -> Result<(), AllocError>
    requires heap { IsOpen places.now heap.old }
    requires places { 30 ≤ length places.now }
    ensures { OnOk result (Fills places.now (with_error places.now kind) heap.old heap.new) }
{
    let prototype = prototype_members(alloc, places, kind)?;
    let function = function_members(alloc, places, kind)?;
    fill(heap, places, prototype_place(kind), prototype);
    fill(heap, places, NATIVES + 4 + kind_number(kind), function);
    Ok(())
}

// Fills those of all kinds of error.
fn fill_errors(alloc: Global, heap: &mut Heap, places: &[Loc]) -> Result<(), AllocError>
    requires heap { IsOpen places.now heap.old }
    requires places { 30 ≤ length places.now }
    ensures { OnOk result (Fills places.now (with_errors places.now error_kinds) heap.old heap.new) }
{
    fill_error(alloc, heap, places, ErrorKind::Error)?;
    fill_error(alloc, heap, places, ErrorKind::EvalError)?;
    fill_error(alloc, heap, places, ErrorKind::RangeError)?;
    fill_error(alloc, heap, places, ErrorKind::ReferenceError)?;
    fill_error(alloc, heap, places, ErrorKind::SyntaxError)?;
    fill_error(alloc, heap, places, ErrorKind::TypeError)?;
    fill_error(alloc, heap, places, ErrorKind::URIError)?;
    Ok(())
}

// Fills the global object (ECMA-262, 19).
fn fill_global(
    alloc: Global,
    heap: &mut Heap,
    places: &[Loc],
    kind: WorldKind,
) -> Result<(), AllocError>
    requires heap { IsOpen places.now heap.old }
    requires places { 30 ≤ length places.now }
    ensures { OnOk result (Fills places.now (with_global places.now kind) heap.old heap.new) }
{
    let members = global_members(alloc, places, kind)?;
    fill(heap, places, GLOBAL, members);
    Ok(())
}

// Fills the console (Console Standard, 1.1).
fn fill_console(alloc: Global, heap: &mut Heap, places: &[Loc]) -> Result<(), AllocError>
    requires heap { IsOpen places.now heap.old }
    requires places { 30 ≤ length places.now }
    ensures does { OnOk result (Fills places.now (with_console places.now) heap.old heap.new) }
    ensures well { OnOk result (IsWell nat_eq heap.new.cells) }
{
    let members = console_members(alloc, places)?;
    fill(heap, places, CONSOLE, members);
    Ok(())
}

// Fills the module with the calls of Electron, where the kind of world has one.
fn fill_module(
    alloc: Global,
    heap: &mut Heap,
    places: &[Loc],
    kind: WorldKind,
) -> Result<(), AllocError>
    requires heap { IsOpen places.now heap.old }
    requires places { realm_length kind ≤ length places.now }
    ensures does { OnOk result (Fills places.now (with_module places.now kind) heap.old heap.new) }
    ensures keeps { OnOk result (IsWell nat_eq heap.old.cells → IsWell nat_eq heap.new.cells) }
{
    match kind {
        WorldKind::Main => {
            let members = main_members(alloc, places)?;
            fill(heap, places, MODULE, members);
            Ok(())
        }
        WorldKind::Preload => {
            let members = preload_members(alloc, places)?;
            fill(heap, places, MODULE, members);
            Ok(())
        }
        WorldKind::Page => Ok(()),
    }
}

/// Fills all built-in objects with their members. For want of memory some are filled, and others not.
///
/// The heap's cells stand at these locations and are objects, and there are those of the kind of world.
pub fn fill_realm(
    alloc: Global,
    heap: &mut Heap,
    places: &[Loc],
    kind: WorldKind,
) -> Result<(), AllocError>
    requires heap { IsOpen places.now heap.old }
    requires places { realm_length kind ≤ length places.now }
    ensures does { OnOk result (Fills places.now (with_all places.now kind) heap.old heap.new) }
    ensures well { OnOk result (IsWell nat_eq heap.new.cells) }
{
    fill_errors(alloc, heap, places)?;
    fill_global(alloc, heap, places, kind)?;
    fill_console(alloc, heap, places)?;
    fill_module(alloc, heap, places, kind)?;
    Ok(())
}
