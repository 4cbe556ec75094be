//! The members of each built-in object.
ghost use Rattle.std.specs.Prelude.{◌≤◌, ◌+◌, [], ◌∷◌, IfOk, OnOk, codes, length};
ghost use Rattle.world_heap.specs.BuiltIns.{place_of};
ghost use Rattle.js_semantics.specs.Faults.{prototype_of_kind};
ghost use Rattle.js_semantics.specs.Realm.{error_kinds, error_names, global_members, member_at, members_from, members_of_kind, module_names, module_place, natives_place};
ghost use Rattle.js_realm.specs.Building.{supply_of};
ghost use Rattle.js_realm.specs.Filling.{AreMembers, Puts, prototype_members, put_all};

use crate::members::{kind_name, prototype_place, put_object, put_text, put_undefined};
use parcel::ErrorKind;
use std::alloc::{AllocError, Global};
use world_heap::{Loc, Property, Table};
use world_kind::WorldKind;

/// The members of the prototype of a kind of error: its name, and an empty message (ECMA-262, 20.5.3 and 20.5.6.3).
pub fn prototype_members(
    alloc: Global,
    places: &[Loc],
    kind: ErrorKind,
) -> Result<Table<Property>, AllocError>
    ensures { IfOk result (λ members. AreMembers places.now (prototype_members kind) members) }
{
    let mut members = Table::new(alloc);
    put_text(alloc, places, &mut members, "name", kind_name(kind))?;
    put_text(alloc, places, &mut members, "message", "")?;
    Ok(members)
}

/// The member of the function of a kind of error: its prototype (ECMA-262, 20.5.2 and 20.5.6.2).
pub fn function_members(
    alloc: Global,
    places: &[Loc],
    kind: ErrorKind,
) -> Result<Table<Property>, AllocError>
    requires { 30 ≤ length places.now }
    ensures { IfOk result (λ members. AreMembers places.now (member_at (supply_of places.now) (codes "prototype") (place_of (prototype_of_kind kind))) members) }
{
    let mut members = Table::new(alloc);
    put_object(
        alloc,
        places,
        &mut members,
        "prototype",
        prototype_place(kind),
    )?;
    Ok(members)
}

// Puts the functions of errors.
fn put_errors(
    alloc: Global,
    places: &[Loc],
    members: &mut Table<Property>,
) -> Result<(), AllocError>
    requires { 30 ≤ length places.now }
    ensures { OnOk result (Puts places.now (put_all (members_from (supply_of places.now) (natives_place + 4) (error_names (supply_of places.now) error_kinds))) members.old members.new) }
{
    put_object(alloc, places, members, "Error", 22)?;
    put_object(alloc, places, members, "EvalError", 23)?;
    put_object(alloc, places, members, "RangeError", 24)?;
    put_object(alloc, places, members, "ReferenceError", 25)?;
    put_object(alloc, places, members, "SyntaxError", 26)?;
    put_object(alloc, places, members, "TypeError", 27)?;
    put_object(alloc, places, members, "URIError", 28)?;
    Ok(())
}

// Puts what only some kinds of world have (HTML, 7.2.2: window).
fn put_of_kind(
    alloc: Global,
    places: &[Loc],
    members: &mut Table<Property>,
    kind: WorldKind,
) -> Result<(), AllocError>
    requires { 30 ≤ length places.now }
    ensures { OnOk result (Puts places.now (put_all (members_of_kind (supply_of places.now) kind)) members.old members.new) }
{
    match kind {
        WorldKind::Main => {
            put_object(alloc, places, members, "require", 29)?;
            Ok(())
        }
        WorldKind::Preload => {
            put_object(alloc, places, members, "window", 16)?;
            put_object(alloc, places, members, "require", 29)?;
            Ok(())
        }
        WorldKind::Page => {
            put_object(alloc, places, members, "window", 16)?;
            Ok(())
        }
    }
}

/// The members of the global object of a kind of world (ECMA-262, 19).
pub fn global_members(
    alloc: Global,
    places: &[Loc],
    kind: WorldKind,
) -> Result<Table<Property>, AllocError>
    requires { 30 ≤ length places.now }
    ensures { IfOk result (λ members. AreMembers places.now (global_members (supply_of places.now) kind) members) }
{
    let mut members = Table::new(alloc);
    put_object(alloc, places, &mut members, "globalThis", 16)?;
    put_undefined(alloc, places, &mut members, "undefined")?;
    put_object(alloc, places, &mut members, "console", 17)?;
    put_errors(alloc, places, &mut members)?;
    put_of_kind(alloc, places, &mut members, kind)?;
    Ok(members)
}

/// The members of the console (Console Standard, 1.1).
pub fn console_members(alloc: Global, places: &[Loc]) -> Result<Table<Property>, AllocError>
    requires { 30 ≤ length places.now }
    ensures { IfOk result (λ members. AreMembers places.now (members_from (supply_of places.now) natives_place (codes "log" ∷ codes "info" ∷ codes "warn" ∷ codes "error" ∷ [])) members) }
{
    let mut members = Table::new(alloc);
    put_object(alloc, places, &mut members, "log", 18)?;
    put_object(alloc, places, &mut members, "info", 19)?;
    put_object(alloc, places, &mut members, "warn", 20)?;
    put_object(alloc, places, &mut members, "error", 21)?;
    Ok(members)
}

/// The members of the module of the main process.
pub fn main_members(alloc: Global, places: &[Loc]) -> Result<Table<Property>, AllocError>
    requires { 35 ≤ length places.now }
    ensures { IfOk result (λ members. AreMembers places.now (members_from (supply_of places.now) (module_place + 1) (module_names WorldKind.Main)) members) }
{
    let mut members = Table::new(alloc);
    put_object(alloc, places, &mut members, "ipcMain", 31)?;
    put_object(alloc, places, &mut members, "webContents", 32)?;
    put_object(alloc, places, &mut members, "app", 33)?;
    put_object(alloc, places, &mut members, "MessageChannelMain", 34)?;
    Ok(members)
}

/// The members of the module of a preload script.
pub fn preload_members(alloc: Global, places: &[Loc]) -> Result<Table<Property>, AllocError>
    requires { 33 ≤ length places.now }
    ensures { IfOk result (λ members. AreMembers places.now (members_from (supply_of places.now) (module_place + 1) (module_names WorldKind.Preload)) members) }
{
    let mut members = Table::new(alloc);
    put_object(alloc, places, &mut members, "contextBridge", 31)?;
    put_object(alloc, places, &mut members, "ipcRenderer", 32)?;
    Ok(members)
}
