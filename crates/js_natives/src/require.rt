//! `require`, which gives the module with the calls of Electron.
ghost use Rattle.std.specs.Prelude.{◌≡◌, List, IfOk, MatchOption, MatchResult, None, Some, codes, nat_eq, true};
ghost use Rattle.js_tree.specs.declared.node.Node as kind;
ghost use Rattle.world_heap.specs.Heaps.{IsNoEnv};
ghost use Rattle.world_heap.specs.Over.{OptionOver};
ghost use Rattle.js_semantics.specs.Natives.{is_module, missing_module, row_require, throw_message};
ghost use Rattle.js_semantics.specs.Prog.{End, make_error};
ghost use Rattle.js_semantics.specs.Properties.{same_text};
ghost use Rattle.js_semantics.specs.Realm.{module_of};
ghost use Rattle.js_machine.specs.Does.{Does};
ghost use Rattle.js_machine.specs.Closed.{IsClosed, Lasts};
ghost use Rattle.js_natives.specs.Arguments.{by_name, module_in, name_given, name_value, named};

use js_machine::{Next, State, stopped};
use js_semantics::{Fault, Outcome, StepFault};
use parcel::ErrorKind;
use std::alloc::Global;
use wl_text::Units;
use world_heap::{Heap, Loc, Value};
use world_kind::WorldKind;
use world_log::Stop;

/// The text `electron`.
const ELECTRON: [u16; 8] = [101, 108, 101, 99, 116, 114, 111, 110];

/// The text `electron/main`.
const MAIN: [u16; 13] = [101, 108, 101, 99, 116, 114, 111, 110, 47, 109, 97, 105, 110];

/// The text `electron/renderer`.
const RENDERER: [u16; 17] = [
    101, 108, 101, 99, 116, 114, 111, 110, 47, 114, 101, 110, 100, 101, 114, 101, 114,
];

/// The text that stands before the name of a module that isn't there.
const MISSING: [u16; 20] = [
    67, 97, 110, 110, 111, 116, 32, 102, 105, 110, 100, 32, 109, 111, 100, 117, 108, 101, 32, 39,
];

/// The place of the module with the calls of Electron among the cells of a heap.
const MODULE_PLACE: usize = 30;

/// The greatest number of units in the message of an error that is put together.
const MESSAGE: usize = 65_536;

// Whether a name is that of the module of every kind of world that has one.
fn is_electron(name: &Units) -> bool
    ensures { result ≡ same_text name.now (codes "electron") }
{
    name.as_slice() == ELECTRON.as_slice()
}

// Whether a name is that of the module of the main process alone.
fn is_main(name: &Units) -> bool
    ensures { result ≡ same_text name.now (codes "electron/main") }
{
    name.as_slice() == MAIN.as_slice()
}

// Whether a name is that of the module of a preload script alone.
fn is_renderer(name: &Units) -> bool
    ensures { result ≡ same_text name.now (codes "electron/renderer") }
{
    name.as_slice() == RENDERER.as_slice()
}

// Whether a name is that of the module that stands in a world of this kind.
fn is_module(kind: WorldKind, name: &Units) -> bool
    ensures { result ≡ is_module kind name.now }
{
    match kind {
        WorldKind::Main => is_electron(name) || is_main(name),
        WorldKind::Preload => is_electron(name) || is_renderer(name),
        WorldKind::Page => false,
    }
}

// The text that a value is, where it is a string.
fn name_value(value: &Value) -> Option<&Units>
    ensures { MatchOption result (name_value value.now ≡ None) (λ name. name_value value.now ≡ Some name.now) }
{
    match value {
        Value::Str(text) => Some(text),
        Value::Undefined | Value::Null | Value::Bool(_) | Value::Num(_) | Value::Ref(_) => None,
    }
}

// The name that the arguments give, where it is a string.
fn name_given(arguments: &[Value]) -> Option<&Units>
    ensures { MatchOption result (name_given arguments.now ≡ None) (λ name. name_given arguments.now ≡ Some name.now) }
{
    match arguments.split_first() {
        Some((value, _)) => name_value(value),
        None => None,
    }
}

// The units of the message about a module that isn't there.
fn missing_units(alloc: Global, name: &Units) -> Result<Vec<u16>, StepFault>
    ensures { MatchResult result (λ list. list.items ≡ missing_module name.now) (λ fault. fault ≡ StepFault.Memory) }
{
    let mut list = Vec::from_slice(alloc, MISSING.as_slice())?;
    list.extend_from_slice(name.as_slice())?;
    list.push(39)?;
    list.truncate(MESSAGE);
    Ok(list)
}

// The message about a module that isn't there.
fn missing_module(alloc: Global, name: &Units) -> Result<Units, StepFault>
    ensures { MatchResult result (λ message. message ≡ missing_module name.now) (λ fault. fault ≡ StepFault.Memory) }
{
    let list = missing_units(alloc, name)?;
    match Units::of_units(alloc, list.as_slice()) {
        Ok(message) => Ok(message),
        Err(_) => Err(StepFault::Memory),
    }
}

// Makes an error with a message and throws it.
fn thrown(state: &mut State, message: Units) -> Result<Next, StepFault>
    ensures does { (nodes : List kind.Node) → IfOk result (λ next. Does nodes 6 (make_error ErrorKind.Error (Some message) (λ loc. End (Outcome.Thrown (Value.Ref loc)))) state.old state.new next) }
    ensures closed { (nodes : List kind.Node) → IsClosed nodes state.old → Lasts nodes state.old state.new result }
{
    match state.make_error(ErrorKind::Error, Some(message))? {
        Ok(loc) => state.give(Outcome::Thrown(Value::Ref(loc))),
        Err(stop) => Ok(stopped(stop)),
    }
}

// Counts the units of a message, and throws an error with it.
fn throw_message(state: &mut State, message: Units) -> Result<Next, StepFault>
    ensures does { (nodes : List kind.Node) → IfOk result (λ next. Does nodes 6 (throw_message message) state.old state.new next) }
    ensures closed { (nodes : List kind.Node) → IsClosed nodes state.old → Lasts nodes state.old state.new result }
{
    if state.count_units(message.len()) {
        thrown(state, message)
    } else {
        Ok(stopped(Stop::Units))
    }
}

// Throws an error that tells the name of a module that isn't there.
fn missing(state: &mut State, name: &Units) -> Result<Next, StepFault>
    ensures does { (nodes : List kind.Node) → IfOk result (λ next. Does nodes 6 (throw_message (missing_module name.now)) state.old state.new next) }
    ensures closed { (nodes : List kind.Node) → IsClosed nodes state.old → Lasts nodes state.old state.new result }
{
    match missing_module(state.alloc, name) {
        Ok(message) => throw_message(state, message),
        Err(fault) => Err(fault),
    }
}

// Gives the module that stands at a location where it has this name, or throws.
fn at_location(state: &mut State, loc: Loc, name: &Units) -> Result<Next, StepFault>
    ensures does { (nodes : List kind.Node) → IfOk result (λ next. Does nodes 6 (named state.old.kind (Some loc) name.now) state.old state.new next) }
    ensures closed { (nodes : List kind.Node) → IsClosed nodes state.old → (is_module state.old.kind name.now ≡ true → IsNoEnv nat_eq state.old.heap.cells loc) → Lasts nodes state.old state.new result }
{
    if is_module(state.kind, name) {
        state.give(Outcome::Normal(Value::Ref(loc)))
    } else {
        missing(state, name)
    }
}

// Gives the module where it stands and has this name, or throws.
fn require_named(state: &mut State, electron: Option<Loc>, name: &Units) -> Result<Next, StepFault>
    ensures does { (nodes : List kind.Node) → IfOk result (λ next. Does nodes 6 (named state.old.kind electron name.now) state.old state.new next) }
    ensures closed { (nodes : List kind.Node) → IsClosed nodes state.old → (is_module state.old.kind name.now ≡ true → OptionOver (IsNoEnv nat_eq state.old.heap.cells) electron) → Lasts nodes state.old state.new result }
{
    match electron {
        Some(loc) => at_location(state, loc, name),
        None => missing(state, name),
    }
}

// The location of the module with the calls of Electron, where there is one.
fn module_in(heap: &Heap) -> Option<Loc>
    ensures { result ≡ module_in heap.now }
{
    heap.location(MODULE_PLACE)
}

// Gives the module of the world where it has this name, or throws.
fn require_module(state: &mut State, name: &Units) -> Result<Next, StepFault>
    ensures does { (nodes : List kind.Node) → IfOk result (λ next. Does nodes 6 (by_name (Some name.now)) state.old state.new next) }
    ensures closed { (nodes : List kind.Node) → IsClosed nodes state.old → Lasts nodes state.old state.new result }
{
    let electron = module_in(&state.heap);
    require_named(state, electron, name)
}

/// The row of a call of `require`: the module with the calls of Electron for its names in a world of this kind, and else
/// an error that tells the name, whose message counts its units. An argument that is no string throws. The cost is linear
/// in the name.
///
/// # Errors
/// `Memory` where there is none; `Dangling` where the prototype of errors stands nowhere.
pub fn row_require(state: &mut State, arguments: &[Value]) -> Result<Next, StepFault>
    ensures does { (nodes : List kind.Node) → IfOk result (λ next. Does nodes 6 (row_require module_of arguments.now) state.old state.new next) }
    ensures closed { (nodes : List kind.Node) → IsClosed nodes state.old → Lasts nodes state.old state.new result }
{
    match name_given(arguments) {
        Some(name) => require_module(state, name),
        None => state.throw(Fault::WrongArgument),
    }
}
