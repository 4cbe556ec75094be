//! What is shown of a cell that isn't opened.
ghost use Rattle.std.specs.Prelude.{◌≡◌, ◌++◌, Some, Bool, OnOk, codes};
ghost use Rattle.std.specs.Option.{option_copied};
ghost use Rattle.world_heap.specs.declared.value.Property.TheVariants.{Data};
ghost use Rattle.world_heap.specs.Table.{found_under};
ghost use Rattle.js_semantics.specs.Display.{error_word, message_text};
ghost use Rattle.js_display.specs.Line.{more};
ghost use Rattle.js_display.specs.Levels.{cell_text};

use crate::line::Line;
use std::alloc::{AllocError, Global};
use wl_text::Units;
use world_heap::{Body, Cell, Property, Table, Value};

// The text `message`.
const MESSAGE: [u16; 7] = [109, 101, 115, 115, 97, 103, 101];

// The word of an error's kind (ECMA-262, 20.5.5).
fn error_word(kind: u8) -> &'static str
    ensures { result.now ≡ error_word kind }
{
    match kind {
        1 => "EvalError",
        2 => "RangeError",
        3 => "ReferenceError",
        4 => "SyntaxError",
        5 => "TypeError",
        6 => "URIError",
        _ => "Error",
    }
}

// The own property `message`. The cost is linear in the properties before it.
fn message(properties: &Table<Property>) -> Option<&Property>
    ensures { option_copied result ≡ found_under properties.now (codes "message") }
{
    'names: for at in 0..properties.len() {
        let name = properties.name(at);
        if MESSAGE.as_slice() == name.as_slice() {
            return properties.get(name);
        }
    }
    None
}

// Puts the message of an error, where it is a text that isn't empty.
fn put_text(line: &mut Line, message: &Value) -> Result<(), AllocError>
    ensures { (w e c : Bool) → OnOk result (line.new ≡ more (message_text (Some (Data message.now w e c))) line.old) }
{
    match message {
        Value::Str(text) => {
            if text.is_empty() {
                return line.put_word("");
            }
            line.put_word(": ")?;
            line.put(text.as_slice())
        }
        _ => line.put_word(""),
    }
}

// Puts the message of an error, where the property has one.
fn put_message(line: &mut Line, property: &Property) -> Result<(), AllocError>
    ensures { OnOk result (line.new ≡ more (message_text (Some property.now)) line.old) }
{
    match property {
        Property::Data { value, .. } => put_text(line, value),
        Property::Access { .. } => line.put_word(""),
    }
}

// Puts the word of an error, and its message.
fn put_error(line: &mut Line, body: &Body, kind: u8) -> Result<(), AllocError>
    ensures { OnOk result (line.new ≡ more (error_word kind ++ message_text (found_under body.now.properties (codes "message"))) line.old) }
{
    line.put_word(error_word(kind))?;
    match message(&body.properties) {
        Some(property) => put_message(line, property),
        None => line.put_word(""),
    }
}

// Puts a symbol with its text.
fn put_symbol(line: &mut Line, text: &Units) -> Result<(), AllocError>
    ensures { OnOk result (line.new ≡ more (codes "Symbol(" ++ (text.now ++ codes ")")) line.old) }
{
    line.put_word("Symbol(")?;
    line.put(text.as_slice())?;
    line.put_word(")")
}

/// Puts what is shown of a cell that isn't opened; of an object and an array that is nothing.
pub(crate) fn put_cell(alloc: Global, line: &mut Line, cell: &Cell) -> Result<(), AllocError>
    ensures { OnOk result (line.new ≡ more (cell_text cell.now) line.old) }
{
    match cell {
        Cell::Object { .. } | Cell::Array { .. } | Cell::Env { .. } => line.put_word(""),
        Cell::Closure { .. } | Cell::Native { .. } | Cell::Far { .. } => {
            line.put_word("[Function]")
        }
        Cell::Error { body, kind } => put_error(line, body, *kind),
        Cell::Map { entries, .. } => line.put_sized(alloc, "Map(", entries.len()),
        Cell::Set { entries, .. } => line.put_sized(alloc, "Set(", entries.len()),
        Cell::Promise { .. } => line.put_word("Promise"),
        Cell::Port { .. } => line.put_word("MessagePort"),
        Cell::Buffer { bytes, .. } => line.put_sized(alloc, "ArrayBuffer(", bytes.len()),
        Cell::View { length, .. } => line.put_sized(alloc, "Uint8Array(", *length as usize),
        Cell::Symbol { text: None } => line.put_word("Symbol()"),
        Cell::Symbol { text: Some(text) } => put_symbol(line, text),
    }
}
