//! What the console shows of arguments.
ghost use Rattle.std.specs.Prelude.{◌≡◌, ◌≤◌, ℕ, true, length, OnOk, IfOk};
ghost use Rattle.wl_text.specs.Answer.{Gives};
ghost use Rattle.js_semantics.specs.World.{World, over};
ghost use Rattle.js_semantics.specs.Display.{display, line_of};
ghost use Rattle.js_display.specs.Line.{Says};
ghost use Rattle.js_display.specs.Levels.{joined, space};

use crate::line::Line;
use crate::values::show_value;
use std::alloc::{AllocError, Global};
use wl_text::{TextFault, Units};
use world_heap::{Heap, Value};

/// The greatest number of units in a line.
const LINE: usize = 65_536;

/// How many levels of an object or an array are opened.
const LEVELS: u32 = 2;

/// How many elements and properties of an argument are shown.
const SHOWN: usize = 200;

// Shows an argument: a text is itself.
fn show_argument(
    alloc: Global,
    heap: &Heap,
    argument: &Value,
    line: &mut Line,
) -> Result<(), AllocError>
    ensures { (w : World ℕ) → OnOk result (Says line.old (display (over heap.now w) argument.now) line.new) }
{
    line.allow(SHOWN);
    match argument {
        Value::Str(text) => line.put(text.as_slice()),
        other => show_value(alloc, heap, &[], LEVELS, other, line),
    }
}

// What stands before an argument.
fn space(first: bool) -> &'static str
    ensures { result.now ≡ space first }
{
    if first { "" } else { " " }
}

// Shows arguments with one space between them, until the line is full.
fn show_all(
    alloc: Global,
    heap: &Heap,
    arguments: &[Value],
    line: &mut Line,
) -> Result<(), AllocError>
    requires { length line.old.text ≤ line.old.limit }
    ensures { (w : World ℕ) → OnOk result (Says line.old (joined (over heap.now w) true arguments.now) line.new) }
{
    let mut first = true;
    'arguments: for argument in arguments {
        if line.is_full() {
            return Ok(());
        }
        line.put_word(space(first))?;
        show_argument(alloc, heap, argument, line)?;
        first = false;
    }
    Ok(())
}

/// What `console.log` shows of a value: a text is itself, and of another value two levels are opened, and 200 elements
/// and properties shown (Console Standard, 2.1 and 2.3). It is too long exactly where it has more than 1,048,576 units,
/// and no longer text is made.
///
/// The cost is linear in what is shown, but for the keys of each object that is met, which are sorted.
pub fn display(alloc: Global, heap: &Heap, value: &Value) -> Result<Units, TextFault>
    ensures { (w : World ℕ) → Gives result (display (over heap.now w) value.now) }
{
    let mut line = Line::new(alloc, Units::LIMIT + 1);
    show_argument(alloc, heap, value, &mut line)?;
    Units::of_units(alloc, line.text())
}

/// The line that `console.log` prints of its arguments (Console Standard, 2.1): what is shown of each, with one space
/// between them, cut after 65,536 units. No longer text is made, and where the line is full, no further argument is
/// looked at.
///
/// The cost is linear in what is shown, but for the keys of each object that is met, which are sorted.
pub fn line_of(alloc: Global, heap: &Heap, arguments: &[Value]) -> Result<Units, AllocError>
    ensures { (w : World ℕ) → IfOk result (λ line. line ≡ line_of (over heap.now w) arguments.now) }
{
    let mut line = Line::new(alloc, LINE);
    show_all(alloc, heap, arguments, &mut line)?;
    match Units::of_units(alloc, line.text()) {
        Ok(text) => Ok(text),
        Err(_) => Err(AllocError),
    }
}
