//! `console.log` and its kin (Console Standard, 1.1).
ghost use Rattle.std.specs.Prelude.{◌≡◌, ℕ, List, IfOk, length};
ghost use Rattle.js_tree.specs.declared.node.Node as kind;
ghost use Rattle.js_semantics.specs.Natives.{row_console};
ghost use Rattle.js_semantics.specs.Prog.{Make, count_units, give};
ghost use Rattle.js_machine.specs.Does.{Does};
ghost use Rattle.js_machine.specs.Closed.{IsClosed, Lasts};

use js_display::line_of;
use js_machine::{Control, Next, State, stopped};
use js_semantics::{Outcome, StepFault};
use wl_text::Units;
use world_heap::Value;
use world_log::{Level, Product, Stop};

// Tells a line, and gives undefined.
fn told(state: &mut State, level: Level, text: Units) -> Result<Next, StepFault>
    ensures does { (nodes : List kind.Node) → IfOk result (λ next. Does nodes 6 (Make (Product.Console level text) (give Value.Undefined)) state.old state.new next) }
    ensures closed { (nodes : List kind.Node) → IsClosed nodes state.old → Lasts nodes state.old state.new result }
{
    state.turn_to(Control::Give(Outcome::Normal(Value::Undefined)));
    Ok(Next::Made(Product::Console(level, text)))
}

// Counts the units of a line, and tells it.
fn counted(state: &mut State, level: Level, text: Units) -> Result<Next, StepFault>
    ensures does { (nodes : List kind.Node) → IfOk result (λ next. Does nodes 6 (count_units (length text) (Make (Product.Console level text) (give Value.Undefined))) state.old state.new next) }
    ensures closed { (nodes : List kind.Node) → IsClosed nodes state.old → Lasts nodes state.old state.new result }
{
    if state.count_units(text.len()) {
        told(state, level, text)
    } else {
        Ok(stopped(Stop::Units))
    }
}

/// The row of a call of the console: the line of its arguments counts its units and is told, and undefined is given. The
/// cost is that of the line.
///
/// # Errors
/// `Memory` where there is none.
pub fn row_console(state: &mut State, level: Level, arguments: &[Value]) -> Result<Next, StepFault>
    ensures does { (nodes : List kind.Node) → IfOk result (λ next. Does nodes 6 (row_console level arguments.now) state.old state.new next) }
    ensures closed { (nodes : List kind.Node) → IsClosed nodes state.old → Lasts nodes state.old state.new result }
{
    let text = line_of(state.alloc, &state.heap, arguments)?;
    counted(state, level, text)
}
