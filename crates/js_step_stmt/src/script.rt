//! The end of a script (ECMA-262, 16.1.6: ScriptEvaluation).
ghost use Rattle.std.specs.Prelude.{◌≡◌, ◌∷◌, [], ℕ, List, IfOk, length};
ghost use Rattle.js_tree.specs.declared.node.Node as kind;
ghost use Rattle.js_semantics.specs.declared.mode.Mode.TheVariants.{Idle};
ghost use Rattle.world_log.specs.declared.entry.Product.TheVariants.{Uncaught};
ghost use Rattle.js_semantics.specs.Display.{line_of};
ghost use Rattle.js_semantics.specs.Prog.{Make, count_units};
ghost use Rattle.js_semantics.specs.Run.{at_rest};
ghost use Rattle.js_machine.specs.Does.{Does, world_of};
ghost use Rattle.js_machine.specs.Frames.{rest};
ghost use Rattle.js_machine.specs.Closed.{IsClosed, Lasts, OutcomeFits, ValueFits};

use js_display::line_of;
use js_machine::{Control, Frame, Next, State, stopped};
use js_semantics::{Mode, Outcome, StepFault};
use wl_text::Units;
use world_heap::Value;
use world_log::{Product, Stop};

// The task is done.
fn rested(state: &mut State) -> Result<Next, StepFault>
    ensures does { (nodes : List kind.Node) → IfOk result (λ next. Does nodes 2 (at_rest Idle) state.old state.new next) }
    ensures closed { (nodes : List kind.Node) → IsClosed nodes state.old → Lasts nodes state.old state.new result }
{
    state.turn_to(Control::AtRest(Mode::Idle));
    Ok(Next::Go)
}

// Tells of an uncaught value, and the task is done.
fn told(state: &mut State, text: Units) -> Result<Next, StepFault>
    ensures does { (nodes : List kind.Node) → IfOk result (λ next. Does nodes 2 (Make (Uncaught text) (at_rest Idle)) state.old state.new next) }
    ensures closed { (nodes : List kind.Node) → IsClosed nodes state.old → Lasts nodes state.old state.new result }
{
    state.turn_to(Control::AtRest(Mode::Idle));
    Ok(Next::Made(Product::Uncaught(text)))
}

// Counts the units of what is told of an uncaught value, and tells it.
fn counted(state: &mut State, text: Units) -> Result<Next, StepFault>
    ensures does { (nodes : List kind.Node) → IfOk result (λ next. Does nodes 2 (count_units (length text) (Make (Uncaught text) (at_rest Idle))) state.old state.new next) }
    ensures closed { (nodes : List kind.Node) → IsClosed nodes state.old → Lasts nodes state.old state.new result }
{
    if state.count_units(text.len()) {
        told(state, text)
    } else {
        Ok(stopped(Stop::Units))
    }
}

// Shows a value that nothing caught.
fn uncaught(state: &mut State, value: Value) -> Result<Next, StepFault>
    ensures does { (nodes : List kind.Node) → IfOk result (λ next. Does nodes 2 (rest nodes Frame.Script (Outcome.Thrown value)) state.old state.new next) }
    ensures closed { (nodes : List kind.Node) → IsClosed nodes state.old → ValueFits state.old.heap.cells value → Lasts nodes state.old state.new result }
{
    let text = line_of(state.alloc, &state.heap, &[value])?;
    counted(state, text)
}

/// The end of the script: a thrown value that nothing caught is shown, and the task is done.
pub fn script_end(state: &mut State, outcome: Outcome) -> Result<Next, StepFault>
    ensures does { (nodes : List kind.Node) → IfOk result (λ next. Does nodes 2 (rest nodes Frame.Script outcome) state.old state.new next) }
    ensures closed { (nodes : List kind.Node) → IsClosed nodes state.old → OutcomeFits nodes state.old.heap.cells outcome → Lasts nodes state.old state.new result }
{
    match outcome {
        Outcome::Thrown(value) => uncaught(state, value),
        _ => rested(state),
    }
}
