//! What an operator comes to: a value, or the end of the step.
ghost use Rattle.std.specs.Prelude.{◌≡◌, ℕ, List, IfOk};
ghost use Rattle.world_heap.specs.declared.value.Value as values;
ghost use Rattle.js_tree.specs.declared.node.Node as kind;
ghost use Rattle.js_semantics.specs.Prog.{Prog, give, make_text};
ghost use Rattle.js_semantics.specs.Expressions.{compute};
ghost use Rattle.js_operators.specs.Answers.{computed_of};
ghost use Rattle.js_machine.specs.Does.{Does};
ghost use Rattle.js_step_expr.specs.Settling.{Settles};
ghost use Rattle.js_machine.specs.Closed.{GoesOn, IsClosed, Lasts};
ghost use Rattle.js_step_expr.specs.Fitting.{AnswerFits, LastsWith, SettledFits};

use js_machine::{Next, State, stopped};
use js_operators::Answer;
use js_semantics::{Outcome, StepFault};
use wl_text::Units;
use world_heap::Value;
use world_log::Stop;

/// Makes a text: its units are counted, or the world stops where they would pass the limit.
pub fn make_text(state: &mut State, text: Units) -> Result<Value, Next>
    ensures does { (nodes : List kind.Node) (k : values.Value ℕ → Prog ℕ) → Settles nodes (make_text text k) k state.old state.new result }
    ensures closed { (nodes : List kind.Node) → IsClosed nodes state.old → GoesOn nodes state.old state.new × SettledFits state.new.heap.cells result }
{
    if state.count_units(text.len()) {
        Ok(Value::Str(text))
    } else {
        Err(stopped(Stop::Units))
    }
}

/// What an operator's answer comes to: its value; a text that it makes, once its units are counted; or the end of the
/// step, where the text's units would pass the limit or an error is thrown.
///
/// # Errors
/// `Memory` where there is none, `Dangling` where the prototype of errors stands nowhere.
#[inline(always)]
pub fn settle(state: &mut State, answer: Answer) -> Result<Result<Value, Next>, StepFault>
    ensures does { (nodes : List kind.Node) (k : values.Value ℕ → Prog ℕ) → IfOk result (λ settled. Settles nodes (compute (computed_of answer) k) k state.old state.new settled) }
    ensures closed { (nodes : List kind.Node) → IsClosed nodes state.old → AnswerFits state.old.heap.cells answer → LastsWith SettledFits nodes state.old state.new result }
{
    match answer {
        Answer::Is(value) => Ok(Ok(value)),
        Answer::Makes(text) => Ok(make_text(state, text)),
        Answer::Fails(fault) => Ok(Err(state.throw(fault)?)),
    }
}

/// Ends a row with what an operator's answer comes to.
///
/// # Errors
/// `Memory` where there is none, `Dangling` where the prototype of errors stands nowhere.
pub fn finish(state: &mut State, answer: Answer) -> Result<Next, StepFault>
    ensures does { (nodes : List kind.Node) → IfOk result (λ next. Does nodes 6 (compute (computed_of answer) (λ v. give v)) state.old state.new next) }
    ensures closed { (nodes : List kind.Node) → IsClosed nodes state.old → AnswerFits state.old.heap.cells answer → Lasts nodes state.old state.new result }
{
    match settle(state, answer)? {
        Ok(value) => state.give(Outcome::Normal(value)),
        Err(next) => Ok(next),
    }
}
