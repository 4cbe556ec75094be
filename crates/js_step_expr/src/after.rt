//! What follows a reading or the call of a setter, where no more code is called.
ghost use Rattle.std.specs.Prelude.{List, IfOk};
ghost use Rattle.js_tree.specs.declared.node.Node as kind;
ghost use Rattle.js_machine.specs.Does.{Does};
ghost use Rattle.js_machine.specs.Frames.{after_rest};
ghost use Rattle.js_machine.specs.Closed.{IsClosed, Lasts, ValueFits};

use crate::types::give_type;
use js_machine::{AfterFrame, Next, State};
use js_semantics::{Outcome, StepFault};
use world_heap::Value;

/// The value that was read is that of the row.
pub fn after_give(state: &mut State, value: Value) -> Result<Next, StepFault>
    ensures does { (nodes : List kind.Node) → IfOk result (λ next. Does nodes 4 (after_rest nodes AfterFrame.Give value) state.old state.new next) }
    ensures closed { (nodes : List kind.Node) → IsClosed nodes state.old → ValueFits state.old.heap.cells value → Lasts nodes state.old state.new result }
{
    state.give(Outcome::Normal(value))
}

/// `typeof` with the value that was read of a name.
pub fn after_typeof(state: &mut State, value: Value) -> Result<Next, StepFault>
    ensures does { (nodes : List kind.Node) → IfOk result (λ next. Does nodes 4 (after_rest nodes AfterFrame.Typeof value) state.old state.new next) }
    ensures closed { (nodes : List kind.Node) → IsClosed nodes state.old → ValueFits state.old.heap.cells value → Lasts nodes state.old state.new result }
{
    give_type(state, value)
}
