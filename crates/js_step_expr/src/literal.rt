//! `this` and literals (ECMA-262, 13.2).
ghost use Rattle.std.specs.Prelude.{◌≡◌, List, IfOk};
ghost use Rattle.world_heap.specs.declared.value.Value.TheVariants.{Str};
ghost use Rattle.js_tree.specs.declared.node.Node as kind;
ghost use Rattle.js_semantics.specs.Prog.{give};
ghost use Rattle.js_semantics.specs.Expressions.{row_this};
ghost use Rattle.js_machine.specs.Does.{Does};
ghost use Rattle.js_machine.specs.Closed.{IsClosed, Lasts, ScopeFits, ValueFits};

use js_machine::{Next, State};
use js_semantics::{Outcome, Scope, StepFault};
use wl_text::Units;
use world_heap::Value;

/// `this` (ECMA-262, 13.2.1): the receiver of the scope.
#[tactic(auto, unfolding(js_semantics::specs::Expressions::row_this))]
pub fn row_this(state: &mut State, scope: Scope) -> Result<Next, StepFault>
    ensures does { (nodes : List kind.Node) → IfOk result (λ next. Does nodes 6 (row_this scope) state.old state.new next) }
    ensures closed { (nodes : List kind.Node) → IsClosed nodes state.old → ScopeFits nodes state.old.heap.cells scope → Lasts nodes state.old state.new result }
{
    let Scope { receiver, .. } = scope;
    state.give(Outcome::Normal(receiver))
}

/// A literal that is no string (ECMA-262, 13.2.3): its value.
pub fn row_literal(state: &mut State, value: Value) -> Result<Next, StepFault>
    ensures does { (nodes : List kind.Node) → IfOk result (λ next. Does nodes 6 (give value) state.old state.new next) }
    ensures closed { (nodes : List kind.Node) → IsClosed nodes state.old → ValueFits state.old.heap.cells value → Lasts nodes state.old state.new result }
{
    state.give(Outcome::Normal(value))
}

/// A string literal (ECMA-262, 13.2.3): a copy of its text, which counts no units. The cost is linear in its units.
pub fn row_text(state: &mut State, text: &Units) -> Result<Next, StepFault>
    ensures does { (nodes : List kind.Node) → IfOk result (λ next. Does nodes 6 (give (Str text.now)) state.old state.new next) }
    ensures closed { (nodes : List kind.Node) → IsClosed nodes state.old → Lasts nodes state.old state.new result }
{
    let text = text.copy(state.alloc)?;
    state.give(Outcome::Normal(Value::Str(text)))
}
