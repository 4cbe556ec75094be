//! `typeof` and `delete` of expressions (ECMA-262, 13.5.1 and 13.5.3).
ghost use Rattle.std.specs.Prelude.{◌≡◌, true, ℕ, List, IfOk, IfErr};
ghost use Rattle.world_heap.specs.declared.value.Value.TheVariants.{Bool as Boolean};
ghost use Rattle.js_tree.specs.declared.node.Node as kind;
ghost use Rattle.js_semantics.specs.World.{World, over};
ghost use Rattle.js_semantics.specs.Prog.{eval, give};
ghost use Rattle.js_semantics.specs.Expressions.{give_type, type_word};
ghost use Rattle.js_machine.specs.Does.{Does};
ghost use Rattle.js_machine.specs.Frames.{operand_rest};
ghost use Rattle.js_machine.specs.Closed.{IsClosed, Lasts, ScopeFits, ValueFits};

use crate::entering::enter_operand;
use js_machine::{Next, OperandFrame, State, discard};
use js_operators::{short_text, type_word};
use js_semantics::{Outcome, Scope, StepFault};
use js_tree::NodeId;
use std::alloc::Global;
use wl_text::Units;
use world_heap::{Heap, Value};

/// `typeof` before an expression that is no name (ECMA-262, 13.5.3): enters it.
pub fn row_typeof_value(state: &mut State, operand: NodeId, scope: Scope) -> Result<Next, StepFault>
    ensures does { (nodes : List kind.Node) → IfOk result (λ next. Does nodes 6 (eval operand scope (λ v. give_type v)) state.old state.new next) }
    ensures closed { (nodes : List kind.Node) → IsClosed nodes state.old → ScopeFits nodes state.old.heap.cells scope → Lasts nodes state.old state.new result }
{
    enter_operand(state, OperandFrame::Typeof, operand, scope)
}

// The word for the type of a value, as a text.
fn type_text(alloc: Global, heap: &Heap, value: &Value) -> Result<Units, StepFault>
    ensures is { (w : World ℕ) → IfOk result (λ text. text ≡ type_word value.now (over heap.now w)) }
    ensures closed { IfErr result (λ fault. fault ≡ StepFault.Memory) }
{
    let word = type_word(heap, value);
    Ok(short_text(alloc, word)?)
}

/// Gives the word for the type of a value (ECMA-262, 13.5.3), which counts no units.
pub fn give_type(state: &mut State, value: Value) -> Result<Next, StepFault>
    ensures few { (nodes : List kind.Node) → IfOk result (λ next. Does nodes 2 (give_type value) state.old state.new next) }
    ensures some { (nodes : List kind.Node) → IfOk result (λ next. Does nodes 4 (give_type value) state.old state.new next) }
    ensures many { (nodes : List kind.Node) → IfOk result (λ next. Does nodes 6 (give_type value) state.old state.new next) }
    ensures closed { (nodes : List kind.Node) → IsClosed nodes state.old → ValueFits state.old.heap.cells value → Lasts nodes state.old state.new result }
{
    let text = type_text(state.alloc, &state.heap, &value)?;
    state.give(Outcome::Normal(Value::Str(text)))
}

/// `typeof` with the value of its operand.
pub fn typeof_value(state: &mut State, value: Value) -> Result<Next, StepFault>
    ensures does { (nodes : List kind.Node) → IfOk result (λ next. Does nodes 6 (operand_rest nodes OperandFrame.Typeof value) state.old state.new next) }
    ensures closed { (nodes : List kind.Node) → IsClosed nodes state.old → ValueFits state.old.heap.cells value → Lasts nodes state.old state.new result }
{
    give_type(state, value)
}

/// `delete` before an expression that is no property (ECMA-262, 13.5.1): enters it.
pub fn row_delete_value(state: &mut State, operand: NodeId, scope: Scope) -> Result<Next, StepFault>
    ensures does { (nodes : List kind.Node) → IfOk result (λ next. Does nodes 6 (eval operand scope (λ v. give (Boolean true))) state.old state.new next) }
    ensures closed { (nodes : List kind.Node) → IsClosed nodes state.old → ScopeFits nodes state.old.heap.cells scope → Lasts nodes state.old state.new result }
{
    enter_operand(state, OperandFrame::Delete, operand, scope)
}

/// `delete` with the value of its operand, which is let go: gives true.
pub fn delete_value(state: &mut State, value: Value) -> Result<Next, StepFault>
    ensures does { (nodes : List kind.Node) → IfOk result (λ next. Does nodes 6 (operand_rest nodes OperandFrame.Delete value) state.old state.new next) }
    ensures closed { (nodes : List kind.Node) → IsClosed nodes state.old → ValueFits state.old.heap.cells value → Lasts nodes state.old state.new result }
{
    discard(value);
    state.give(Outcome::Normal(Value::Bool(true)))
}
