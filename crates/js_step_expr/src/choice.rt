//! Operators that evaluate one of their operands or the other: `&&`, `||`, `??`, `?:` and the comma (ECMA-262, 13.13,
//! 13.14 and 13.16).
ghost use Rattle.std.specs.Prelude.{◌≡◌, if◌then◌else◌, List, IfOk};
ghost use Rattle.js_tree.specs.declared.node.Node as kind;
ghost use Rattle.js_semantics.specs.Operators.{is_truthy};
ghost use Rattle.js_semantics.specs.Expressions.{row_and, row_or, row_nullish, row_cond, row_seq};
ghost use Rattle.js_machine.specs.Does.{Does};
ghost use Rattle.js_machine.specs.Frames.{operand_rest};
ghost use Rattle.js_machine.specs.Closed.{IsClosed, Lasts, ScopeFits, ValueFits};

use crate::entering::{enter_operand, pass};
use js_machine::{Next, OperandFrame, State, copy_scope, discard};
use js_operators::is_truthy;
use js_semantics::{Outcome, Scope, StepFault};
use js_tree::NodeId;
use world_heap::Value;

/// `left && right` (ECMA-262, 13.13): enters the left side.
#[tactic(auto, unfolding(js_semantics::specs::Expressions::row_and))]
pub fn row_and(
    state: &mut State,
    left: NodeId,
    right: NodeId,
    scope: Scope,
) -> Result<Next, StepFault>
    ensures does { (nodes : List kind.Node) → IfOk result (λ next. Does nodes 6 (row_and left right scope) state.old state.new next) }
    ensures closed { (nodes : List kind.Node) → IsClosed nodes state.old → ScopeFits nodes state.old.heap.cells scope → Lasts nodes state.old state.new result }
{
    let inner = copy_scope(state.alloc, &scope)?;
    enter_operand(state, OperandFrame::And { right, scope }, left, inner)
}

/// `&&` with the value of its left side: gives it where it counts as false, and else enters the right side.
pub fn and_left(
    state: &mut State,
    right: NodeId,
    scope: Scope,
    left: Value,
) -> Result<Next, StepFault>
    ensures does { (nodes : List kind.Node) → IfOk result (λ next. Does nodes 6 (operand_rest nodes (OperandFrame.And right scope) left) state.old state.new next) }
    ensures closed { (nodes : List kind.Node) → IsClosed nodes state.old → ScopeFits nodes state.old.heap.cells scope → ValueFits state.old.heap.cells left → Lasts nodes state.old state.new result }
{
    if !is_truthy(&left) {
        return state.give(Outcome::Normal(left));
    }
    pass(state, right, scope)
}

/// `left || right` (ECMA-262, 13.13): enters the left side.
#[tactic(auto, unfolding(js_semantics::specs::Expressions::row_or))]
pub fn row_or(
    state: &mut State,
    left: NodeId,
    right: NodeId,
    scope: Scope,
) -> Result<Next, StepFault>
    ensures does { (nodes : List kind.Node) → IfOk result (λ next. Does nodes 6 (row_or left right scope) state.old state.new next) }
    ensures closed { (nodes : List kind.Node) → IsClosed nodes state.old → ScopeFits nodes state.old.heap.cells scope → Lasts nodes state.old state.new result }
{
    let inner = copy_scope(state.alloc, &scope)?;
    enter_operand(state, OperandFrame::Or { right, scope }, left, inner)
}

/// `||` with the value of its left side: gives it where it counts as true, and else enters the right side.
pub fn or_left(
    state: &mut State,
    right: NodeId,
    scope: Scope,
    left: Value,
) -> Result<Next, StepFault>
    ensures does { (nodes : List kind.Node) → IfOk result (λ next. Does nodes 6 (operand_rest nodes (OperandFrame.Or right scope) left) state.old state.new next) }
    ensures closed { (nodes : List kind.Node) → IsClosed nodes state.old → ScopeFits nodes state.old.heap.cells scope → ValueFits state.old.heap.cells left → Lasts nodes state.old state.new result }
{
    if is_truthy(&left) {
        state.give(Outcome::Normal(left))
    } else {
        pass(state, right, scope)
    }
}

/// `left ?? right` (ECMA-262, 13.13): enters the left side.
#[tactic(auto, unfolding(js_semantics::specs::Expressions::row_nullish))]
pub fn row_nullish(
    state: &mut State,
    left: NodeId,
    right: NodeId,
    scope: Scope,
) -> Result<Next, StepFault>
    ensures does { (nodes : List kind.Node) → IfOk result (λ next. Does nodes 6 (row_nullish left right scope) state.old state.new next) }
    ensures closed { (nodes : List kind.Node) → IsClosed nodes state.old → ScopeFits nodes state.old.heap.cells scope → Lasts nodes state.old state.new result }
{
    let inner = copy_scope(state.alloc, &scope)?;
    enter_operand(state, OperandFrame::Nullish { right, scope }, left, inner)
}

/// `??` with the value of its left side: enters the right side where it is undefined or null, and else gives it.
pub fn nullish_left(
    state: &mut State,
    right: NodeId,
    scope: Scope,
    left: Value,
) -> Result<Next, StepFault>
    ensures does { (nodes : List kind.Node) → IfOk result (λ next. Does nodes 6 (operand_rest nodes (OperandFrame.Nullish right scope) left) state.old state.new next) }
    ensures closed { (nodes : List kind.Node) → IsClosed nodes state.old → ScopeFits nodes state.old.heap.cells scope → ValueFits state.old.heap.cells left → Lasts nodes state.old state.new result }
{
    match left {
        Value::Undefined => pass(state, right, scope),
        Value::Null => pass(state, right, scope),
        left => state.give(Outcome::Normal(left)),
    }
}

/// `test ? first : second` (ECMA-262, 13.14): enters the test.
#[tactic(auto, unfolding(js_semantics::specs::Expressions::row_cond))]
pub fn row_cond(
    state: &mut State,
    test: NodeId,
    first: NodeId,
    second: NodeId,
    scope: Scope,
) -> Result<Next, StepFault>
    ensures does { (nodes : List kind.Node) → IfOk result (λ next. Does nodes 6 (row_cond test first second scope) state.old state.new next) }
    ensures closed { (nodes : List kind.Node) → IsClosed nodes state.old → ScopeFits nodes state.old.heap.cells scope → Lasts nodes state.old state.new result }
{
    let inner = copy_scope(state.alloc, &scope)?;
    let frame = OperandFrame::Cond {
        first,
        second,
        scope,
    };
    enter_operand(state, frame, test, inner)
}

// The node that a test chooses.
fn chosen(test: &Value, first: NodeId, second: NodeId) -> NodeId
    ensures { result ≡ (if is_truthy test.now then first else second) }
{
    if is_truthy(test) { first } else { second }
}

/// `?:` with the value of its test: enters the first expression where it counts as true, and else the second.
pub fn cond_test(
    state: &mut State,
    first: NodeId,
    second: NodeId,
    scope: Scope,
    test: Value,
) -> Result<Next, StepFault>
    ensures does { (nodes : List kind.Node) → IfOk result (λ next. Does nodes 6 (operand_rest nodes (OperandFrame.Cond first second scope) test) state.old state.new next) }
    ensures closed { (nodes : List kind.Node) → IsClosed nodes state.old → ScopeFits nodes state.old.heap.cells scope → ValueFits state.old.heap.cells test → Lasts nodes state.old state.new result }
{
    let node = chosen(&test, first, second);
    pass(state, node, scope)
}

/// `first, second` (ECMA-262, 13.16): enters the first expression.
#[tactic(auto, unfolding(js_semantics::specs::Expressions::row_seq))]
pub fn row_seq(
    state: &mut State,
    first: NodeId,
    second: NodeId,
    scope: Scope,
) -> Result<Next, StepFault>
    ensures does { (nodes : List kind.Node) → IfOk result (λ next. Does nodes 6 (row_seq first second scope) state.old state.new next) }
    ensures closed { (nodes : List kind.Node) → IsClosed nodes state.old → ScopeFits nodes state.old.heap.cells scope → Lasts nodes state.old state.new result }
{
    let inner = copy_scope(state.alloc, &scope)?;
    enter_operand(state, OperandFrame::Seq { second, scope }, first, inner)
}

/// The comma with the value of its first expression, which is let go: enters the second one.
pub fn seq_first(
    state: &mut State,
    second: NodeId,
    scope: Scope,
    first: Value,
) -> Result<Next, StepFault>
    ensures does { (nodes : List kind.Node) → IfOk result (λ next. Does nodes 6 (operand_rest nodes (OperandFrame.Seq second scope) first) state.old state.new next) }
    ensures closed { (nodes : List kind.Node) → IsClosed nodes state.old → ScopeFits nodes state.old.heap.cells scope → ValueFits state.old.heap.cells first → Lasts nodes state.old state.new result }
{
    discard(first);
    pass(state, second, scope)
}
