//! Operators and properties whose operands are at hand, or are such operators and properties themselves: they are evaluated
//! in place, since nothing of the script runs before they have ended (ECMA-262, 13.3.2 and 13.6 to 13.12).
ghost use Rattle.std.specs.Prelude.{◌≡◌, ◌≢◌, true, ℕ, List, Some, None, IfOk, MatchResult, nat_eq, slice_get};
ghost use Rattle.js_tree.specs.declared.node.Node as kind;
ghost use Rattle.world_heap.specs.Heaps.{IsCell};
ghost use Rattle.world_heap.specs.Over.{OptionOver, ValueOver};
ghost use Rattle.js_names.specs.Patterns.{nodes_of};
ghost use Rattle.js_semantics.specs.Access.{get};
ghost use Rattle.js_semantics.specs.Properties.{made_of};
ghost use Rattle.js_semantics.specs.Operators.{key_of};
ghost use Rattle.js_semantics.specs.Expressions.{apply, row_binary, row_dot, row_index, with_key};
ghost use Rattle.js_semantics.specs.Rows.{row_of};
ghost use Rattle.js_machine.specs.Closed.{IsClosed, ScopeFits, ValueFits};
ghost use Rattle.js_primary.specs.Composed.{BothFit, BothWork, ComesAt, RowWorks, TakesStep, Works};

use crate::at_hand::value_at_hand;
use js_calls::has_unit;
use js_machine::{State, discard, is_cell, node_at};
use js_operators::{Answer, key_of, of_operands, strictly_equal};
use js_semantics::{Scope, StepFault};
use js_tree::{BinaryOperator, Node, NodeId, Tree};
use proto_props::{Got, get_step};
use wl_text::Units;
use world_heap::{Heap, Value};

// What an operator comes to on two numbers, where this is a value.
fn of_numbers(
    state: &State,
    operator: BinaryOperator,
    left: &Value,
    right: &Value,
) -> Result<Option<Value>, StepFault>
    requires plain { operator ≢ BinaryOperator.InstanceOf }
    requires no_in { operator ≢ BinaryOperator.In }
    requires unlike { operator ≢ BinaryOperator.StrictEqual }
    requires like { operator ≢ BinaryOperator.StrictNotEqual }
    ensures is { (nodes : List kind.Node) → IfOk result (λ found. ComesAt nodes (λ k. apply operator left.now right.now k) state.now found) }
    ensures closed { MatchResult result (λ found. OptionOver (ValueFits state.now.heap.cells) found) (λ fault. fault ≡ StepFault.Memory) }
{
    match of_operands(state.alloc, operator, left, right)? {
        Answer::Is(value) => Ok(Some(value)),
        Answer::Makes(text) => {
            discard(text);
            Ok(None)
        }
        Answer::Fails(_) => Ok(None),
    }
}

// Whether both are numbers.
fn are_numbers(left: &Value, right: &Value) -> bool {
    matches!(left, Value::Num(_)) && matches!(right, Value::Num(_))
}

// What an operator comes to on two values, where this is a value that is known at once: of two numbers, or whether two
// values are the same. A text isn't made here.
fn answered(
    state: &State,
    operator: BinaryOperator,
    left: &Value,
    right: &Value,
) -> Result<Option<Value>, StepFault>
    ensures is { (nodes : List kind.Node) → IfOk result (λ found. ComesAt nodes (λ k. apply operator left.now right.now k) state.now found) }
    ensures closed { MatchResult result (λ found. OptionOver (ValueFits state.now.heap.cells) found) (λ fault. fault ≡ StepFault.Memory) }
{
    match operator {
        BinaryOperator::InstanceOf => Ok(None),
        BinaryOperator::In => Ok(None),
        BinaryOperator::StrictEqual => Ok(Some(Value::Bool(strictly_equal(left, right)))),
        BinaryOperator::StrictNotEqual => Ok(Some(Value::Bool(!strictly_equal(left, right)))),
        other => {
            if are_numbers(left, right) {
                of_numbers(state, other, left, right)
            } else {
                Ok(None)
            }
        }
    }
}

// Whether reading a property makes no text: that of an object, or of a text that has no unit under the key.
fn is_read_plainly(heap: &Heap, of: &Value, key: &Units) -> bool
    ensures { result ≡ true → ValueOver (IsCell nat_eq heap.now.cells) of.now × (made_of of.now key.now ≡ None) }
{
    match of {
        Value::Ref(loc) => is_cell(heap, *loc),
        Value::Str(text) => !has_unit(text, key),
        Value::Undefined | Value::Null | Value::Bool(_) | Value::Num(_) => false,
    }
}

// The value of a property, where no getter is called for it, and no text made.
fn property_value(state: &State, of: &Value, key: &Units) -> Result<Option<Value>, StepFault>
    ensures is { (nodes : List kind.Node) → IfOk result (λ found. ComesAt nodes (λ k. get of.now key.now k) state.now found) }
    ensures closed { MatchResult result (λ found. OptionOver (ValueFits state.now.heap.cells) found) (λ fault. fault ≡ StepFault.Memory) }
{
    if !is_read_plainly(&state.heap, of, key) {
        return Ok(None);
    }
    match get_step(state.alloc, &state.heap, of, key)? {
        Got::Value(value) => Ok(Some(value)),
        Got::CallGetter(_) | Got::Absent | Got::Refused => Ok(None),
    }
}

// Takes a step, where one is left.
#[inline(always)]
fn take_step(state: &mut State) -> bool
    ensures { TakesStep state.old state.new result }
{
    if state.steps == 0 {
        return false;
    }
    state.steps -= 1;
    true
}

// The value of a node that is at hand, or is composed in place, with its steps taken.
#[cycle(composed)]
#[inline(always)]
fn operand(
    state: &mut State,
    tree: &Tree,
    node: NodeId,
    scope: &Scope,
    depth: usize,
) -> Result<Option<Value>, StepFault>
    ensures does { IfOk result (λ found. Works (nodes_of tree.now) node scope.now state.old state.new found) }
    ensures closed { IsClosed (nodes_of tree.now) state.old → ScopeFits (nodes_of tree.now) state.old.heap.cells scope.now → MatchResult result (λ found. OptionOver (ValueFits state.old.heap.cells) found) (λ fault. fault ≡ StepFault.Memory) }
{
    match node_at(tree, node) {
        Some(here) => match value_at_hand(state, here, scope)? {
            Some(value) => {
                if take_step(state) {
                    Ok(Some(value))
                } else {
                    discard(value);
                    Ok(None)
                }
            }
            None => composed(state, tree, here, node, scope, depth),
        },
        None => Ok(None),
    }
}

/// The values of two nodes, one after the other, with their steps taken; `None` where one isn't evaluated in place: nothing
/// is done then. The cost is that of `composed`.
///
/// # Errors
/// Those of `composed`.
#[cycle(composed)]
#[inline(always)]
pub(crate) fn operands(
    state: &mut State,
    tree: &Tree,
    left: NodeId,
    right: NodeId,
    scope: &Scope,
    depth: usize,
) -> Result<Option<(Value, Value)>, StepFault>
    ensures does { IfOk result (λ found. BothWork (nodes_of tree.now) left right scope.now state.old state.new found) }
    ensures closed { IsClosed (nodes_of tree.now) state.old → ScopeFits (nodes_of tree.now) state.old.heap.cells scope.now → MatchResult result (λ found. OptionOver (BothFit state.old.heap.cells) found) (λ fault. fault ≡ StepFault.Memory) }
{
    let before = state.steps;
    match operand(state, tree, left, scope, depth)? {
        Some(first) => match operand(state, tree, right, scope, depth)? {
            Some(second) => Ok(Some((first, second))),
            None => {
                discard(first);
                state.steps = before;
                Ok(None)
            }
        },
        None => Ok(None),
    }
}

// The row of an operator between two operands.
#[cycle(composed)]
#[tactic(auto, unfolding(js_semantics::specs::Expressions::row_binary))]
#[inline(always)]
fn binary(
    state: &mut State,
    tree: &Tree,
    operator: BinaryOperator,
    left: NodeId,
    right: NodeId,
    scope: &Scope,
    depth: usize,
) -> Result<Option<Value>, StepFault>
    ensures does { IfOk result (λ found. RowWorks (nodes_of tree.now) (row_binary operator left right scope.now) state.old state.new found) }
    ensures closed { IsClosed (nodes_of tree.now) state.old → ScopeFits (nodes_of tree.now) state.old.heap.cells scope.now → MatchResult result (λ found. OptionOver (ValueFits state.old.heap.cells) found) (λ fault. fault ≡ StepFault.Memory) }
{
    let before = state.steps;
    match operands(state, tree, left, right, scope, depth)? {
        Some((first, second)) => match answered(state, operator, &first, &second)? {
            Some(value) => Ok(Some(value)),
            None => {
                state.steps = before;
                Ok(None)
            }
        },
        None => Ok(None),
    }
}

// The row of a property under a name.
#[cycle(composed)]
#[tactic(auto, unfolding(js_semantics::specs::Expressions::row_dot))]
fn dot(
    state: &mut State,
    tree: &Tree,
    object: NodeId,
    name: &Units,
    scope: &Scope,
    depth: usize,
) -> Result<Option<Value>, StepFault>
    ensures does { IfOk result (λ found. RowWorks (nodes_of tree.now) (row_dot object name.now scope.now) state.old state.new found) }
    ensures closed { IsClosed (nodes_of tree.now) state.old → ScopeFits (nodes_of tree.now) state.old.heap.cells scope.now → MatchResult result (λ found. OptionOver (ValueFits state.old.heap.cells) found) (λ fault. fault ≡ StepFault.Memory) }
{
    let before = state.steps;
    match operand(state, tree, object, scope, depth)? {
        Some(base) => match property_value(state, &base, name)? {
            Some(value) => Ok(Some(value)),
            None => {
                state.steps = before;
                Ok(None)
            }
        },
        None => Ok(None),
    }
}

// The value of a property under a key that is evaluated.
fn keyed_value(state: &State, of: &Value, key: &Value) -> Result<Option<Value>, StepFault>
    ensures is { (nodes : List kind.Node) → IfOk result (λ found. ComesAt nodes (λ k. with_key (key_of key.now) (λ text. get of.now text k)) state.now found) }
    ensures closed { MatchResult result (λ found. OptionOver (ValueFits state.now.heap.cells) found) (λ fault. fault ≡ StepFault.Memory) }
{
    match key_of(state.alloc, key)? {
        Some(text) => property_value(state, of, &text),
        None => Ok(None),
    }
}

// The row of a property under a key that is evaluated.
#[cycle(composed)]
#[tactic(auto, unfolding(js_semantics::specs::Expressions::row_index))]
fn index(
    state: &mut State,
    tree: &Tree,
    object: NodeId,
    key: NodeId,
    scope: &Scope,
    depth: usize,
) -> Result<Option<Value>, StepFault>
    ensures does { IfOk result (λ found. RowWorks (nodes_of tree.now) (row_index object key scope.now) state.old state.new found) }
    ensures closed { IsClosed (nodes_of tree.now) state.old → ScopeFits (nodes_of tree.now) state.old.heap.cells scope.now → MatchResult result (λ found. OptionOver (ValueFits state.old.heap.cells) found) (λ fault. fault ≡ StepFault.Memory) }
{
    let before = state.steps;
    match operands(state, tree, object, key, scope, depth)? {
        Some((base, at)) => match keyed_value(state, &base, &at)? {
            Some(value) => Ok(Some(value)),
            None => {
                state.steps = before;
                Ok(None)
            }
        },
        None => Ok(None),
    }
}

// The row of an operator or a property, by its kind; of any other node nothing is done.
#[cycle(composed)]
#[tactic(auto, unfolding(js_semantics::specs::Rows::row_of))]
fn row(
    state: &mut State,
    tree: &Tree,
    here: &Node,
    node: NodeId,
    scope: &Scope,
    depth: usize,
) -> Result<Option<Value>, StepFault>
    ensures does { IfOk result (λ found. RowWorks (nodes_of tree.now) (row_of (Some here.now) node scope.now) state.old state.new found) }
    ensures closed { IsClosed (nodes_of tree.now) state.old → ScopeFits (nodes_of tree.now) state.old.heap.cells scope.now → MatchResult result (λ found. OptionOver (ValueFits state.old.heap.cells) found) (λ fault. fault ≡ StepFault.Memory) }
{
    match here {
        Node::Binary {
            operator,
            left,
            right,
        } => binary(state, tree, *operator, *left, *right, scope, depth),
        Node::Dot { object, name } => dot(state, tree, *object, name, scope, depth),
        Node::Index { object, key } => index(state, tree, *object, *key, scope, depth),
        _ => Ok(None),
    }
}

/// The value of an operator or a property whose operands are at hand, or are such operators and properties themselves, at
/// most so deep: their steps are taken. `None` where one isn't, where a getter would be called, a text made or an error
/// thrown, or where too few steps are left: nothing is done then. The cost is that of the names and properties that are
/// read, of which there are at most two to the power of the depth.
///
/// Condition: the node stands in the tree under its number.
///
/// # Errors
/// `Memory` where there is none; `Dangling` where the global object stands nowhere, which is never in a closed state.
#[cycle(composed)]
pub(crate) fn composed(
    state: &mut State,
    tree: &Tree,
    here: &Node,
    node: NodeId,
    scope: &Scope,
    depth: usize,
) -> Result<Option<Value>, StepFault>
    requires { slice_get (nodes_of tree.now) node.0 ≡ Some here.now }
    ensures does { IfOk result (λ found. Works (nodes_of tree.now) node scope.now state.old state.new found) }
    ensures closed { IsClosed (nodes_of tree.now) state.old → ScopeFits (nodes_of tree.now) state.old.heap.cells scope.now → MatchResult result (λ found. OptionOver (ValueFits state.old.heap.cells) found) (λ fault. fault ≡ StepFault.Memory) }
{
    if depth == 0 || state.steps == 0 {
        return Ok(None);
    }
    let before = state.steps;
    state.steps = before - 1;
    match row(state, tree, here, node, scope, depth - 1)? {
        Some(value) => Ok(Some(value)),
        None => {
            state.steps = before;
            Ok(None)
        }
    }
}
