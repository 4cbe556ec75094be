//! What follows the reading of a name or property (ECMA-262, 13.4 and 13.15).
ghost use Rattle.std.specs.Prelude.{◌≡◌, ◌≢◌, IfOk, List, MatchResult, if◌then◌else◌};
ghost use Rattle.js_tree.specs.declared.node.Node as kind;
ghost use Rattle.js_machine.specs.Closed.{IsClosed, Lasts, PlaceFits, ScopeFits, ValueFits};
ghost use Rattle.js_machine.specs.Does.{Does};
ghost use Rattle.js_machine.specs.Frames.{after_rest, write_place};
ghost use Rattle.js_names.specs.Patterns.{nodes_of};
ghost use Rattle.js_semantics.specs.Prog.{give};
ghost use Rattle.js_semantics.specs.Expressions.{apply, updated};

use crate::writing::{assign_place, write_place};
use js_machine::{AfterFrame, Frame, Next, OperandFrame, Place, State, ValueFrame, discard};
use js_operators::moved;
use js_primary::{Taken, take_value};
use js_semantics::{Fault, Scope, StepFault};
use js_step_expr::{apply, settle};
use js_tree::{BinaryOperator, NodeId, Tree, UpdateOperator};
use std::alloc::Global;
use world_heap::Value;

// The value of an update: the new number where the operator stands before its target, and else the old one.
fn value_of(alloc: Global, before: bool, changed: &Value, number: i64) -> Result<Value, StepFault>
    ensures { MatchResult result (λ value. value ≡ (if before then changed.now else Value.Num number)) (λ fault. fault ≡ StepFault.Memory) }
{
    if before {
        Ok(changed.copy(alloc)?)
    } else {
        Ok(Value::Num(number))
    }
}

// Writes the new number of an update, and gives it or the old one.
fn write_update(
    state: &mut State,
    tree: &Tree,
    before: bool,
    place: Place,
    changed: Value,
    number: i64,
) -> Result<Next, StepFault>
    ensures does { IfOk result (λ next. Does (nodes_of tree.now) 4 (write_place (nodes_of tree.now) place changed (give (if before then changed else Value.Num number))) state.old state.new next) }
    ensures closed { IsClosed (nodes_of tree.now) state.old → PlaceFits (nodes_of tree.now) state.old.heap.cells place → ValueFits state.old.heap.cells changed → ValueFits state.old.heap.cells (Value.Num number) → Lasts (nodes_of tree.now) state.old state.new result }
{
    let value = value_of(state.alloc, before, &changed, number)?;
    write_place(state, tree, place, changed, value)
}

// Updates a number.
fn update(
    state: &mut State,
    tree: &Tree,
    operator: UpdateOperator,
    before: bool,
    place: Place,
    number: i64,
) -> Result<Next, StepFault>
    ensures does { IfOk result (λ next. Does (nodes_of tree.now) 4 (updated operator before (Value.Num number) (λ changed p. write_place (nodes_of tree.now) place changed p)) state.old state.new next) }
    ensures closed { IsClosed (nodes_of tree.now) state.old → PlaceFits (nodes_of tree.now) state.old.heap.cells place → ValueFits state.old.heap.cells (Value.Num number) → Lasts (nodes_of tree.now) state.old state.new result }
{
    let answer = moved(operator, number);
    match settle(state, answer)? {
        Ok(changed) => write_update(state, tree, before, place, changed, number),
        Err(next) => {
            discard(place);
            Ok(next)
        }
    }
}

/// The old value of the target of `++` or `--`: a number is written that is greater or less by one, and it or the old one
/// given. What is no number is the error `WrongOperand`, and a result out of range the error `NotAWholeNumber`.
pub fn after_update(
    state: &mut State,
    tree: &Tree,
    operator: UpdateOperator,
    before: bool,
    place: Place,
    old: Value,
) -> Result<Next, StepFault>
    ensures does { IfOk result (λ next. Does (nodes_of tree.now) 4 (after_rest (nodes_of tree.now) (AfterFrame.Update operator before place) old) state.old state.new next) }
    ensures closed { IsClosed (nodes_of tree.now) state.old → PlaceFits (nodes_of tree.now) state.old.heap.cells place → ValueFits state.old.heap.cells old → Lasts (nodes_of tree.now) state.old state.new result }
{
    match old {
        Value::Num(number) => update(state, tree, operator, before, place, number),
        other => {
            discard(other);
            discard(place);
            state.throw(Fault::WrongOperand)
        }
    }
}

// Enters the other operand of an assignment by an operator.
fn enter_assigned(
    state: &mut State,
    operator: BinaryOperator,
    value: NodeId,
    place: Place,
    scope: Scope,
    old: Value,
) -> Result<Next, StepFault>
    ensures does { (nodes : List kind.Node) → IfOk result (λ next. Does nodes 4 (after_rest nodes (AfterFrame.AssignBy operator value place scope) old) state.old state.new next) }
    ensures closed { (nodes : List kind.Node) → IsClosed nodes state.old → PlaceFits nodes state.old.heap.cells place → ScopeFits nodes state.old.heap.cells scope → ValueFits state.old.heap.cells old → Lasts nodes state.old state.new result }
{
    let frame = OperandFrame::AssignOperand {
        operator,
        old,
        place,
    };
    state.enter(Frame::OnValue(ValueFrame::Operand(frame)), value, scope)
}

// Writes what an operator that reads no property comes to on both values.
#[inline(always)]
fn write_applied(
    state: &mut State,
    tree: &Tree,
    operator: BinaryOperator,
    place: Place,
    old: &Value,
    value: &Value,
) -> Result<Next, StepFault>
    requires { operator ≢ BinaryOperator.InstanceOf }
    ensures does { IfOk result (λ next. Does (nodes_of tree.now) 4 (apply operator old.now value.now (λ new. write_place (nodes_of tree.now) place new (give new))) state.old state.new next) }
    ensures closed { IsClosed (nodes_of tree.now) state.old → PlaceFits (nodes_of tree.now) state.old.heap.cells place → ValueFits state.old.heap.cells old.now → ValueFits state.old.heap.cells value.now → Lasts (nodes_of tree.now) state.old state.new result }
{
    match apply(state, operator, old, value)? {
        Ok(changed) => assign_place(state, tree, place, changed),
        Err(next) => {
            discard(place);
            Ok(next)
        }
    }
}

// The other operand of an assignment by an operator that reads no property: it is evaluated in place, or entered.
#[inline(always)]
fn assign_by(
    state: &mut State,
    tree: &Tree,
    operator: BinaryOperator,
    value: NodeId,
    place: Place,
    scope: Scope,
    old: Value,
) -> Result<Next, StepFault>
    requires { operator ≢ BinaryOperator.InstanceOf }
    ensures does { IfOk result (λ next. Does (nodes_of tree.now) 4 (after_rest (nodes_of tree.now) (AfterFrame.AssignBy operator value place scope) old) state.old state.new next) }
    ensures closed { IsClosed (nodes_of tree.now) state.old → PlaceFits (nodes_of tree.now) state.old.heap.cells place → ScopeFits (nodes_of tree.now) state.old.heap.cells scope → ValueFits state.old.heap.cells old → Lasts (nodes_of tree.now) state.old state.new result }
{
    match take_value(state, tree, value, &scope)? {
        Taken::Value(right) => {
            discard(scope);
            write_applied(state, tree, operator, place, &old, &right)
        }
        Taken::Ended(next) => {
            discard(old);
            discard(place);
            discard(scope);
            Ok(next)
        }
        Taken::Nothing => enter_assigned(state, operator, value, place, scope, old),
    }
}

/// The old value of the target of an assignment by an operator: evaluates the other operand in place, or enters it.
#[inline(always)]
pub fn after_assign_by(
    state: &mut State,
    tree: &Tree,
    operator: BinaryOperator,
    value: NodeId,
    place: Place,
    scope: Scope,
    old: Value,
) -> Result<Next, StepFault>
    ensures does { IfOk result (λ next. Does (nodes_of tree.now) 4 (after_rest (nodes_of tree.now) (AfterFrame.AssignBy operator value place scope) old) state.old state.new next) }
    ensures closed { IsClosed (nodes_of tree.now) state.old → PlaceFits (nodes_of tree.now) state.old.heap.cells place → ScopeFits (nodes_of tree.now) state.old.heap.cells scope → ValueFits state.old.heap.cells old → Lasts (nodes_of tree.now) state.old state.new result }
{
    match operator {
        BinaryOperator::InstanceOf => enter_assigned(state, operator, value, place, scope, old),
        other => assign_by(state, tree, other, value, place, scope, old),
    }
}
