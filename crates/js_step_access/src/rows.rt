//! Rows and frames of operators and properties, with what they leave (ECMA-262, 13.3, 13.4, 13.5 and 13.15).
ghost use Rattle.std.specs.Prelude.{IfOk};
ghost use Rattle.js_names.specs.Patterns.{nodes_of};
ghost use Rattle.js_semantics.specs.Expressions.{row_assign_with, row_typeof, row_update};
ghost use Rattle.js_machine.specs.Frames.{operand_rest, property_rest};
ghost use Rattle.js_machine.specs.declared.frame.Frame.TheVariants.{OnValue};
ghost use Rattle.js_machine.specs.declared.frame.ValueFrame.TheVariants.{Operand, Property};
ghost use Rattle.js_machine.specs.Closed.{FrameFits, IsClosed, Lasts, ScopeFits, ValueFits};
ghost use Rattle.js_machine.specs.Does.{Does};

use crate::after::{after_assign_by, after_update};
use crate::binary::right_operand;
use crate::finishing::finish;
use crate::objects::{key_operand, property_part};
use crate::writing::assign_place;
use js_machine::{Next, OperandFrame, Place, PropertyFrame, State, discard};
use js_primary::{Taken, take_bound};
use js_semantics::{Scope, StepFault};
use js_tree::{BinaryOperator, NodeId, Tree, UpdateOperator};
use world_heap::Value;

// `++` and `--` on a target that isn't at hand.
fn update_target(
    state: &mut State,
    tree: &Tree,
    operator: UpdateOperator,
    target: NodeId,
    before: bool,
    scope: Scope,
) -> Result<Next, StepFault>
    ensures does { IfOk result (λ next. Does (nodes_of tree.now) 6 (row_update operator target before scope) state.old state.new next) }
    ensures closed { IsClosed (nodes_of tree.now) state.old → ScopeFits (nodes_of tree.now) state.old.heap.cells scope → Lasts (nodes_of tree.now) state.old state.new result }
{
    match js_step_expr::row_update(state, tree, operator, target, before, scope)? {
        Ok(next) => Ok(next),
        Err(remaining) => finish(state, tree, remaining),
    }
}

// An assignment by an operator to a target that isn't at hand.
fn assign_target(
    state: &mut State,
    tree: &Tree,
    operator: BinaryOperator,
    target: NodeId,
    value: NodeId,
    scope: Scope,
) -> Result<Next, StepFault>
    ensures does { IfOk result (λ next. Does (nodes_of tree.now) 6 (row_assign_with operator target value scope) state.old state.new next) }
    ensures closed { IsClosed (nodes_of tree.now) state.old → ScopeFits (nodes_of tree.now) state.old.heap.cells scope → Lasts (nodes_of tree.now) state.old state.new result }
{
    match js_step_expr::row_assign_with(state, tree, operator, target, value, scope)? {
        Ok(next) => Ok(next),
        Err(remaining) => finish(state, tree, remaining),
    }
}

/// `++` and `--` (ECMA-262, 13.4).
pub fn row_update(
    state: &mut State,
    tree: &Tree,
    operator: UpdateOperator,
    target: NodeId,
    before: bool,
    scope: Scope,
) -> Result<Next, StepFault>
    ensures does { IfOk result (λ next. Does (nodes_of tree.now) 6 (row_update operator target before scope) state.old state.new next) }
    ensures closed { IsClosed (nodes_of tree.now) state.old → ScopeFits (nodes_of tree.now) state.old.heap.cells scope → Lasts (nodes_of tree.now) state.old state.new result }
{
    match take_bound(state, tree, target, scope.env)? {
        Taken::Value(old) => {
            let place = Place::Name {
                node: target,
                env: scope.env,
            };
            discard(scope);
            after_update(state, tree, operator, before, place, old)
        }
        Taken::Ended(next) => {
            discard(scope);
            Ok(next)
        }
        Taken::Nothing => update_target(state, tree, operator, target, before, scope),
    }
}

/// An assignment by an operator (ECMA-262, 13.15.2).
pub fn row_assign_with(
    state: &mut State,
    tree: &Tree,
    operator: BinaryOperator,
    target: NodeId,
    value: NodeId,
    scope: Scope,
) -> Result<Next, StepFault>
    ensures does { IfOk result (λ next. Does (nodes_of tree.now) 6 (row_assign_with operator target value scope) state.old state.new next) }
    ensures closed { IsClosed (nodes_of tree.now) state.old → ScopeFits (nodes_of tree.now) state.old.heap.cells scope → Lasts (nodes_of tree.now) state.old state.new result }
{
    match take_bound(state, tree, target, scope.env)? {
        Taken::Value(old) => {
            let place = Place::Name {
                node: target,
                env: scope.env,
            };
            after_assign_by(state, tree, operator, value, place, scope, old)
        }
        Taken::Ended(next) => {
            discard(scope);
            Ok(next)
        }
        Taken::Nothing => assign_target(state, tree, operator, target, value, scope),
    }
}

/// `typeof` (ECMA-262, 13.5.3).
pub fn row_typeof(
    state: &mut State,
    tree: &Tree,
    operand: NodeId,
    scope: Scope,
) -> Result<Next, StepFault>
    ensures does { IfOk result (λ next. Does (nodes_of tree.now) 6 (row_typeof operand scope) state.old state.new next) }
    ensures closed { IsClosed (nodes_of tree.now) state.old → ScopeFits (nodes_of tree.now) state.old.heap.cells scope → Lasts (nodes_of tree.now) state.old state.new result }
{
    match js_step_expr::row_typeof(state, tree, operand, scope)? {
        Ok(next) => Ok(next),
        Err(remaining) => finish(state, tree, remaining),
    }
}

// What is done with the value of an operand, by what the operator has left.
fn operand_part(
    state: &mut State,
    tree: &Tree,
    frame: OperandFrame,
    value: Value,
) -> Result<Next, StepFault>
    ensures does { IfOk result (λ next. Does (nodes_of tree.now) 6 (operand_rest (nodes_of tree.now) frame value) state.old state.new next) }
    ensures closed { IsClosed (nodes_of tree.now) state.old → FrameFits (nodes_of tree.now) state.old.heap.cells (OnValue (Operand frame)) → ValueFits state.old.heap.cells value → Lasts (nodes_of tree.now) state.old state.new result }
{
    match js_step_expr::operand(state, tree, frame, value)? {
        Ok(next) => Ok(next),
        Err(remaining) => finish(state, tree, remaining),
    }
}

/// What is done with the value of an operand.
pub fn operand(
    state: &mut State,
    tree: &Tree,
    frame: OperandFrame,
    value: Value,
) -> Result<Next, StepFault>
    ensures does { IfOk result (λ next. Does (nodes_of tree.now) 6 (operand_rest (nodes_of tree.now) frame value) state.old state.new next) }
    ensures closed { IsClosed (nodes_of tree.now) state.old → FrameFits (nodes_of tree.now) state.old.heap.cells (OnValue (Operand frame)) → ValueFits state.old.heap.cells value → Lasts (nodes_of tree.now) state.old state.new result }
{
    match frame {
        OperandFrame::BinaryLeft {
            operator,
            right,
            scope,
        } => right_operand(state, tree, operator, right, scope, value),
        OperandFrame::AssignValue { place } => assign_place(state, tree, place, value),
        other => operand_part(state, tree, other, value),
    }
}

/// What is done with the value of a part of a property.
pub fn property(
    state: &mut State,
    tree: &Tree,
    frame: PropertyFrame,
    value: Value,
) -> Result<Next, StepFault>
    ensures does { IfOk result (λ next. Does (nodes_of tree.now) 6 (property_rest (nodes_of tree.now) frame value) state.old state.new next) }
    ensures closed { IsClosed (nodes_of tree.now) state.old → FrameFits (nodes_of tree.now) state.old.heap.cells (OnValue (Property frame)) → ValueFits state.old.heap.cells value → Lasts (nodes_of tree.now) state.old state.new result }
{
    match frame {
        PropertyFrame::IndexObject { key, usage, scope } => {
            key_operand(state, tree, key, usage, scope, value)
        }
        other => property_part(state, tree, other, value),
    }
}
