//! What is done with the value of an operand, frame by frame.
ghost use Rattle.std.specs.Prelude.{◌≢◌, ℕ, List, IfOk};
ghost use Rattle.js_tree.specs.declared.node.Node as kind;
ghost use Rattle.js_names.specs.Patterns.{nodes_of};
ghost use Rattle.js_semantics.specs.Prog.{Prog, give};
ghost use Rattle.js_machine.specs.declared.state.State as kept;
ghost use Rattle.js_machine.specs.Frames.{operand_rest, write_place};
ghost use Rattle.js_step_expr.specs.Left.{DoesOrComes};
ghost use Rattle.js_step_expr.specs.Settling.{Settles};
ghost use Rattle.world_heap.specs.declared.cell.Cell as there;
ghost use Rattle.js_machine.specs.declared.frame.Frame.TheVariants.{OnValue};
ghost use Rattle.js_machine.specs.declared.frame.ValueFrame.TheVariants.{Operand};
ghost use Rattle.js_machine.specs.Closed.{FrameFits, IsClosed, PlaceFits, ValueFits};
ghost use Rattle.js_step_expr.specs.Fitting.{LastsWith, LeftFits, SettledFits};

use crate::binary::{apply, binary_left, binary_right};
use crate::choice::{and_left, cond_test, nullish_left, or_left, seq_first};
use crate::template::template_part;
use crate::types::{delete_value, typeof_value};
use crate::unary::unary_operand;
use js_machine::{AfterFrame, Key, Next, OperandFrame, Place, State, Use, discard};
use js_semantics::{Scope, StepFault};
use js_tree::{BinaryOperator, NodeId, Tree};
use world_heap::{Loc, Value};

/// What is left of an operator's row, where it may call code of the script: a setter, or a getter.
#[derive(Drop)]
pub enum Remaining<L = Loc> {
    /// The value of a name is read from an environment on, and then follows what the frame says. A name that is declared
    /// nowhere is an error, but for `typeof`.
    Read {
        node: NodeId,
        env: L,
        frame: AfterFrame<L>,
    },
    /// A property is used, whose object and key are evaluated.
    Property {
        base: Value<L>,
        key: Key,
        usage: Use,
        scope: Scope<L>,
    },
    /// The place is written, and then the value given.
    Write {
        place: Place<L>,
        value: Value<L>,
    },
    /// The operator `instanceof`, whose result is given, and before that written where there is a place.
    Instance {
        left: Value<L>,
        right: Value<L>,
        place: Option<Place<L>>,
    },
}

// The values of both operands of an operator.
fn both_operands(
    state: &mut State,
    operator: BinaryOperator,
    left: Value,
    right: Value,
) -> Result<Result<Next, Remaining>, StepFault>
    ensures does { (nodes : List kind.Node) → IfOk result (λ r. DoesOrComes nodes (operand_rest nodes (OperandFrame.BinaryRight operator left) right) state.old state.new r) }
    ensures closed { (nodes : List kind.Node) → IsClosed nodes state.old → ValueFits state.old.heap.cells left → ValueFits state.old.heap.cells right → LastsWith (LeftFits nodes) nodes state.old state.new result }
{
    match operator {
        BinaryOperator::InstanceOf => Ok(Err(Remaining::Instance {
            left,
            right,
            place: None,
        })),
        other => Ok(Ok(binary_right(state, other, left, right)?)),
    }
}

// What is left where an operator's result is assigned.
fn written(place: Place, settled: Result<Value, Next>) -> Result<Next, Remaining>
    ensures does { (nodes : List kind.Node) (p : Prog ℕ) (old new : kept.State) → Settles nodes p (λ v. write_place nodes place v (give v)) old new settled → DoesOrComes nodes p old new result }
    ensures closed { (nodes : List kind.Node) (cells : List (ℕ × there.Cell ℕ)) → PlaceFits nodes cells place → SettledFits cells settled → LeftFits nodes cells result }
{
    match settled {
        Ok(value) => Err(Remaining::Write { place, value }),
        Err(next) => {
            discard(place);
            Ok(next)
        }
    }
}

// The values of both operands of an operator that reads no property, whose result is assigned.
fn assigned(
    state: &mut State,
    operator: BinaryOperator,
    old: Value,
    place: Place,
    value: Value,
) -> Result<Result<Next, Remaining>, StepFault>
    requires { operator ≢ BinaryOperator.InstanceOf }
    ensures does { (nodes : List kind.Node) → IfOk result (λ r. DoesOrComes nodes (operand_rest nodes (OperandFrame.AssignOperand operator old place) value) state.old state.new r) }
    ensures closed { (nodes : List kind.Node) → IsClosed nodes state.old → ValueFits state.old.heap.cells old → PlaceFits nodes state.old.heap.cells place → ValueFits state.old.heap.cells value → LastsWith (LeftFits nodes) nodes state.old state.new result }
{
    let settled = apply(state, operator, &old, &value)?;
    Ok(written(place, settled))
}

// The values of both operands of an operator whose result is assigned.
fn assign_operand(
    state: &mut State,
    operator: BinaryOperator,
    old: Value,
    place: Place,
    value: Value,
) -> Result<Result<Next, Remaining>, StepFault>
    ensures does { (nodes : List kind.Node) → IfOk result (λ r. DoesOrComes nodes (operand_rest nodes (OperandFrame.AssignOperand operator old place) value) state.old state.new r) }
    ensures closed { (nodes : List kind.Node) → IsClosed nodes state.old → ValueFits state.old.heap.cells old → PlaceFits nodes state.old.heap.cells place → ValueFits state.old.heap.cells value → LastsWith (LeftFits nodes) nodes state.old state.new result }
{
    match operator {
        BinaryOperator::InstanceOf => Ok(Err(Remaining::Instance {
            left: old,
            right: value,
            place: Some(place),
        })),
        other => assigned(state, other, old, place, value),
    }
}

/// What is done with the value of an operand: a step, or what is left to do where that may call code.
///
/// # Errors
/// Those of the rows.
pub fn operand(
    state: &mut State,
    tree: &Tree,
    frame: OperandFrame,
    value: Value,
) -> Result<Result<Next, Remaining>, StepFault>
    ensures does { IfOk result (λ r. DoesOrComes (nodes_of tree.now) (operand_rest (nodes_of tree.now) frame value) state.old state.new r) }
    ensures closed { IsClosed (nodes_of tree.now) state.old → FrameFits (nodes_of tree.now) state.old.heap.cells (OnValue (Operand frame)) → ValueFits state.old.heap.cells value → LastsWith (LeftFits (nodes_of tree.now)) (nodes_of tree.now) state.old state.new result }
{
    match frame {
        OperandFrame::TemplatePart {
            node,
            next,
            before,
            scope,
        } => Ok(Ok(template_part(state, tree, node, next, before, scope, value)?)),
        OperandFrame::Unary { operator } => Ok(Ok(unary_operand(state, operator, value)?)),
        OperandFrame::Typeof => Ok(Ok(typeof_value(state, value)?)),
        OperandFrame::Delete => Ok(Ok(delete_value(state, value)?)),
        OperandFrame::BinaryLeft {
            operator,
            right,
            scope,
        } => Ok(Ok(binary_left(state, operator, right, scope, value)?)),
        OperandFrame::BinaryRight { operator, left } => {
            both_operands(state, operator, left, value)
        }
        OperandFrame::And { right, scope } => Ok(Ok(and_left(state, right, scope, value)?)),
        OperandFrame::Or { right, scope } => Ok(Ok(or_left(state, right, scope, value)?)),
        OperandFrame::Nullish { right, scope } => {
            Ok(Ok(nullish_left(state, right, scope, value)?))
        }
        OperandFrame::Cond {
            first,
            second,
            scope,
        } => Ok(Ok(cond_test(state, first, second, scope, value)?)),
        OperandFrame::Seq { second, scope } => Ok(Ok(seq_first(state, second, scope, value)?)),
        OperandFrame::AssignValue { place } => Ok(Err(Remaining::Write { place, value })),
        OperandFrame::AssignOperand {
            operator,
            old,
            place,
        } => assign_operand(state, operator, old, place, value),
    }
}
