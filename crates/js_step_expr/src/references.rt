//! Rows of references (ECMA-262, 13.1, 13.3, 13.5.1 and 13.15): properties, `delete` and assignments enter their parts.
ghost use Rattle.std.specs.Prelude.{◌≡◌, List, IfOk, slice_get, ℕ, nat_eq};
ghost use Rattle.js_tree.specs.declared.node.Node as kind;
ghost use Rattle.js_names.specs.Patterns.{nodes_of};
ghost use Rattle.js_semantics.specs.Prog.{eval, step};
ghost use Rattle.js_semantics.specs.Expressions.{row_assign, row_assign_with, row_delete, row_dot, row_index, row_name, row_typeof, row_update};
ghost use Rattle.js_machine.specs.Parts.{name_of};
ghost use Rattle.js_machine.specs.Does.{Does};
ghost use Rattle.js_machine.specs.Frames.{operand_rest};
ghost use Rattle.js_step_expr.specs.Left.{DoesOrComes, left_of};
ghost use Rattle.js_step_expr.specs.Targets.{of_index, of_object};
ghost use Rattle.world_heap.specs.declared.cell.Cell as kept;
ghost use Rattle.world_heap.specs.Heaps.{IsCell};
ghost use Rattle.js_machine.specs.Closed.{AfterFits, FrameFits, GoesOn, IsClosed, IsNamed, Lasts, ScopeFits};
ghost use Rattle.js_step_expr.specs.Fitting.{LastsWith, LeftFits, RemainingFits};

use crate::entering::enter_operand;
use crate::frames::Remaining;
use crate::targets::{Target, target_of};
use crate::types::{row_delete_value, row_typeof_value};
use js_machine::{
    AfterFrame, Frame, Next, OperandFrame, Place, PropertyFrame, State, Use, ValueFrame,
    copy_scope, discard, stopped,
};
use js_semantics::{Fault, Scope, StepFault};
use js_tree::{BinaryOperator, NodeId, Tree, UpdateOperator};
use world_heap::Loc;
use world_log::Stop;

// Enters the object of a property that is named by a node.
fn enter_object(
    state: &mut State,
    node: NodeId,
    object: NodeId,
    usage: Use,
    scope: Scope,
) -> Result<Next, StepFault>
    ensures does { (nodes : List kind.Node) → IfOk result (λ next. Does nodes 6 (of_object nodes node object usage scope) state.old state.new next) }
    ensures closed { (nodes : List kind.Node) → IsClosed nodes state.old → IsNamed nodes node → ScopeFits nodes state.old.heap.cells scope → Lasts nodes state.old state.new result }
{
    let inner = copy_scope(state.alloc, &scope)?;
    let frame = PropertyFrame::DotObject { node, usage, scope };
    state.enter(Frame::OnValue(ValueFrame::Property(frame)), object, inner)
}

// Enters the object of a property whose key follows.
fn enter_indexed(
    state: &mut State,
    object: NodeId,
    key: NodeId,
    usage: Use,
    scope: Scope,
) -> Result<Next, StepFault>
    ensures does { (nodes : List kind.Node) → IfOk result (λ next. Does nodes 6 (of_index nodes object key usage scope) state.old state.new next) }
    ensures closed { (nodes : List kind.Node) → IsClosed nodes state.old → ScopeFits nodes state.old.heap.cells scope → Lasts nodes state.old state.new result }
{
    let inner = copy_scope(state.alloc, &scope)?;
    let frame = PropertyFrame::IndexObject { key, usage, scope };
    state.enter(Frame::OnValue(ValueFrame::Property(frame)), object, inner)
}

/// A name (ECMA-262, 13.1.3): its value is to be read, and is that of the row. The node is that of the row, which has the
/// name.
#[tactic(auto, unfolding(js_semantics::specs::Expressions::row_name))]
pub fn row_name(node: NodeId, scope: Scope) -> Remaining
    ensures is { (nodes : List kind.Node) → left_of nodes result ≡ row_name (name_of (slice_get nodes node.0)) scope }
    ensures closed { (nodes : List kind.Node) (cells : List (ℕ × kept.Cell ℕ)) → IsNamed nodes node → ScopeFits nodes cells scope → RemainingFits nodes cells result }
{
    let env = scope.env;
    discard(scope);
    Remaining::Read {
        node,
        env,
        frame: AfterFrame::Give,
    }
}

/// `object.name` (ECMA-262, 13.3.2): enters the object. The node is that of the row, which has the name.
#[tactic(auto, unfolding(js_semantics::specs::Expressions::row_dot))]
pub fn row_dot(
    state: &mut State,
    node: NodeId,
    object: NodeId,
    scope: Scope,
) -> Result<Next, StepFault>
    ensures does { (nodes : List kind.Node) → IfOk result (λ next. Does nodes 6 (row_dot object (name_of (slice_get nodes node.0)) scope) state.old state.new next) }
    ensures closed { (nodes : List kind.Node) → IsClosed nodes state.old → IsNamed nodes node → ScopeFits nodes state.old.heap.cells scope → Lasts nodes state.old state.new result }
{
    enter_object(state, node, object, Use::Get, scope)
}

/// `object[key]` (ECMA-262, 13.3.2): enters the object.
#[tactic(auto, unfolding(js_semantics::specs::Expressions::row_index))]
pub fn row_index(
    state: &mut State,
    object: NodeId,
    key: NodeId,
    scope: Scope,
) -> Result<Next, StepFault>
    ensures does { (nodes : List kind.Node) → IfOk result (λ next. Does nodes 6 (row_index object key scope) state.old state.new next) }
    ensures closed { (nodes : List kind.Node) → IsClosed nodes state.old → ScopeFits nodes state.old.heap.cells scope → Lasts nodes state.old state.new result }
{
    enter_indexed(state, object, key, Use::Get, scope)
}

// Takes the step of the node of a property, and enters its object.
fn step_object(
    state: &mut State,
    node: NodeId,
    object: NodeId,
    usage: Use,
    scope: Scope,
) -> Result<Next, StepFault>
    ensures does { (nodes : List kind.Node) → IfOk result (λ next. Does nodes 6 (step (of_object nodes node object usage scope)) state.old state.new next) }
    ensures closed { (nodes : List kind.Node) → IsClosed nodes state.old → IsNamed nodes node → ScopeFits nodes state.old.heap.cells scope → Lasts nodes state.old state.new result }
{
    if !state.step_down() {
        return Ok(stopped(Stop::Fuel));
    }
    enter_object(state, node, object, usage, scope)
}

// Takes the step of the node of a property whose key is evaluated, and enters its object.
fn step_indexed(
    state: &mut State,
    object: NodeId,
    key: NodeId,
    usage: Use,
    scope: Scope,
) -> Result<Next, StepFault>
    ensures does { (nodes : List kind.Node) → IfOk result (λ next. Does nodes 6 (step (of_index nodes object key usage scope)) state.old state.new next) }
    ensures closed { (nodes : List kind.Node) → IsClosed nodes state.old → ScopeFits nodes state.old.heap.cells scope → Lasts nodes state.old state.new result }
{
    if !state.step_down() {
        return Ok(stopped(Stop::Fuel));
    }
    enter_indexed(state, object, key, usage, scope)
}

// Takes the step of the node of a name, and enters the value that is assigned.
fn step_value(
    state: &mut State,
    frame: OperandFrame,
    value: NodeId,
    scope: Scope,
) -> Result<Next, StepFault>
    ensures does { (nodes : List kind.Node) → IfOk result (λ next. Does nodes 6 (step (eval value scope (λ v. operand_rest nodes frame v))) state.old state.new next) }
    ensures closed { (nodes : List kind.Node) → IsClosed nodes state.old → FrameFits nodes state.old.heap.cells (Frame.OnValue (ValueFrame.Operand frame)) → ScopeFits nodes state.old.heap.cells scope → Lasts nodes state.old state.new result }
{
    if !state.step_down() {
        return Ok(stopped(Stop::Fuel));
    }
    enter_operand(state, frame, value, scope)
}

// Takes the step of the node of a name, which is to be read.
fn step_name(
    state: &mut State,
    node: NodeId,
    env: Loc,
    frame: AfterFrame,
) -> Result<Next, Remaining>
    ensures does { (nodes : List kind.Node) → DoesOrComes nodes (step (left_of nodes (Remaining.Read node env frame))) state.old state.new result }
    ensures closed { (nodes : List kind.Node) → IsClosed nodes state.old → IsNamed nodes node → IsCell nat_eq state.old.heap.cells env → AfterFits nodes state.old.heap.cells frame → GoesOn nodes state.old state.new × LeftFits nodes state.new.heap.cells result }
{
    if !state.step_down() {
        discard(frame);
        return Ok(stopped(Stop::Fuel));
    }
    Err(Remaining::Read { node, env, frame })
}

/// `target = value` (ECMA-262, 13.15): takes the step of the target, and enters its first part or the value. What is no
/// reference is the error `WrongOperand`.
#[tactic(auto, unfolding(js_semantics::specs::Expressions::row_assign))]
pub fn row_assign(
    state: &mut State,
    tree: &Tree,
    target: NodeId,
    value: NodeId,
    scope: Scope,
) -> Result<Next, StepFault>
    ensures does { IfOk result (λ next. Does (nodes_of tree.now) 6 (row_assign target value scope) state.old state.new next) }
    ensures closed { IsClosed (nodes_of tree.now) state.old → ScopeFits (nodes_of tree.now) state.old.heap.cells scope → Lasts (nodes_of tree.now) state.old state.new result }
{
    match target_of(tree, target) {
        Target::Name => {
            let place = Place::Name {
                node: target,
                env: scope.env,
            };
            step_value(state, OperandFrame::AssignValue { place }, value, scope)
        }
        Target::Dot { object } => step_object(state, target, object, Use::Assign { value }, scope),
        Target::Index { object, key } => {
            step_indexed(state, object, key, Use::Assign { value }, scope)
        }
        Target::Other => state.throw(Fault::WrongOperand),
    }
}

/// `delete` (ECMA-262, 13.5.1): takes the step of a property and enters its object, or enters what is no property.
#[tactic(auto, unfolding(js_semantics::specs::Expressions::row_delete))]
pub fn row_delete(
    state: &mut State,
    tree: &Tree,
    operand: NodeId,
    scope: Scope,
) -> Result<Next, StepFault>
    ensures does { IfOk result (λ next. Does (nodes_of tree.now) 6 (row_delete operand scope) state.old state.new next) }
    ensures closed { IsClosed (nodes_of tree.now) state.old → ScopeFits (nodes_of tree.now) state.old.heap.cells scope → Lasts (nodes_of tree.now) state.old state.new result }
{
    match target_of(tree, operand) {
        Target::Dot { object } => step_object(state, operand, object, Use::Delete, scope),
        Target::Index { object, key } => step_indexed(state, object, key, Use::Delete, scope),
        Target::Name => row_delete_value(state, operand, scope),
        Target::Other => row_delete_value(state, operand, scope),
    }
}

/// `typeof` (ECMA-262, 13.5.3): takes the step of a name, which is to be read, or enters what is no name.
#[tactic(auto, unfolding(js_semantics::specs::Expressions::row_typeof))]
pub fn row_typeof(
    state: &mut State,
    tree: &Tree,
    operand: NodeId,
    scope: Scope,
) -> Result<Result<Next, Remaining>, StepFault>
    ensures does { IfOk result (λ r. DoesOrComes (nodes_of tree.now) (row_typeof operand scope) state.old state.new r) }
    ensures closed { IsClosed (nodes_of tree.now) state.old → ScopeFits (nodes_of tree.now) state.old.heap.cells scope → LastsWith (LeftFits (nodes_of tree.now)) (nodes_of tree.now) state.old state.new result }
{
    match target_of(tree, operand) {
        Target::Name => Ok(step_name(state, operand, scope.env, AfterFrame::Typeof)),
        Target::Dot { .. } => Ok(Ok(row_typeof_value(state, operand, scope)?)),
        Target::Index { .. } => Ok(Ok(row_typeof_value(state, operand, scope)?)),
        Target::Other => Ok(Ok(row_typeof_value(state, operand, scope)?)),
    }
}

/// `++` and `--` (ECMA-262, 13.4): takes the step of the target; a name is to be read, and the object of a property is
/// entered. What is no reference is the error `WrongOperand`.
#[tactic(auto, unfolding(js_semantics::specs::Expressions::row_update))]
pub fn row_update(
    state: &mut State,
    tree: &Tree,
    operator: UpdateOperator,
    target: NodeId,
    before: bool,
    scope: Scope,
) -> Result<Result<Next, Remaining>, StepFault>
    ensures does { IfOk result (λ r. DoesOrComes (nodes_of tree.now) (row_update operator target before scope) state.old state.new r) }
    ensures closed { IsClosed (nodes_of tree.now) state.old → ScopeFits (nodes_of tree.now) state.old.heap.cells scope → LastsWith (LeftFits (nodes_of tree.now)) (nodes_of tree.now) state.old state.new result }
{
    match target_of(tree, target) {
        Target::Name => {
            let env = scope.env;
            let place = Place::Name { node: target, env };
            let frame = AfterFrame::Update {
                operator,
                before,
                place,
            };
            Ok(step_name(state, target, env, frame))
        }
        Target::Dot { object } => {
            let usage = Use::Update { operator, before };
            Ok(Ok(step_object(state, target, object, usage, scope)?))
        }
        Target::Index { object, key } => {
            let usage = Use::Update { operator, before };
            Ok(Ok(step_indexed(state, object, key, usage, scope)?))
        }
        Target::Other => Ok(Ok(state.throw(Fault::WrongOperand)?)),
    }
}

/// An assignment by an operator (ECMA-262, 13.15.2): takes the step of the target; a name is to be read, and the object
/// of a property is entered. What is no reference is the error `WrongOperand`.
#[tactic(auto, unfolding(js_semantics::specs::Expressions::row_assign_with))]
pub fn row_assign_with(
    state: &mut State,
    tree: &Tree,
    operator: BinaryOperator,
    target: NodeId,
    value: NodeId,
    scope: Scope,
) -> Result<Result<Next, Remaining>, StepFault>
    ensures does { IfOk result (λ r. DoesOrComes (nodes_of tree.now) (row_assign_with operator target value scope) state.old state.new r) }
    ensures closed { IsClosed (nodes_of tree.now) state.old → ScopeFits (nodes_of tree.now) state.old.heap.cells scope → LastsWith (LeftFits (nodes_of tree.now)) (nodes_of tree.now) state.old state.new result }
{
    match target_of(tree, target) {
        Target::Name => {
            let env = scope.env;
            let place = Place::Name { node: target, env };
            let frame = AfterFrame::AssignBy {
                operator,
                value,
                place,
                scope,
            };
            Ok(step_name(state, target, env, frame))
        }
        Target::Dot { object } => {
            let usage = Use::AssignBy { operator, value };
            Ok(Ok(step_object(state, target, object, usage, scope)?))
        }
        Target::Index { object, key } => {
            let usage = Use::AssignBy { operator, value };
            Ok(Ok(step_indexed(state, object, key, usage, scope)?))
        }
        Target::Other => Ok(Ok(state.throw(Fault::WrongOperand)?)),
    }
}
