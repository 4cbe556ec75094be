//! Assignments whose target and value are evaluated in place where their values are at hand (ECMA-262, 13.15.2).
ghost use Rattle.std.specs.Prelude.{IfOk};
ghost use Rattle.js_names.specs.Patterns.{nodes_of};
ghost use Rattle.js_semantics.specs.Prog.{eval, give, step};
ghost use Rattle.js_semantics.specs.Expressions.{row_assign};
ghost use Rattle.js_machine.specs.Closed.{IsClosed, IsNamed, Lasts, PlaceFits, ScopeFits};
ghost use Rattle.js_machine.specs.Does.{Does};
ghost use Rattle.js_machine.specs.Frames.{write_place};
ghost use Rattle.js_step_expr.specs.Targets.{of_index, of_object};

use crate::objects::key_operand;
use crate::usage::use_property;
use crate::writing::assign_place;
use js_machine::{
    Frame, Key, Next, OperandFrame, Place, PropertyFrame, State, Use, ValueFrame, copy_scope,
    discard, stopped,
};
use js_primary::{Taken, take_value};
use js_semantics::{Scope, StepFault};
use js_step_expr::{Target, enter_operand, target_of};
use js_tree::{NodeId, Tree};
use world_log::Stop;

/// The value that is assigned to a place: it is evaluated in place and written, or entered.
pub(crate) fn assigned(
    state: &mut State,
    tree: &Tree,
    place: Place,
    value: NodeId,
    scope: Scope,
) -> Result<Next, StepFault>
    ensures does { IfOk result (λ next. Does (nodes_of tree.now) 6 (eval value scope (λ v. write_place (nodes_of tree.now) place v (give v))) state.old state.new next) }
    ensures closed { IsClosed (nodes_of tree.now) state.old → PlaceFits (nodes_of tree.now) state.old.heap.cells place → ScopeFits (nodes_of tree.now) state.old.heap.cells scope → Lasts (nodes_of tree.now) state.old state.new result }
{
    match take_value(state, tree, value, &scope)? {
        Taken::Value(right) => {
            discard(scope);
            assign_place(state, tree, place, right)
        }
        Taken::Ended(next) => {
            discard(place);
            discard(scope);
            Ok(next)
        }
        Taken::Nothing => enter_operand(state, OperandFrame::AssignValue { place }, value, scope),
    }
}

// Takes the step of the node of a name, and evaluates the value that is assigned.
fn step_value(
    state: &mut State,
    tree: &Tree,
    place: Place,
    value: NodeId,
    scope: Scope,
) -> Result<Next, StepFault>
    ensures does { IfOk result (λ next. Does (nodes_of tree.now) 6 (step (eval value scope (λ v. write_place (nodes_of tree.now) place v (give v)))) state.old state.new next) }
    ensures closed { IsClosed (nodes_of tree.now) state.old → PlaceFits (nodes_of tree.now) state.old.heap.cells place → ScopeFits (nodes_of tree.now) state.old.heap.cells scope → Lasts (nodes_of tree.now) state.old state.new result }
{
    if !state.step_down() {
        return Ok(stopped(Stop::Fuel));
    }
    assigned(state, tree, place, value, scope)
}

// Takes the step of the node of a property that is assigned, and evaluates its object in place, or enters it.
fn step_object(
    state: &mut State,
    tree: &Tree,
    node: NodeId,
    object: NodeId,
    value: NodeId,
    scope: Scope,
) -> Result<Next, StepFault>
    ensures does { IfOk result (λ next. Does (nodes_of tree.now) 6 (step (of_object (nodes_of tree.now) node object (Use.Assign value) scope)) state.old state.new next) }
    ensures closed { IsClosed (nodes_of tree.now) state.old → IsNamed (nodes_of tree.now) node → ScopeFits (nodes_of tree.now) state.old.heap.cells scope → Lasts (nodes_of tree.now) state.old state.new result }
{
    let usage = Use::Assign { value };
    if !state.step_down() {
        return Ok(stopped(Stop::Fuel));
    }
    match take_value(state, tree, object, &scope)? {
        Taken::Value(base) => use_property(state, tree, usage, base, Key::Named(node), scope),
        Taken::Ended(next) => Ok(next),
        Taken::Nothing => {
            let inner = copy_scope(state.alloc, &scope)?;
            let frame = PropertyFrame::DotObject { node, usage, scope };
            state.enter(Frame::OnValue(ValueFrame::Property(frame)), object, inner)
        }
    }
}

// Takes the step of the node of a property that is assigned under a key, and evaluates its object in place, or enters it.
fn step_indexed(
    state: &mut State,
    tree: &Tree,
    object: NodeId,
    key: NodeId,
    value: NodeId,
    scope: Scope,
) -> Result<Next, StepFault>
    ensures does { IfOk result (λ next. Does (nodes_of tree.now) 6 (step (of_index (nodes_of tree.now) object key (Use.Assign value) scope)) state.old state.new next) }
    ensures closed { IsClosed (nodes_of tree.now) state.old → ScopeFits (nodes_of tree.now) state.old.heap.cells scope → Lasts (nodes_of tree.now) state.old state.new result }
{
    let usage = Use::Assign { value };
    if !state.step_down() {
        return Ok(stopped(Stop::Fuel));
    }
    match take_value(state, tree, object, &scope)? {
        Taken::Value(base) => key_operand(state, tree, key, usage, scope, base),
        Taken::Ended(next) => Ok(next),
        Taken::Nothing => {
            let inner = copy_scope(state.alloc, &scope)?;
            let frame = PropertyFrame::IndexObject { key, usage, scope };
            state.enter(Frame::OnValue(ValueFrame::Property(frame)), object, inner)
        }
    }
}

/// `target = value` (ECMA-262, 13.15.2): takes the step of the target, and evaluates its first part or the value in place,
/// or enters it. What is no reference is the error `WrongOperand`.
#[tactic(auto, unfolding(js_semantics::specs::Expressions::row_assign))]
pub fn row_assign(
    state: &mut State,
    tree: &Tree,
    target: NodeId,
    value: NodeId,
    scope: Scope,
) -> Result<Next, StepFault>
    ensures does { IfOk result (λ next. Does (nodes_of tree.now) 6 (row_assign target value scope) state.old state.new next) }
    ensures closed { IsClosed (nodes_of tree.now) state.old → ScopeFits (nodes_of tree.now) state.old.heap.cells scope → Lasts (nodes_of tree.now) state.old state.new result }
{
    match target_of(tree, target) {
        Target::Name => {
            let place = Place::Name {
                node: target,
                env: scope.env,
            };
            step_value(state, tree, place, value, scope)
        }
        Target::Dot { object } => step_object(state, tree, target, object, value, scope),
        Target::Index { object, key } => step_indexed(state, tree, object, key, value, scope),
        Target::Other => js_step_expr::row_assign(state, tree, target, value, scope),
    }
}
