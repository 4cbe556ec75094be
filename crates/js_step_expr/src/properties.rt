//! The objects and keys of properties (ECMA-262, 13.3.2), frame by frame.
ghost use Rattle.std.specs.Prelude.{List, IfOk};
ghost use Rattle.js_tree.specs.declared.node.Node as kind;
ghost use Rattle.js_machine.specs.Does.{Does};
ghost use Rattle.js_machine.specs.Frames.{property_rest, use_rest};
ghost use Rattle.js_step_expr.specs.Left.{DoesOrComes};
ghost use Rattle.js_machine.specs.Closed.{FrameFits, IsClosed, Lasts, ScopeFits, ValueFits};
ghost use Rattle.js_step_expr.specs.Fitting.{KeyFits, LastsWith, LeftFits};

use crate::entering::enter_operand;
use crate::frames::Remaining;
use js_machine::{
    Frame, Key, Next, OperandFrame, Place, PropertyFrame, State, Use, ValueFrame, copy_scope,
};
use js_operators::key_of;
use js_semantics::{Fault, Scope, StepFault};
use js_tree::NodeId;
use world_heap::Value;

/// What is done with a property, once its object and key are there: the value that is assigned is entered; all else is
/// left, since it may call code.
pub fn used(
    state: &mut State,
    usage: Use,
    base: Value,
    key: Key,
    scope: Scope,
) -> Result<Result<Next, Remaining>, StepFault>
    ensures does { (nodes : List kind.Node) → IfOk result (λ r. DoesOrComes nodes (use_rest nodes usage base key scope) state.old state.new r) }
    ensures closed { (nodes : List kind.Node) → IsClosed nodes state.old → ValueFits state.old.heap.cells base → KeyFits nodes state.old.heap.cells key → ScopeFits nodes state.old.heap.cells scope → LastsWith (LeftFits nodes) nodes state.old state.new result }
{
    match usage {
        Use::Assign { value } => {
            let place = Place::Property { base, key };
            Ok(Ok(enter_operand(state, OperandFrame::AssignValue { place }, value, scope)?))
        }
        usage => Ok(Err(Remaining::Property {
            base,
            key,
            usage,
            scope,
        })),
    }
}

/// The object of a property whose key is evaluated: enters the key.
pub fn index_object(
    state: &mut State,
    key: NodeId,
    usage: Use,
    scope: Scope,
    base: Value,
) -> Result<Next, StepFault>
    ensures does { (nodes : List kind.Node) → IfOk result (λ next. Does nodes 6 (property_rest nodes (PropertyFrame.IndexObject key usage scope) base) state.old state.new next) }
    ensures closed { (nodes : List kind.Node) → IsClosed nodes state.old → ScopeFits nodes state.old.heap.cells scope → ValueFits state.old.heap.cells base → Lasts nodes state.old state.new result }
{
    let inner = copy_scope(state.alloc, &scope)?;
    let frame = PropertyFrame::IndexKey { base, usage, scope };
    state.enter(Frame::OnValue(ValueFrame::Property(frame)), key, inner)
}

/// The key of a property: what is done with it, or the error `WrongOperand` where it is neither a string nor a number.
pub fn index_key(
    state: &mut State,
    base: Value,
    usage: Use,
    scope: Scope,
    value: Value,
) -> Result<Result<Next, Remaining>, StepFault>
    ensures does { (nodes : List kind.Node) → IfOk result (λ r. DoesOrComes nodes (property_rest nodes (PropertyFrame.IndexKey base usage scope) value) state.old state.new r) }
    ensures closed { (nodes : List kind.Node) → IsClosed nodes state.old → ValueFits state.old.heap.cells base → ScopeFits nodes state.old.heap.cells scope → ValueFits state.old.heap.cells value → LastsWith (LeftFits nodes) nodes state.old state.new result }
{
    match key_of(state.alloc, &value)? {
        Some(text) => used(state, usage, base, Key::Text(text), scope),
        None => Ok(Ok(state.throw(Fault::WrongOperand)?)),
    }
}

/// What is done with the value of a part of a property.
pub fn property(
    state: &mut State,
    frame: PropertyFrame,
    value: Value,
) -> Result<Result<Next, Remaining>, StepFault>
    ensures does { (nodes : List kind.Node) → IfOk result (λ r. DoesOrComes nodes (property_rest nodes frame value) state.old state.new r) }
    ensures closed { (nodes : List kind.Node) → IsClosed nodes state.old → FrameFits nodes state.old.heap.cells (Frame.OnValue (ValueFrame.Property frame)) → ValueFits state.old.heap.cells value → LastsWith (LeftFits nodes) nodes state.old state.new result }
{
    match frame {
        PropertyFrame::DotObject { node, usage, scope } => {
            used(state, usage, value, Key::Named(node), scope)
        }
        PropertyFrame::IndexObject { key, usage, scope } => {
            Ok(Ok(index_object(state, key, usage, scope, value)?))
        }
        PropertyFrame::IndexKey { base, usage, scope } => index_key(
            state, base, usage, scope, value,
        ),
    }
}
