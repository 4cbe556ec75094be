//! What is left of a row that goes on only with a value.
ghost use Rattle.std.specs.Prelude.{◌≡◌, IfOk};
ghost use Rattle.js_names.specs.Patterns.{nodes_of};
ghost use Rattle.js_machine.specs.declared.frame.Frame.TheVariants as frames;
ghost use Rattle.js_machine.specs.Closed.{FrameFits, IsClosed, Lasts, ValueFits};
ghost use Rattle.js_machine.specs.Does.{Does};
ghost use Rattle.js_machine.specs.Frames.{literal_rest, statement_rest, value_rest};

use crate::statements::for_turn;
use js_iterate::{element_spread, for_of_list};
use js_machine::{LiteralFrame, Next, State, StatementFrame, ValueFrame};
use js_patterns::pattern_frame;
use js_semantics::StepFault;
use js_step_access::{operand, property};
use js_step_call::call_frame;
use js_step_object::{element_value, member_keyed, members_from, property_value};
use js_step_stmt::statement_end;
use js_tree::Tree;
use world_heap::Value;

// What is left of an array or object literal.
fn literal_end(
    state: &mut State,
    tree: &Tree,
    frame: LiteralFrame,
    value: Value,
) -> Result<Next, StepFault>
    ensures does { IfOk result (λ next. Does (nodes_of tree.now) 6 (literal_rest (nodes_of tree.now) frame value) state.old state.new next) }
    ensures closed { IsClosed (nodes_of tree.now) state.old → FrameFits (nodes_of tree.now) state.old.heap.cells (frames.OnValue (ValueFrame.Literal frame)) → ValueFits state.old.heap.cells value → Lasts (nodes_of tree.now) state.old state.new result }
{
    match frame {
        LiteralFrame::Element {
            node,
            next,
            spread,
            array,
            scope,
        } => {
            if spread {
                element_spread(state, tree, node, next, array, scope, &value)
            } else {
                element_value(state, tree, node, next, array, scope, value)
            }
        }
        LiteralFrame::Member {
            node,
            next,
            object,
            scope,
        } => members_from(state, tree, node, next, object, scope),
        LiteralFrame::MemberKey {
            node,
            object,
            scope,
        } => member_keyed(state, tree, node, object, scope, value),
        LiteralFrame::PropertyValue { node, key, object } => {
            property_value(state, tree, node, key, object, value)
        }
    }
}

// What is left of a statement.
fn statement_frame(
    state: &mut State,
    tree: &Tree,
    frame: StatementFrame,
    value: Value,
) -> Result<Next, StepFault>
    ensures does { IfOk result (λ next. Does (nodes_of tree.now) 6 (statement_rest (nodes_of tree.now) frame value) state.old state.new next) }
    ensures closed { IsClosed (nodes_of tree.now) state.old → FrameFits (nodes_of tree.now) state.old.heap.cells (frames.OnValue (ValueFrame.Statement frame)) → ValueFits state.old.heap.cells value → Lasts (nodes_of tree.now) state.old state.new result }
{
    match frame {
        StatementFrame::ForOfList {
            constant,
            bind,
            body,
            scope,
        } => for_of_list(state, tree, constant, bind, body, scope, &value),
        StatementFrame::ForNext { turn, scope } => for_turn(state, tree, turn, scope),
        _ => statement_end(state, tree, frame, value),
    }
}

/// What is left of a row that goes on only with a value, with that value.
#[inline(always)]
pub(crate) fn value_frame(
    state: &mut State,
    tree: &Tree,
    frame: ValueFrame,
    value: Value,
) -> Result<Next, StepFault>
    ensures does { IfOk result (λ next. Does (nodes_of tree.now) 6 (value_rest (nodes_of tree.now) frame value) state.old state.new next) }
    ensures closed { IsClosed (nodes_of tree.now) state.old → FrameFits (nodes_of tree.now) state.old.heap.cells (frames.OnValue frame) → ValueFits state.old.heap.cells value → Lasts (nodes_of tree.now) state.old state.new result }
{
    match frame {
        ValueFrame::Operand(frame) => operand(state, tree, frame, value),
        ValueFrame::Property(frame) => property(state, tree, frame, value),
        ValueFrame::Call(frame) => call_frame(state, tree, frame, value),
        ValueFrame::Literal(frame) => literal_end(state, tree, frame, value),
        ValueFrame::Statement(frame) => statement_frame(state, tree, frame, value),
        ValueFrame::Pattern(frame) => pattern_frame(state, tree, frame, value),
    }
}
