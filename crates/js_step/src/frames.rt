//! What is left of a row, with the outcome of the node below it.
ghost use Rattle.std.specs.Prelude.{◌≡◌, ◌+◌, ℕ, true, List, IfOk};
ghost use Rattle.js_tree.specs.declared.node.Node as kind;
ghost use Rattle.world_heap.specs.declared.cell.Cell as kept;
ghost use Rattle.js_names.specs.Patterns.{nodes_of};
ghost use Rattle.js_semantics.specs.Access.{given_by};
ghost use Rattle.js_machine.specs.Closed.{AfterFits, FrameFits, IsClosed, Lasts, OutcomeFits};
ghost use Rattle.js_machine.specs.Does.{Does, weight};
ghost use Rattle.js_machine.specs.Frames.{rest};
ghost use Rattle.js_step.specs.Kinds.{is_rare};

use crate::afters::after_frame;
use crate::statements::while_body_end;
use crate::values::value_frame;
use js_machine::{AfterFrame, Frame, Next, State, ValueFrame, discard};
use js_semantics::{Outcome, StepFault};
use js_step_stmt::{
    Walk, at_last, caught, do_body_end, for_body_end, of_body_end, replaced_by, script_end,
};
use js_tree::Tree;
use world_heap::Value;

// A frame that goes on only with a value: any other outcome passes it.
#[inline(always)]
fn value_end(
    state: &mut State,
    tree: &Tree,
    frame: ValueFrame,
    outcome: Outcome,
) -> Result<Next, StepFault>
    ensures does { IfOk result (λ next. Does (nodes_of tree.now) 6 (rest (nodes_of tree.now) (Frame.OnValue frame) outcome) state.old state.new next) }
    ensures closed { IsClosed (nodes_of tree.now) state.old → FrameFits (nodes_of tree.now) state.old.heap.cells (Frame.OnValue frame) → OutcomeFits (nodes_of tree.now) state.old.heap.cells outcome → Lasts (nodes_of tree.now) state.old state.new result }
{
    match outcome {
        Outcome::Normal(value) => value_frame(state, tree, frame, value),
        other => {
            discard(frame);
            state.give(other)
        }
    }
}

// A frame for what was read: any other outcome passes it.
#[inline(always)]
fn after_end(
    state: &mut State,
    tree: &Tree,
    frame: AfterFrame,
    outcome: Outcome,
) -> Result<Next, StepFault>
    ensures does { IfOk result (λ next. Does (nodes_of tree.now) (weight (Frame.After frame) + 1) (rest (nodes_of tree.now) (Frame.After frame) outcome) state.old state.new next) }
    ensures closed { IsClosed (nodes_of tree.now) state.old → AfterFits (nodes_of tree.now) state.old.heap.cells frame → OutcomeFits (nodes_of tree.now) state.old.heap.cells outcome → Lasts (nodes_of tree.now) state.old state.new result }
{
    match outcome {
        Outcome::Normal(value) => after_frame(state, tree, frame, value),
        other => {
            discard(frame);
            state.give(other)
        }
    }
}

// What a function gives: the value of its `return`, or of the expression that its body is.
fn given_by(outcome: Outcome) -> Outcome
    ensures is { result ≡ given_by outcome }
    ensures closed { (nodes : List kind.Node) (cells : List (ℕ × kept.Cell ℕ)) → OutcomeFits nodes cells outcome → OutcomeFits nodes cells result }
{
    match outcome {
        Outcome::Normal(value) => Outcome::Normal(value),
        Outcome::Return(value) => Outcome::Normal(value),
        Outcome::Break => Outcome::Normal(Value::Undefined),
        Outcome::Continue => Outcome::Normal(Value::Undefined),
        Outcome::Thrown(value) => Outcome::Thrown(value),
    }
}

// The end of a call (ECMA-262, 10.2.1), which is active no more.
fn leave(state: &mut State, outcome: Outcome) -> Result<Next, StepFault>
    ensures does { (nodes : List kind.Node) → IfOk result (λ next. Does nodes 2 (rest nodes Frame.Leave outcome) state.old state.new next) }
    ensures closed { (nodes : List kind.Node) → IsClosed nodes state.old → OutcomeFits nodes state.old.heap.cells outcome → Lasts nodes state.old state.new result }
{
    state.depth = state.depth.saturating_sub(1);
    state.give(given_by(outcome))
}

// What is left of a row whose frame is one of those that are met less often. It stands apart from `frame_end`, which needs
// no room for their parts.
#[inline(never)]
fn rare_frame_end(
    state: &mut State,
    tree: &Tree,
    frame: Frame,
    outcome: Outcome,
) -> Result<Next, StepFault>
    requires { is_rare frame ≡ true }
    ensures does { IfOk result (λ next. Does (nodes_of tree.now) (weight frame + 1) (rest (nodes_of tree.now) frame outcome) state.old state.new next) }
    ensures closed { IsClosed (nodes_of tree.now) state.old → FrameFits (nodes_of tree.now) state.old.heap.cells frame → OutcomeFits (nodes_of tree.now) state.old.heap.cells outcome → Lasts (nodes_of tree.now) state.old state.new result }
{
    match frame {
        Frame::Script => script_end(state, outcome),
        Frame::DoBody { body, test, scope } => do_body_end(state, body, test, scope, outcome),
        Frame::ForBody { turn, scope } => for_body_end(state, turn, scope, outcome),
        Frame::ForOfBody {
            constant,
            bind,
            body,
            array,
            place,
            around,
        } => {
            let walk = Walk {
                constant,
                bind,
                body,
                array,
            };
            of_body_end(state, tree, walk, place, around, outcome)
        }
        Frame::Catch {
            bind,
            handler,
            scope,
        } => caught(state, tree, bind, handler, scope, outcome),
        Frame::Last { last, scope } => at_last(state, last, scope, outcome),
        Frame::Replaced { before } => replaced_by(state, before, outcome),
        _ => unreachable!(),
    }
}

/// What is left of a row, with the outcome of the node below it.
#[inline(always)]
pub(crate) fn frame_end(
    state: &mut State,
    tree: &Tree,
    frame: Frame,
    outcome: Outcome,
) -> Result<Next, StepFault>
    ensures does { IfOk result (λ next. Does (nodes_of tree.now) (weight frame + 1) (rest (nodes_of tree.now) frame outcome) state.old state.new next) }
    ensures closed { IsClosed (nodes_of tree.now) state.old → FrameFits (nodes_of tree.now) state.old.heap.cells frame → OutcomeFits (nodes_of tree.now) state.old.heap.cells outcome → Lasts (nodes_of tree.now) state.old state.new result }
{
    match frame {
        Frame::OnValue(frame) => value_end(state, tree, frame, outcome),
        Frame::After(frame) => after_end(state, tree, frame, outcome),
        Frame::Leave => leave(state, outcome),
        Frame::WhileBody { test, body, scope } => {
            while_body_end(state, tree, test, body, scope, outcome)
        }
        _ => rare_frame_end(state, tree, frame, outcome),
    }
}
