//! One turn of the machine, from what is next.
ghost use Rattle.std.specs.Prelude.{◌≡◌, true, IfOk};
ghost use Rattle.js_names.specs.Patterns.{nodes_of};
ghost use Rattle.js_machine.specs.Closed.{GoesOn, IsClosed, Lasts, OutcomeFits};
ghost use Rattle.js_machine.specs.Does.{Steps, is_running};

use crate::frames::frame_end;
use crate::nodes::row_node;
use js_machine::{Control, Next, State};
use js_natives::native;
use js_patterns::bind_pattern;
use js_semantics::{Mode, Outcome, StepFault};
use js_step_block::row_script;
use js_step_object::row_member;
use js_tree::Tree;
use world_log::Product;

// The topmost frame takes an outcome. One without a frame ends all, which can't come from a first state.
#[inline(always)]
fn take_up(state: &mut State, tree: &Tree, outcome: Outcome) -> Result<Next, StepFault>
    ensures does { IfOk result (λ next. Steps (nodes_of tree.now) (record state.old { control = Control.Give outcome }) state.new next) }
    ensures closed { IsClosed (nodes_of tree.now) state.old → OutcomeFits (nodes_of tree.now) state.old.heap.cells outcome → Lasts (nodes_of tree.now) state.old state.new result }
{
    match state.frames.pop() {
        Some(frame) => frame_end(state, tree, frame, outcome),
        None => {
            state.turn_to(Control::Stop);
            Ok(Next::Go)
        }
    }
}

// The task is done: the world tells that no job waits, and waits for a delivery.
fn rest(state: &mut State, mode: Mode) -> Next
    ensures does { (nodes : _) → Steps nodes (record state.old { control = Control.AtRest mode }) state.new result }
    ensures closed { (nodes : _) → IsClosed nodes state.old → GoesOn nodes state.old state.new }
{
    state.turn_to(Control::Wait(mode));
    Next::Made(Product::Rest(0))
}

/// One turn of the machine: the row that was entered begins, or the topmost frame goes on with an outcome, or a task that
/// is done rests (ECMA-262, 9.4: execution contexts). What it makes and what is then to come are what was to come before,
/// and the work left is less. The cost is that of the row.
///
/// Condition: the machine is running.
///
/// # Errors
/// `Memory` where there is none; `Dangling` where a location was met that stands nowhere, which is never from a closed
/// state. The state is then that of no world any more.
#[inline(always)]
pub fn step(state: &mut State, tree: &Tree) -> Result<Next, StepFault>
    requires { is_running state.old.control ≡ true }
    ensures does { IfOk result (λ next. Steps (nodes_of tree.now) state.old state.new next) }
    ensures closed { IsClosed (nodes_of tree.now) state.old → Lasts (nodes_of tree.now) state.old state.new result }
{
    let control = std::mem::replace(&mut state.control, Control::Stop);
    match control {
        Control::Script(node) => row_script(state, tree, node),
        Control::Node(node, scope) => row_node(state, tree, node, scope),
        Control::Bind(node, value, scope) => bind_pattern(state, tree, node, value, scope),
        Control::Member(node, object, scope) => row_member(state, tree, node, object, scope),
        Control::Native(id, receiver, arguments) => {
            native(state, id, &receiver, arguments.as_slice())
        }
        Control::Give(outcome) => take_up(state, tree, outcome),
        Control::AtRest(mode) => Ok(rest(state, mode)),
        Control::Wait(_) => unreachable!(),
        Control::Stop => unreachable!(),
    }
}
