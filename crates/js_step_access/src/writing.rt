//! Writing a place: a name, or a property (ECMA-262, 6.2.5.6: PutValue).
ghost use Rattle.std.specs.Prelude.{IfOk};
ghost use Rattle.js_semantics.specs.Prog.{give};
ghost use Rattle.js_machine.specs.Closed.{IsClosed, Lasts, PlaceFits, ValueFits};
ghost use Rattle.js_machine.specs.Does.{Does};
ghost use Rattle.js_machine.specs.Frames.{write_place};
ghost use Rattle.js_names.specs.Patterns.{nodes_of};

use crate::keys::{name_at, own_text};
use js_calls::{set, write_name};
use js_machine::{Next, Place, State, discard};
use js_semantics::StepFault;
use js_tree::Tree;
use world_heap::Value;

/// Writes a place, and then gives another value as that of the row. The cost is that of `write_name` or `set`.
#[inline(always)]
pub fn write_place(
    state: &mut State,
    tree: &Tree,
    place: Place,
    value: Value,
    result_value: Value,
) -> Result<Next, StepFault>
    ensures does { IfOk result (λ next. Does (nodes_of tree.now) 4 (write_place (nodes_of tree.now) place value (give result_value)) state.old state.new next) }
    ensures closed { IsClosed (nodes_of tree.now) state.old → PlaceFits (nodes_of tree.now) state.old.heap.cells place → ValueFits state.old.heap.cells value → ValueFits state.old.heap.cells result_value → Lasts (nodes_of tree.now) state.old state.new result }
{
    match place {
        Place::Name { node, env } => match name_at(tree, node) {
            Some(name) => write_name(state, tree, env, name, value, result_value),
            None => {
                discard(value);
                discard(result_value);
                Err(StepFault::Dangling)
            }
        },
        Place::Property { base, key } => {
            let text = own_text(state.alloc, tree, key)?;
            set(state, tree, base, text, value, result_value)
        }
    }
}

/// Writes a place, and gives what was written. The cost is that of `write_place`.
#[inline(always)]
pub(crate) fn assign_place(
    state: &mut State,
    tree: &Tree,
    place: Place,
    value: Value,
) -> Result<Next, StepFault>
    ensures some { IfOk result (λ next. Does (nodes_of tree.now) 4 (write_place (nodes_of tree.now) place value (give value)) state.old state.new next) }
    ensures many { IfOk result (λ next. Does (nodes_of tree.now) 6 (write_place (nodes_of tree.now) place value (give value)) state.old state.new next) }
    ensures closed { IsClosed (nodes_of tree.now) state.old → PlaceFits (nodes_of tree.now) state.old.heap.cells place → ValueFits state.old.heap.cells value → Lasts (nodes_of tree.now) state.old state.new result }
{
    let result_value = value.copy(state.alloc)?;
    write_place(state, tree, place, value, result_value)
}
