//! The items of scripts and blocks (ECMA-262, 14.2.2 and 16.1.6).
ghost use Rattle.std.specs.Prelude.{drop, slice_get, IfOk};
ghost use Rattle.js_names.specs.Patterns.{nodes_of};
ghost use Rattle.js_semantics.specs.Statements.{run_items};
ghost use Rattle.js_machine.specs.Does.{Does};
ghost use Rattle.js_machine.specs.Parts.{items_of};
ghost use Rattle.js_machine.specs.Closed.{IsClosed, Lasts, ScopeFits};

use crate::simple::statement;
use js_machine::{Next, State, StatementFrame, copy_scope, done, items_of, next_of};
use js_semantics::{Scope, StepFault};
use js_tree::{NodeId, Tree};

/// The items of a script or block from a place on, one after another.
pub fn run_items(
    state: &mut State,
    tree: &Tree,
    node: NodeId,
    at: usize,
    scope: Scope,
) -> Result<Next, StepFault>
    ensures does { IfOk result (λ next. Does (nodes_of tree.now) 6 (run_items (drop at (items_of (slice_get (nodes_of tree.now) node.0))) scope) state.old state.new next) }
    ensures closed { IsClosed (nodes_of tree.now) state.old → ScopeFits (nodes_of tree.now) state.old.heap.cells scope → Lasts (nodes_of tree.now) state.old state.new result }
{
    match next_of(items_of(tree, node), at) {
        Some((item, next)) => {
            let inner = copy_scope(state.alloc, &scope)?;
            let frame = StatementFrame::Item { node, next, scope };
            state.enter(statement(frame), item, inner)
        }
        None => done(state),
    }
}
