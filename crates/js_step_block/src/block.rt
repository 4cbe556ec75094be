//! The row of a block (ECMA-262, 14.2.2).
ghost use Rattle.std.specs.Prelude.{Some, slice_get, IfOk};
ghost use Rattle.js_names.specs.Patterns.{nodes_of};
ghost use Rattle.js_semantics.specs.Environments.{env_cell};
ghost use Rattle.js_semantics.specs.Prog.{alloc};
ghost use Rattle.js_semantics.specs.Statements.{fill_functions, inside, row_block, run_items};
ghost use Rattle.js_machine.specs.Does.{Does};
ghost use Rattle.js_machine.specs.Closed.{IsClosed, Lasts, ScopeFits};
ghost use Rattle.js_step_stmt.specs.Fitting.{BindingsFit};
ghost use Rattle.js_machine.specs.Parts.{items_of};

use crate::filling::fill_functions;
use js_machine::{Next, State, items_of, stopped};
use js_names::declared_in;
use js_semantics::{Scope, StepFault};
use js_step_stmt::{inside, run_items};
use js_tree::{NodeId, Tree};
use sqlite_items::Items;
use world_heap::Binding;

/// Fills the functions of a scope's items, and then runs the items.
pub fn filled(state: &mut State, tree: &Tree, node: NodeId, scope: Scope) -> Result<Next, StepFault>
    ensures does { IfOk result (λ made. Does (nodes_of tree.now) 6 (fill_functions (items_of (slice_get (nodes_of tree.now) node.0)) scope.env (run_items (items_of (slice_get (nodes_of tree.now) node.0)) scope)) state.old state.new made) }
    ensures closed { IsClosed (nodes_of tree.now) state.old → ScopeFits (nodes_of tree.now) state.old.heap.cells scope → Lasts (nodes_of tree.now) state.old state.new result }
{
    match fill_functions(state, tree, items_of(tree, node), scope.env)? {
        None => run_items(state, tree, node, 0, scope),
        Some(next) => Ok(next),
    }
}

// Makes the environment of a block, and goes on in it.
fn block_in(
    state: &mut State,
    tree: &Tree,
    node: NodeId,
    bindings: Items<Binding>,
    scope: Scope,
) -> Result<Next, StepFault>
    ensures does { IfOk result (λ made. Does (nodes_of tree.now) 6 (alloc (env_cell (Some scope.env) bindings) (λ env. fill_functions (items_of (slice_get (nodes_of tree.now) node.0)) env (run_items (items_of (slice_get (nodes_of tree.now) node.0)) (inside env scope)))) state.old state.new made) }
    ensures closed { IsClosed (nodes_of tree.now) state.old → BindingsFit state.old.heap.cells bindings → ScopeFits (nodes_of tree.now) state.old.heap.cells scope → Lasts (nodes_of tree.now) state.old state.new result }
{
    match state.make_environment(Some(scope.env), bindings)? {
        Ok(env) => filled(state, tree, node, inside(env, scope)),
        Err(stop) => Ok(stopped(stop)),
    }
}

/// A block: an environment for the names that its items declare, where they declare one, and then its items.
#[tactic(auto, unfolding(js_semantics::specs::Statements::row_block))]
pub fn row_block(
    state: &mut State,
    tree: &Tree,
    node: NodeId,
    scope: Scope,
) -> Result<Next, StepFault>
    ensures does { IfOk result (λ made. Does (nodes_of tree.now) 6 (row_block (items_of (slice_get (nodes_of tree.now) node.0)) scope) state.old state.new made) }
    ensures closed { IsClosed (nodes_of tree.now) state.old → ScopeFits (nodes_of tree.now) state.old.heap.cells scope → Lasts (nodes_of tree.now) state.old state.new result }
{
    let bindings = declared_in(state.alloc, tree, items_of(tree, node))?;
    if bindings.is_empty() {
        run_items(state, tree, node, 0, scope)
    } else {
        block_in(state, tree, node, bindings, scope)
    }
}
