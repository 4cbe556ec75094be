//! The row of a script (ECMA-262, 16.1.6 and 16.1.7).
ghost use Rattle.std.specs.Prelude.{◌≡◌, ℕ, List, None, Some, slice_get, IfOk};
ghost use Rattle.js_tree.specs.declared.node.Node as kind;
ghost use Rattle.js_tree.specs.declared.node.Node.TheVariants as kinds;
ghost use Rattle.world_heap.specs.declared.value.Value.TheVariants.{Ref, Undefined};
ghost use Rattle.js_names.specs.Patterns.{nodes_of};
ghost use Rattle.js_semantics.specs.Environments.{env_cell};
ghost use Rattle.js_semantics.specs.Prog.{alloc};
ghost use Rattle.js_semantics.specs.Statements.{fill_functions, global_of, run_items, script_of};
ghost use Rattle.js_machine.specs.Does.{Does, world_of};
ghost use Rattle.js_machine.specs.Closed.{IsClosed, Lasts, ValueFits};
ghost use Rattle.js_step_stmt.specs.Fitting.{BindingsFit};
ghost use Rattle.js_machine.specs.Parts.{items_of};

use crate::block::filled;
use js_machine::{Next, State, done, items_of, node_at, stopped};
use js_names::declared_in;
use js_semantics::{Scope, StepFault};
use js_tree::{Node, NodeId, Tree};
use sqlite_items::Items;
use world_heap::{Binding, BuiltIn, Value};

// The global object, which is the receiver at the top of a script.
fn global_of(state: &State) -> Value
    ensures is { (nodes : List kind.Node) (supply : ℕ → ℕ) → result ≡ global_of (world_of nodes supply state.now) }
    ensures closed { (nodes : List kind.Node) → IsClosed nodes state.now → ValueFits state.now.heap.cells result }
{
    match state.built_in(BuiltIn::Global) {
        Some(loc) => Value::Ref(loc),
        None => Value::Undefined,
    }
}

// Makes the environment of a script, and goes on in it.
fn script_in(
    state: &mut State,
    tree: &Tree,
    node: NodeId,
    bindings: Items<Binding>,
    receiver: Value,
) -> Result<Next, StepFault>
    ensures does { IfOk result (λ made. Does (nodes_of tree.now) 6 (alloc (env_cell None bindings) (λ env. fill_functions (items_of (slice_get (nodes_of tree.now) node.0)) env (run_items (items_of (slice_get (nodes_of tree.now) node.0)) (record { env = env; receiver = receiver })))) state.old state.new made) }
    ensures closed { IsClosed (nodes_of tree.now) state.old → BindingsFit state.old.heap.cells bindings → ValueFits state.old.heap.cells receiver → Lasts (nodes_of tree.now) state.old state.new result }
{
    match state.make_environment(None, bindings)? {
        Ok(env) => filled(state, tree, node, Scope { env, receiver }),
        Err(stop) => Ok(stopped(stop)),
    }
}

// The row of a node that is a script, by its items.
fn script_items(state: &mut State, tree: &Tree, node: NodeId) -> Result<Next, StepFault>
    ensures does { IfOk result (λ made. Does (nodes_of tree.now) 6 (script_of (Some (kinds.Script (items_of (slice_get (nodes_of tree.now) node.0))))) state.old state.new made) }
    ensures closed { IsClosed (nodes_of tree.now) state.old → Lasts (nodes_of tree.now) state.old state.new result }
{
    let bindings = declared_in(state.alloc, tree, items_of(tree, node))?;
    let receiver = global_of(state);
    script_in(state, tree, node, bindings, receiver)
}

/// The row of a script, which always has an environment. A node that is no script does nothing.
#[tactic(auto, unfolding(js_semantics::specs::Statements::script_of))]
pub fn row_script(state: &mut State, tree: &Tree, node: NodeId) -> Result<Next, StepFault>
    ensures does { IfOk result (λ made. Does (nodes_of tree.now) 6 (script_of (slice_get (nodes_of tree.now) node.0)) state.old state.new made) }
    ensures closed { IsClosed (nodes_of tree.now) state.old → Lasts (nodes_of tree.now) state.old state.new result }
{
    match node_at(tree, node) {
        Some(found) => match found {
            Node::Script(_) => script_items(state, tree, node),
            _ => done(state),
        },
        None => done(state),
    }
}
