//! The functions that the items of a scope declare (ECMA-262, 14.2.3: BlockDeclarationInstantiation).
ghost use Rattle.std.specs.Prelude.{List, IfOk, Some, nat_eq, slice_get};
ghost use Rattle.js_tree.specs.declared.node.Node as kind;
ghost use Rattle.world_heap.specs.Heaps.{IsCell};
ghost use Rattle.js_names.specs.Patterns.{nodes_of};
ghost use Rattle.js_semantics.specs.Environments.{bind_in};
ghost use Rattle.js_semantics.specs.Objects.{make_function};
ghost use Rattle.js_semantics.specs.Prog.{change};
ghost use Rattle.js_semantics.specs.Statements.{fill_function, fill_functions};
ghost use Rattle.js_machine.specs.Closed.{IsClosed, Lasts};
ghost use Rattle.js_step_object.specs.Defining.{Comes};

use js_machine::{Next, State, node_at};
use js_names::bind_in;
use js_semantics::StepFault;
use js_step_object::make_function;
use js_tree::{Node, NodeId, Tree};
use wl_text::Units;
use world_heap::{Loc, Value};

// Makes the function of a declaration, and gives it to the declared name.
fn fill_declared(
    state: &mut State,
    name: &Units,
    item: NodeId,
    env: Loc,
) -> Result<Option<Next>, StepFault>
    ensures does { (nodes : List kind.Node) → IfOk result (λ ended. Comes nodes (λ p. make_function item env (λ loc. change (bind_in env name.now (Value.Ref loc)) p)) state.old state.new ended) }
    ensures closed { (nodes : List kind.Node) → IsClosed nodes state.old → IsCell nat_eq state.old.heap.cells env → Lasts nodes state.old state.new result }
{
    match make_function(state, item, env)? {
        Ok(function) => {
            bind_in(
                state.alloc,
                &mut state.heap,
                env,
                name,
                Value::Ref(function),
            )?;
            Ok(None)
        }
        Err(next) => Ok(Some(next)),
    }
}

// Makes the function of a node, where it declares one.
fn fill_node(
    state: &mut State,
    node: &Node,
    item: NodeId,
    env: Loc,
) -> Result<Option<Next>, StepFault>
    ensures does { (nodes : List kind.Node) → IfOk result (λ ended. Comes nodes (λ p. fill_function (Some node.now) item env p) state.old state.new ended) }
    ensures closed { (nodes : List kind.Node) → IsClosed nodes state.old → IsCell nat_eq state.old.heap.cells env → Lasts nodes state.old state.new result }
{
    match node {
        Node::FunDecl { name, .. } => fill_declared(state, name, item, env),
        _ => Ok(None),
    }
}

// Makes the function of an item, where it declares one.
fn fill_item(
    state: &mut State,
    tree: &Tree,
    item: NodeId,
    env: Loc,
) -> Result<Option<Next>, StepFault>
    ensures does { IfOk result (λ ended. Comes (nodes_of tree.now) (λ p. fill_function (slice_get (nodes_of tree.now) item.0) item env p) state.old state.new ended) }
    ensures closed { IsClosed (nodes_of tree.now) state.old → IsCell nat_eq state.old.heap.cells env → Lasts (nodes_of tree.now) state.old state.new result }
{
    match node_at(tree, item) {
        Some(node) => fill_node(state, node, item, env),
        None => Ok(None),
    }
}

/// Makes the functions that items declare, one after another, and gives them to their names in an environment; or the
/// row has ended, since the world stops.
pub fn fill_functions(
    state: &mut State,
    tree: &Tree,
    items: &[NodeId],
    env: Loc,
) -> Result<Option<Next>, StepFault>
    ensures does { IfOk result (λ ended. Comes (nodes_of tree.now) (λ p. fill_functions items.now env p) state.old state.new ended) }
    ensures closed { IsClosed (nodes_of tree.now) state.old → IsCell nat_eq state.old.heap.cells env → Lasts (nodes_of tree.now) state.old state.new result }
{
    'items: for item in items {
        if let Some(next) = fill_item(state, tree, *item, env)? {
            return Ok(Some(next));
        }
    }
    Ok(None)
}
