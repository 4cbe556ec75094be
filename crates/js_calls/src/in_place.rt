//! Parameters that are names, bound without a frame (ECMA-262, 8.6.2.1 and 10.2.11).
ghost use Rattle.std.specs.Prelude.{◌≡◌, ℕ, List, IfOk, IfSome, Some, slice_get};
ghost use Rattle.world_heap.specs.Over.{ListOver};
ghost use Rattle.js_tree.specs.declared.node.Node as kind;
ghost use Rattle.js_tree.specs.declared.node.NodeId as ids;
ghost use Rattle.js_names.specs.Patterns.{nodes_of};
ghost use Rattle.js_semantics.specs.Access.{bind_value, or_default};
ghost use Rattle.js_semantics.specs.Prog.{Prog};
ghost use Rattle.js_machine.specs.Closed.{IsClosed, Lasts, ValueFits};
ghost use Rattle.js_calls.specs.InPlace.{Binds, BindsTo};

use crate::binding::argument_at;
use crate::functions::parameter_at;
use js_machine::{Next, State, default_of, discard, node_at, stopped};
use js_names::fill_name;
use js_semantics::{Scope, StepFault};
use js_tree::{BindElement, Node, NodeId, Tree};
use sqlite_items::Items;
use wl_text::Units;
use world_heap::Value;
use world_log::Stop;

/// What binding a parameter in place comes to.
#[derive(Drop)]
pub(crate) enum Bound {
    /// The step of its pattern is taken, and the name is bound.
    Done,
    /// No step was left: the world has stopped.
    Ended(Next),
    /// It isn't bound in place: nothing was done.
    Nothing,
}

// The name that a pattern is.
fn name_in(node: &Node) -> Option<&Units>
    ensures { IfSome result (λ name. node.now ≡ Node.BindName name.now) }
{
    match node {
        Node::BindName(name) => Some(name),
        _ => None,
    }
}

// The name that the pattern with a number is.
fn name_at(tree: &Tree, pattern: NodeId) -> Option<&Units>
    ensures { IfSome result (λ name. slice_get (nodes_of tree.now) pattern.0 ≡ Some (Node.BindName name.now)) }
{
    match node_at(tree, pattern) {
        Some(node) => name_in(node),
        None => None,
    }
}

// Binds a name to a value, for the step of the pattern that it is.
fn bind_name(
    state: &mut State,
    name: &Units,
    value: Value,
    scope: &Scope,
) -> Result<Bound, StepFault>
    ensures does { (nodes : List kind.Node) (pattern : ids.NodeId) (p : Prog ℕ) → slice_get nodes pattern.0 ≡ Some (Node.BindName name.now) → IfOk result (λ bound. Binds nodes (bind_value pattern value scope.now p) p state.old state.new bound) }
    ensures closed { (nodes : List kind.Node) → IsClosed nodes state.old → ValueFits state.old.heap.cells value → Lasts nodes state.old state.new result }
{
    if !state.step_down() {
        discard(value);
        return Ok(Bound::Ended(stopped(Stop::Fuel)));
    }
    fill_name(state.alloc, &mut state.heap, scope.env, name, value)?;
    Ok(Bound::Done)
}

// Binds a value to a pattern in place, where it is a name.
fn bind_pattern(
    state: &mut State,
    tree: &Tree,
    pattern: NodeId,
    value: Value,
    scope: &Scope,
) -> Result<Bound, StepFault>
    ensures does { (p : Prog ℕ) → IfOk result (λ bound. Binds (nodes_of tree.now) (bind_value pattern value scope.now p) p state.old state.new bound) }
    ensures closed { IsClosed (nodes_of tree.now) state.old → ValueFits state.old.heap.cells value → Lasts (nodes_of tree.now) state.old state.new result }
{
    match name_at(tree, pattern) {
        Some(name) => bind_name(state, name, value, scope),
        None => {
            discard(value);
            Ok(Bound::Nothing)
        }
    }
}

// Binds an argument to its parameter in place, where that is a name and no default is to be evaluated.
fn bind_element(
    state: &mut State,
    tree: &Tree,
    element: BindElement,
    value: Value,
    scope: &Scope,
) -> Result<Bound, StepFault>
    ensures does { (p : Prog ℕ) → IfOk result (λ bound. Binds (nodes_of tree.now) (or_default element.default value scope.now (λ v. bind_value element.bind v scope.now p)) p state.old state.new bound) }
    ensures closed { IsClosed (nodes_of tree.now) state.old → ValueFits state.old.heap.cells value → Lasts (nodes_of tree.now) state.old state.new result }
{
    match default_of(&value, element.default) {
        Some(_) => {
            discard(value);
            Ok(Bound::Nothing)
        }
        None => bind_pattern(state, tree, element.bind, value, scope),
    }
}

/// Binds the parameters of a node's function in place, from the first on up to one that is no name or whose default is to
/// be evaluated, each for the step of its pattern; the place of that one, or what ended the world's run where no step was
/// left. The cost is linear in them.
///
/// # Errors
/// `Memory` where there is none; `Dangling` where an argument stands nowhere.
pub(crate) fn leading_parameters(
    state: &mut State,
    tree: &Tree,
    node: NodeId,
    arguments: &Items<Value>,
    scope: &Scope,
) -> Result<Result<usize, Next>, StepFault>
    ensures does { IfOk result (λ leading. BindsTo (nodes_of tree.now) node arguments.now scope.now state.old state.new leading) }
    ensures closed { IsClosed (nodes_of tree.now) state.old → ListOver (ValueFits state.old.heap.cells) arguments.now → Lasts (nodes_of tree.now) state.old state.new result }
{
    let mut at = 0;
    'parameters: while let Some((element, next)) = parameter_at(tree, node, at) {
        let value = argument_at(state.alloc, arguments, at)?;
        match bind_element(state, tree, element, value, scope)? {
            Bound::Done => at = next,
            Bound::Ended(ended) => return Ok(Err(ended)),
            Bound::Nothing => return Ok(Ok(at)),
        }
    }
    Ok(Ok(at))
}
