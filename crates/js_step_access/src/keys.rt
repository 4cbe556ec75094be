//! The texts of keys and names, which are found in the tree.
ghost use Rattle.std.specs.Prelude.{◌≡◌, ℕ, IfErr, IfOk, IfSome, IsSome, List, MatchResult, Some, slice_get};
ghost use Rattle.world_heap.specs.declared.cell.Cell as kept;
ghost use Rattle.js_machine.specs.Closed.{HasName, IsNamed};
ghost use Rattle.js_machine.specs.Frames.{key_text};
ghost use Rattle.js_machine.specs.Parts.{name_of};
ghost use Rattle.js_names.specs.Patterns.{nodes_of};
ghost use Rattle.js_step_expr.specs.Fitting.{KeyFits};

use js_machine::{Key, node_at};
use js_semantics::StepFault;
use js_tree::{Node, NodeId, Tree};
use std::alloc::Global;
use wl_text::Units;

// The name of a `Name` or `Dot` node.
#[tactic(auto, unfolding(js_machine::specs::Parts::name_of))]
fn name_in(node: &Node) -> Option<&Units>
    ensures is { IfSome result (λ name. name.now ≡ name_of (Some node.now)) }
    ensures named { HasName (Some node.now) → IsSome result }
{
    match node {
        Node::Name(name) => Some(name),
        Node::Dot { name, .. } => Some(name),
        _ => None,
    }
}

/// The name that a `Name` or `Dot` node of the tree has (ECMA-262, 13.1 and 13.3.2); `None` where there is no such node.
pub fn name_at(tree: &Tree, node: NodeId) -> Option<&Units>
    ensures is { IfSome result (λ name. name.now ≡ name_of (slice_get (nodes_of tree.now) node.0)) }
    ensures named { IsNamed (nodes_of tree.now) node → IsSome result }
{
    match node_at(tree, node) {
        Some(node) => name_in(node),
        None => None,
    }
}

/// The text of a key; `None` where it names a node that has none.
pub fn key_units<'a>(tree: &'a Tree, key: &'a Key) -> Option<&'a Units>
    ensures is { IfSome result (λ text. text.now ≡ key_text (nodes_of tree.now) key.now) }
    ensures named { (cells : List (ℕ × kept.Cell ℕ)) → KeyFits (nodes_of tree.now) cells key.now → IsSome result }
{
    match key {
        Key::Named(node) => name_at(tree, *node),
        Key::Text(text) => Some(text),
    }
}

/// The same key again. A text is shared, not copied, so the cost is constant.
///
/// # Errors
/// `Memory` where there is none.
pub fn copy_key(alloc: Global, key: &Key) -> Result<Key, StepFault>
    ensures { MatchResult result (λ copy. copy ≡ key.now) (λ fault. fault ≡ StepFault.Memory) }
{
    match key {
        Key::Named(node) => Ok(Key::Named(*node)),
        Key::Text(text) => Ok(Key::Text(text.copy(alloc)?)),
    }
}

// The text of a key, as one of its own.
pub(crate) fn own_text(alloc: Global, tree: &Tree, key: Key) -> Result<Units, StepFault>
    ensures is { IfOk result (λ text. text ≡ key_text (nodes_of tree.now) key) }
    ensures named { (cells : List (ℕ × kept.Cell ℕ)) → KeyFits (nodes_of tree.now) cells key → IfErr result (λ fault. fault ≡ StepFault.Memory) }
{
    match key {
        Key::Named(node) => match name_at(tree, node) {
            Some(name) => Ok(name.copy(alloc)?),
            None => Err(StepFault::Dangling),
        },
        Key::Text(text) => Ok(text),
    }
}
