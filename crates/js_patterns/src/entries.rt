//! The properties that an object pattern names, from a place on.
ghost use Rattle.std.specs.Prelude.{◌≡◌, ◌+◌, ◌-◌, ◌<◌, ◌^◌, [], ◌∷◌, drop, slice_get, Some, IfSome, MatchOption};
ghost use Rattle.js_names.specs.Patterns.{nodes_of};
ghost use Rattle.js_machine.specs.Parts.{entries_of};

use js_machine::node_at;
use js_tree::{BindProperty, Node, NodeId, Tree};

// The properties in a node.
#[tactic(auto, unfolding(js_machine::specs::Parts::entries_of))]
fn entries_in(node: &Node) -> &[BindProperty]
    ensures { result.now ≡ entries_of (Some node.now) }
{
    match node {
        Node::BindObject(parts) => parts.as_slice(),
        _ => &[],
    }
}

/// The properties of an object pattern; a node that is none has none.
#[tactic(auto, unfolding(js_machine::specs::Parts::entries_of))]
pub fn entries_of(tree: &Tree, node: NodeId) -> &[BindProperty]
    ensures { result.now ≡ entries_of (slice_get (nodes_of tree.now) node.0) }
{
    match node_at(tree, node) {
        Some(node) => entries_in(node),
        None => &[],
    }
}

/// The property at a place of a pattern, where it has so many.
#[tactic(auto, using(js_machine::proofs::Lists::drop_some, js_machine::proofs::Lists::drop_none))]
pub fn entry_at(tree: &Tree, node: NodeId, at: usize) -> Option<&BindProperty>
    ensures part { MatchOption result (drop at (entries_of (slice_get (nodes_of tree.now) node.0)) ≡ [])
        (λ part. drop at (entries_of (slice_get (nodes_of tree.now) node.0)) ≡ part.now ∷ drop (at + 1) (entries_of (slice_get (nodes_of tree.now) node.0))) }
    ensures last { IfSome result (λ part. at < 2 ^ 64 - 1) }
{
    let entries = entries_of(tree, node);
    if at < entries.len() {
        Some(&entries[at])
    } else {
        None
    }
}
