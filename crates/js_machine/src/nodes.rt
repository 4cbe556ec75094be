//! Nodes of the tree by their numbers, and lists of nodes from a place on.
ghost use Rattle.std.specs.Prelude.{◌≡◌, ◌+◌, [], ◌∷◌, drop, slice_get, None, Some, MatchOption};
ghost use Rattle.js_names.specs.Patterns.{nodes_of};
ghost use Rattle.js_machine.specs.Parts.{items_of};

use js_tree::{Node, NodeId, Tree};

/// The node with a number, where it stands. The cost is constant.
#[tactic(auto, using(crate::proofs::Lists::node_some, crate::proofs::Lists::node_none))]
pub fn node_at(tree: &Tree, id: NodeId) -> Option<&Node>
    ensures { MatchOption result (slice_get (nodes_of tree.now) id.0 ≡ None) (λ node. slice_get (nodes_of tree.now) id.0 ≡ Some node.now) }
{
    if id.0 < tree.len() {
        Some(tree.node(id))
    } else {
        None
    }
}

// The items, elements, members or arguments in a node.
#[tactic(auto, unfolding(crate::specs::Parts::items_of))]
fn items_in(node: &Node) -> &[NodeId]
    ensures { result.now ≡ items_of (Some node.now) }
{
    match node {
        Node::Script(items) => items.as_slice(),
        Node::Block(items) => items.as_slice(),
        Node::ArrayLit(elements) => elements.as_slice(),
        Node::ObjectLit(members) => members.as_slice(),
        Node::Call { arguments, .. } => arguments.as_slice(),
        Node::New { arguments, .. } => arguments.as_slice(),
        _ => &[],
    }
}

/// The items of a script or block, the elements or members of a literal, or the arguments of a call or `new`; any other
/// node has none. The cost is constant.
#[tactic(auto, unfolding(crate::specs::Parts::items_of))]
pub fn items_of(tree: &Tree, node: NodeId) -> &[NodeId]
    ensures { result.now ≡ items_of (slice_get (nodes_of tree.now) node.0) }
{
    match node_at(tree, node) {
        Some(node) => items_in(node),
        None => &[],
    }
}

/// What stands at a place of a list, and the place behind it; `None` where the list ends before. The cost is constant.
#[tactic(auto, using(crate::proofs::Lists::drop_some, crate::proofs::Lists::drop_none))]
pub fn next_of<T: Copy>(list: &[T], at: usize) -> Option<(T, usize)>
    ensures { MatchOption result (drop at list.now ≡ []) (λ found. (drop at list.now ≡ found.0 ∷ drop found.1 list.now) × (found.1 ≡ at + 1)) }
{
    if at < list.len() {
        Some((list[at], at + 1))
    } else {
        None
    }
}
