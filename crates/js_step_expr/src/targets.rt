//! Nodes as references, and the nodes of a tree.
ghost use Rattle.std.specs.Prelude.{◌≡◌, slice_get};
ghost use Rattle.js_names.specs.Patterns.{nodes_of};
ghost use Rattle.js_step_expr.specs.Targets.{target_in};

use js_machine::node_at;
use js_tree::{Node, NodeId, Tree};

/// What a node is as a reference (ECMA-262, 6.2.5).
#[derive(Debug, Drop, Clone, Copy, PartialEq, Eq)]
pub enum Target {
    Name,
    /// A property whose name the node has.
    Dot { object: NodeId },
    /// A property whose key is evaluated.
    Index { object: NodeId, key: NodeId },
    /// No reference.
    Other,
}

// What a node is as a reference.
#[tactic(auto, unfolding(crate::specs::Targets::target_in))]
fn target_in(node: &Node) -> Target
    ensures { result ≡ target_in (Some node.now) }
{
    match node {
        Node::Name(_) => Target::Name,
        Node::Dot { object, .. } => Target::Dot { object: *object },
        Node::Index { object, key } => Target::Index {
            object: *object,
            key: *key,
        },
        _ => Target::Other,
    }
}

/// What the node with a number is as a reference (ECMA-262, 6.2.5). The cost is constant.
#[tactic(auto, unfolding(crate::specs::Targets::target_in))]
pub fn target_of(tree: &Tree, node: NodeId) -> Target
    ensures { result ≡ target_in (slice_get (nodes_of tree.now) node.0) }
{
    match node_at(tree, node) {
        Some(node) => target_in(node),
        None => Target::Other,
    }
}
