//! The lists of nodes that rows go through, from a place on.
ghost use Rattle.std.specs.Prelude.{◌≡◌, slice_get, Some};
ghost use Rattle.js_names.specs.Patterns.{nodes_of};
ghost use Rattle.js_machine.specs.Parts.{declarators_of, elements_of};

use js_machine::node_at;
use js_tree::{BindElement, Declarator, Node, NodeId, Tree};

// The declarators in a node.
#[tactic(auto, unfolding(js_machine::specs::Parts::declarators_of))]
fn declarators_in(node: &Node) -> &[Declarator]
    ensures { result.now ≡ declarators_of (Some node.now) }
{
    match node {
        Node::Let(pairs) => pairs.as_slice(),
        Node::Const(pairs) => pairs.as_slice(),
        _ => &[],
    }
}

/// The bindings of a declaration.
#[tactic(auto, unfolding(js_machine::specs::Parts::declarators_of))]
pub fn declarators_of(tree: &Tree, node: NodeId) -> &[Declarator]
    ensures { result.now ≡ declarators_of (slice_get (nodes_of tree.now) node.0) }
{
    match node_at(tree, node) {
        Some(node) => declarators_in(node),
        None => &[],
    }
}

// The elements in a node.
#[tactic(auto, unfolding(js_machine::specs::Parts::elements_of))]
fn elements_in(node: &Node) -> &[BindElement]
    ensures { result.now ≡ elements_of (Some node.now) }
{
    match node {
        Node::BindArray(parts) => parts.as_slice(),
        _ => &[],
    }
}

/// The elements of an array pattern.
#[tactic(auto, unfolding(js_machine::specs::Parts::elements_of))]
pub fn elements_of(tree: &Tree, node: NodeId) -> &[BindElement]
    ensures { result.now ≡ elements_of (slice_get (nodes_of tree.now) node.0) }
{
    match node_at(tree, node) {
        Some(node) => elements_in(node),
        None => &[],
    }
}
