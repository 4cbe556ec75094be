//! The functions of a tree, and the parts of them.
ghost use Rattle.std.specs.Prelude.{◌≡◌, ◌+◌, [], ◌∷◌, drop, slice_get, Some, None, MatchOption};
ghost use Rattle.js_names.specs.Patterns.{nodes_of};
ghost use Rattle.js_semantics.specs.Access.{function_of};
ghost use Rattle.js_semantics.specs.Objects.{is_constructor};
ghost use Rattle.js_machine.specs.Parts.{body_node, parameters_from, rest_parameter};

use js_machine::{next_of, node_at};
use js_tree::{BindElement, Function, Node, NodeId, Tree};

// The function of a node.
#[tactic(auto, unfolding(js_semantics::specs::Access::function_of))]
fn function_in(node: &Node) -> Option<&Function>
    ensures { MatchOption result (function_of (Some node.now) ≡ None) (λ function. function_of (Some node.now) ≡ Some function.now) }
{
    match node {
        Node::FunDecl { function, .. } => Some(function),
        Node::Fun { function, .. } => Some(function),
        Node::Arrow(function) => Some(function),
        Node::Method { function, .. } => Some(function),
        Node::Getter { function, .. } => Some(function),
        Node::Setter { function, .. } => Some(function),
        _ => None,
    }
}

/// The function of a node, where it stands and has one.
#[tactic(auto, unfolding(js_semantics::specs::Access::function_of))]
pub fn function_at(tree: &Tree, node: NodeId) -> Option<&Function>
    ensures { MatchOption result (function_of (slice_get (nodes_of tree.now) node.0) ≡ None) (λ function. function_of (slice_get (nodes_of tree.now) node.0) ≡ Some function.now) }
{
    match node_at(tree, node) {
        Some(node) => function_in(node),
        None => None,
    }
}

// Whether a node makes functions that can be called with `new`.
fn makes_constructors(node: &Node) -> bool
    ensures { result ≡ is_constructor (Some node.now) }
{
    matches!(node, Node::FunDecl { .. } | Node::Fun { .. })
}

/// Whether the closures of a node can be called with `new` (ECMA-262, 10.2.5: MakeConstructor).
pub fn is_constructor(tree: &Tree, node: NodeId) -> bool
    ensures { result ≡ is_constructor (slice_get (nodes_of tree.now) node.0) }
{
    match node_at(tree, node) {
        Some(node) => makes_constructors(node),
        None => false,
    }
}

// The parameters of a node's function.
#[tactic(auto, unfolding(js_machine::specs::Parts::parameters_from))]
fn parameters_of(tree: &Tree, node: NodeId) -> &[BindElement]
    ensures { result.now ≡ parameters_from (slice_get (nodes_of tree.now) node.0) }
{
    match function_at(tree, node) {
        Some(function) => function.parameters.as_slice(),
        None => &[],
    }
}

/// The parameter of a node's function at a place, and the place behind it.
pub fn parameter_at(tree: &Tree, node: NodeId, at: usize) -> Option<(BindElement, usize)>
    ensures { MatchOption result (drop at (parameters_from (slice_get (nodes_of tree.now) node.0)) ≡ [])
        (λ found. (drop at (parameters_from (slice_get (nodes_of tree.now) node.0)) ≡ found.0 ∷ drop found.1 (parameters_from (slice_get (nodes_of tree.now) node.0))) × (found.1 ≡ at + 1)) }
{
    next_of(parameters_of(tree, node), at)
}

/// The rest parameter of a node's function, where it has one.
#[tactic(auto, unfolding(js_machine::specs::Parts::rest_parameter))]
pub fn rest_parameter(tree: &Tree, node: NodeId) -> Option<NodeId>
    ensures { result ≡ rest_parameter (slice_get (nodes_of tree.now) node.0) }
{
    match function_at(tree, node) {
        Some(function) => function.rest,
        None => None,
    }
}

/// The body of a node's function, or the first node where it has none.
#[tactic(auto, unfolding(js_machine::specs::Parts::body_node))]
pub fn body_of(tree: &Tree, node: NodeId) -> NodeId
    ensures { result ≡ body_node (slice_get (nodes_of tree.now) node.0) }
{
    match function_at(tree, node) {
        Some(function) => function.body,
        None => NodeId(0),
    }
}
