//! The rules that a node may break, and the places in a tree.
ghost use Rattle.std.specs.Prelude.{◌≡◌, ◌<◌, ◌++◌, length, map, reverse, nat_eq, OnOk, ℕ};
ghost use Rattle.std.specs.List.{list_any};
ghost use Rattle.js_tree.specs.Nodes.{node_at, StandsBelow};
ghost use Rattle.js_scope.specs.Names.{repeated};
ghost use Rattle.js_scope.specs.Rules.{within, parts_at, is_loop, is_return, is_jump, is_reference, is_restricted, has_restricted_name, sets_proto, misses_target, deletes_name, broken_by};

use crate::children::push_children;
use crate::fault::ScopeKind;
use crate::names::function_of;
use crate::place::Place;
use indexmap::IndexSet;
use js_tree::{Node, NodeId, PropertyKey, Tree};
use std::alloc::{AllocError, Global};
use wl_text::Units;

const EVAL: [u16; 4] = [101, 118, 97, 108];

const ARGUMENTS: [u16; 9] = [97, 114, 103, 117, 109, 101, 110, 116, 115];

const PROTO: [u16; 9] = [95, 95, 112, 114, 111, 116, 111, 95, 95];

fn is_loop(node: &Node) -> bool
    ensures { result ≡ is_loop node.now }
{
    matches!(
        node,
        Node::While { .. } | Node::DoWhile { .. } | Node::For { .. } | Node::ForOf { .. }
    )
}

fn within(place: Place, node: &Node, child: u32) -> Place
    ensures { result ≡ within place node.now child }
{
    let function = function_of(node).is_some();
    Place {
        node: NodeId(child),
        in_function: function || place.in_function,
        in_loop: is_loop(node) || (!function && place.in_loop),
    }
}

/// Adds the parts of what stands at a place, the last one first.
#[tactic(auto, unfolding(crate::specs::Rules::parts_at))]
pub fn push_parts(
    alloc: Global,
    waiting: &mut Vec<Place>,
    tree: &Tree,
    place: Place,
) -> Result<(), AllocError>
    requires { place.node.0 < length tree.now }
    ensures { OnOk result (waiting.new.items ≡ waiting.old.items ++ reverse (parts_at tree.now place)) }
{
    let node = tree.node(place.node);
    let mut parts = Vec::new(alloc);
    push_children(&mut parts, node)?;
    'parts: while let Some(child) = parts.pop() {
        waiting.push(within(place, node, child))?;
    }
    Ok(())
}

fn is_return(node: &Node) -> bool
    ensures { result ≡ is_return node.now }
{
    matches!(node, Node::Return(_))
}

fn is_jump(node: &Node) -> bool
    ensures { result ≡ is_jump node.now }
{
    matches!(node, Node::Break | Node::Continue)
}

fn is_reference(node: &Node) -> bool
    ensures { result ≡ is_reference node.now }
{
    matches!(node, Node::Name(_) | Node::Dot { .. } | Node::Index { .. })
}

// Whether a node writes to what can't be written to.
#[tactic(auto, unfolding(js_tree::specs::Nodes::StandsBelow, js_tree::specs::Children::children))]
fn misses_target(tree: &Tree, node: &Node) -> bool
    requires { StandsBelow (length tree.now) node.now }
    ensures { result ≡ misses_target tree.now node.now }
{
    match node {
        Node::Assign { target, .. } | Node::AssignOp { target, .. } | Node::Update { target, .. } =>
            !is_reference(tree.node(*target)),
        _ => false,
    }
}

// Whether a node deletes a name.
#[tactic(auto, unfolding(js_tree::specs::Nodes::StandsBelow, js_tree::specs::Children::children))]
fn deletes_name(tree: &Tree, node: &Node) -> bool
    requires { StandsBelow (length tree.now) node.now }
    ensures { result ≡ deletes_name tree.now node.now }
{
    match node {
        Node::Delete(operand) => matches!(tree.node(*operand), Node::Name(_)),
        _ => false,
    }
}

fn is_restricted(name: &Units) -> bool
    ensures { result ≡ is_restricted name.now }
{
    let name = name.as_slice();
    name == EVAL.as_slice() || name == ARGUMENTS.as_slice()
}

// Whether a node is or binds a name that strict code doesn't have.
fn has_restricted_name(node: &Node) -> bool
    ensures { result ≡ has_restricted_name node.now }
{
    match node {
        Node::Name(name) | Node::FunDecl { name, .. } | Node::BindName(name) => is_restricted(name),
        Node::Fun {
            name: Some(name),
            ..
        } => is_restricted(name),
        _ => false,
    }
}

// Whether a node is a property with the written key `__proto__`.
fn sets_proto(node: &Node) -> bool
    ensures { result ≡ sets_proto node.now }
{
    match node {
        Node::Property {
            key: PropertyKey::Written(key),
            ..
        } => key.as_slice() == PROTO.as_slice(),
        _ => false,
    }
}

/// The first rule that the node at a place breaks, where the numbers of the repeated declarations are given.
#[tactic(auto, unfolding(crate::specs::Rules::broken_by, crate::specs::Rules::breaks))]
pub fn broken_by(tree: &Tree, again: &IndexSet<u32>, place: Place, node: &Node) -> Option<ScopeKind>
    requires stands { StandsBelow (length tree.now) node.now }
    requires again { (id : ℕ) → list_any (nat_eq id) again.now.keys ≡ list_any (nat_eq id) (repeated tree.now) }
    ensures { result ≡ broken_by tree.now (repeated tree.now) place node.now }
{
    if again.contains(&place.node.0) {
        return Some(ScopeKind::Twice);
    }
    if is_return(node) && !place.in_function {
        return Some(ScopeKind::Return);
    }
    if is_jump(node) && !place.in_loop {
        return Some(ScopeKind::Loop);
    }
    if misses_target(tree, node) {
        return Some(ScopeKind::Target);
    }
    if deletes_name(tree, node) {
        return Some(ScopeKind::Delete);
    }
    if has_restricted_name(node) {
        return Some(ScopeKind::Name);
    }
    if sets_proto(node) {
        return Some(ScopeKind::Proto);
    }
    None
}
