//! Which names the scopes of a tree declare again.
ghost use Rattle.std.specs.Prelude.{◌≡◌, ◌<◌, ◌++◌, ℕ, List, length, map, reverse, nat_eq, IfOk, IfSome, OnOk};
ghost use Rattle.std.specs.List.{list_any, cons_option};
ghost use Rattle.std.specs.Option.{option_copied, option_map};
ghost use Rattle.js_tree.specs.Nodes.{StandsBelow, IsTree};
ghost use Rattle.js_scope.specs.Names.{declared_name, binding_parts, items_at, function_of, function_parts, catch_parts, other_parts, scope_parts, repeats, repeated_in, repeated};

use crate::children::{push_all, push_given};
use indexmap::IndexSet;
use js_tree::{BindElement, BindProperty, Declarator, Function, Node, NodeId, Tree};
use std::alloc::{AllocError, Global};
use wl_text::Units;

// The name that a node declares.
fn declared_name(node: &Node) -> Option<&Units>
    ensures { option_copied result ≡ declared_name node.now }
{
    match node {
        Node::BindName(name) | Node::FunDecl { name, .. } => Some(name),
        _ => None,
    }
}

fn push_declared(out: &mut Vec<u32>, pairs: &[Declarator]) -> Result<(), AllocError>
    ensures { OnOk result (out.new.items ≡ out.old.items ++ map (λ pair. pair.bind.0) pairs.now) }
{
    'pairs: for pair in pairs {
        out.push(pair.bind.0)?;
    }
    Ok(())
}

fn push_bound(out: &mut Vec<u32>, parts: &[BindElement]) -> Result<(), AllocError>
    ensures { OnOk result (out.new.items ≡ out.old.items ++ map (λ part. part.bind.0) parts.now) }
{
    'parts: for part in parts {
        out.push(part.bind.0)?;
    }
    Ok(())
}

fn push_bound_by_key(out: &mut Vec<u32>, parts: &[BindProperty]) -> Result<(), AllocError>
    ensures { OnOk result (out.new.items ≡ out.old.items ++ map (λ part. part.bind.0) parts.now) }
{
    'parts: for part in parts {
        out.push(part.bind.0)?;
    }
    Ok(())
}

// Adds the numbers of the parts of a declaration or a pattern that bind names.
fn push_binding_parts(out: &mut Vec<u32>, node: &Node) -> Result<(), AllocError>
    ensures { OnOk result (out.new.items ≡ out.old.items ++ binding_parts node.now) }
{
    match node {
        Node::Let(pairs) | Node::Const(pairs) => {
            push_declared(out, pairs.as_slice())?;
            Ok(())
        }
        Node::BindObject(parts) => {
            push_bound_by_key(out, parts.as_slice())?;
            Ok(())
        }
        Node::BindArray(parts) => {
            push_bound(out, parts.as_slice())?;
            Ok(())
        }
        _ => Ok(()),
    }
}

// Adds the numbers of the items of a block.
#[tactic(auto, unfolding(crate::specs::Names::items_at))]
fn push_items(out: &mut Vec<u32>, tree: &Tree, block: NodeId) -> Result<(), AllocError>
    requires { block.0 < length tree.now }
    ensures { OnOk result (out.new.items ≡ out.old.items ++ items_at tree.now block) }
{
    match tree.node(block) {
        Node::Block(items) => {
            push_all(out, items.as_slice())?;
            Ok(())
        }
        _ => Ok(()),
    }
}

// Adds the numbers of the parameters of a function, and of the items of its body.
fn push_function_parts(
    out: &mut Vec<u32>,
    tree: &Tree,
    function: &Function,
) -> Result<(), AllocError>
    requires { function.now.body.0 < length tree.now }
    ensures { OnOk result (out.new.items ≡ out.old.items ++ function_parts tree.now function.now) }
{
    push_bound(out, function.parameters.as_slice())?;
    push_given(out, function.rest)?;
    push_items(out, tree, function.body)?;
    Ok(())
}

/// The function that a node makes or declares.
pub fn function_of(node: &Node) -> Option<&Function>
    ensures { option_copied result ≡ function_of node.now }
{
    match node {
        Node::FunDecl { function, .. }
        | Node::Fun { function, .. }
        | Node::Arrow(function)
        | Node::Method { function, .. }
        | Node::Getter { function, .. }
        | Node::Setter { function, .. } => Some(function),
        _ => None,
    }
}

// Adds the numbers of the binding of a `catch`, and of the items of its body.
fn push_catch_parts(
    out: &mut Vec<u32>,
    tree: &Tree,
    bind: Option<NodeId>,
    handler: Option<NodeId>,
) -> Result<(), AllocError>
    requires { IfSome handler (λ id. id.0 < length tree.now) }
    ensures { OnOk result (out.new.items ≡ out.old.items ++ catch_parts tree.now bind handler) }
{
    let Some(bind) = bind else {
        return Ok(());
    };
    match handler {
        Some(handler) => {
            out.push(bind.0)?;
            push_items(out, tree, handler)?;
            Ok(())
        }
        None => Ok(()),
    }
}

// Adds the numbers of the nodes that declare the names of the scope of a node that is no function.
#[tactic(auto, unfolding(js_tree::specs::Nodes::StandsBelow, js_tree::specs::Children::children))]
fn push_other_parts(out: &mut Vec<u32>, tree: &Tree, node: &Node) -> Result<(), AllocError>
    requires { StandsBelow (length tree.now) node.now }
    ensures { OnOk result (out.new.items ≡ out.old.items ++ other_parts tree.now node.now) }
{
    match node {
        Node::Script(items) | Node::Block(items) => {
            push_all(out, items.as_slice())?;
            Ok(())
        }
        Node::Try { bind, handler, .. } => {
            push_catch_parts(out, tree, *bind, *handler)?;
            Ok(())
        }
        Node::For { first, .. } => {
            push_given(out, *first)?;
            Ok(())
        }
        Node::ForOf { bind, .. } => {
            out.push(bind.0)?;
            Ok(())
        }
        _ => Ok(()),
    }
}

// Adds the numbers of the nodes that declare the names of a node's scope.
#[tactic(auto, unfolding(crate::specs::Names::scope_parts))]
fn push_scope_parts(out: &mut Vec<u32>, tree: &Tree, node: &Node) -> Result<(), AllocError>
    requires { StandsBelow (length tree.now) node.now }
    ensures { OnOk result (out.new.items ≡ out.old.items ++ scope_parts tree.now node.now) }
{
    match function_of(node) {
        Some(function) => {
            push_function_parts(out, tree, function)?;
            Ok(())
        }
        None => {
            push_other_parts(out, tree, node)?;
            Ok(())
        }
    }
}

// Adds the parts of a declaration or a pattern that bind names, the last one first.
fn push_binding_parts_reversed(
    alloc: Global,
    waiting: &mut Vec<u32>,
    node: &Node,
) -> Result<(), AllocError>
    ensures { OnOk result (waiting.new.items ≡ waiting.old.items ++ reverse (binding_parts node.now)) }
{
    let mut parts = Vec::new(alloc);
    push_binding_parts(&mut parts, node)?;
    parts.reverse();
    waiting.append(&mut parts)?;
    Ok(())
}

// Adds the number of a node that declares a name, where one before it does so too.
fn push_repeated(
    alloc: Global,
    again: &mut Vec<u32>,
    before: &mut IndexSet<Units>,
    id: u32,
    node: &Node,
) -> Result<(), AllocError>
    // Whatever follows, the nodes by which a name comes again are these.
    ensures { OnOk result ((rest : List (ℕ × List ℕ)) → again.new.items ++ repeats before.new.keys rest
        ≡ again.old.items ++ repeats before.old.keys (cons_option (option_map (λ name. (id, name)) (declared_name node.now)) rest)) }
{
    let Some(name) = declared_name(node) else {
        return Ok(());
    };
    let name = name.copy(alloc)?;
    if before.insert(name)? {
        return Ok(());
    }
    again.push(id)?;
    Ok(())
}

// Adds the numbers of the nodes by which a name comes again in a node's scope.
fn push_repeats(
    alloc: Global,
    again: &mut Vec<u32>,
    tree: &Tree,
    node: &Node,
) -> Result<(), AllocError>
    requires ordered { IsTree tree.now }
    requires stands { StandsBelow (length tree.now) node.now }
    ensures { OnOk result (again.new.items ≡ again.old.items ++ repeated_in tree.now node.now) }
{
    let mut waiting = Vec::new(alloc);
    push_scope_parts(&mut waiting, tree, node)?;
    waiting.reverse();
    let mut before = IndexSet::new(alloc);
    'names: while let Some(id) = waiting.pop() {
        let part = tree.node(NodeId(id));
        push_repeated(alloc, again, &mut before, id, part)?;
        push_binding_parts_reversed(alloc, &mut waiting, part)?;
    }
    Ok(())
}

fn set_of(alloc: Global, ids: &[u32]) -> Result<IndexSet<u32>, AllocError>
    ensures { IfOk result (λ set. (id : ℕ) → list_any (nat_eq id) set.keys ≡ list_any (nat_eq id) ids.now) }
{
    let mut set = IndexSet::new(alloc);
    'ids: for id in ids {
        set.insert(*id)?;
    }
    Ok(set)
}

/// The numbers of the nodes by which a name comes again in its scope. It takes time in proportion to the tree.
pub fn repeated(alloc: Global, tree: &Tree) -> Result<IndexSet<u32>, AllocError>
    requires { IsTree tree.now }
    ensures { IfOk result (λ set. (id : ℕ) → list_any (nat_eq id) set.keys ≡ list_any (nat_eq id) (repeated tree.now)) }
{
    let mut again = Vec::new(alloc);
    'nodes: for id in 0..tree.len() {
        push_repeats(alloc, &mut again, tree, tree.node(NodeId(id)))?;
    }
    let set = set_of(alloc, again.as_slice())?;
    Ok(set)
}
