//! The names that patterns bind, and the bindings that scopes declare (ECMA-262, 8.2).
ghost use Rattle.std.specs.Prelude.{◌≡◌, ◌++◌, ◌∷◌, [], ◌<◌, Some, false, option_to_list, map, length, slice_get, OnOk, IfOk};
ghost use Rattle.std.specs.List.{flat_map};
ghost use Rattle.js_semantics.specs.Environments.{unready, names_of, declared_by, declared_in, parameters_of};
ghost use Rattle.js_semantics.specs.Access.{patterns_of};
ghost use Rattle.js_names.specs.Patterns.{nodes_of, own_names, parts_of};

use js_tree::{BindElement, Declarator, Function, Node, NodeId, Tree};
use sqlite_items::Items;
use std::alloc::{AllocError, Global};
use wl_text::Units;
use world_heap::Binding;

// Adds a binding that isn't ready.
fn declare(
    alloc: Global,
    name: &Units,
    fixed: bool,
    bindings: &mut Items<Binding>,
) -> Result<(), AllocError>
    ensures { OnOk result (bindings.new ≡ bindings.old ++ unready fixed name.now ∷ []) }
{
    let name = name.copy(alloc)?;
    bindings.push(Binding {
        name,
        value: None,
        fixed,
    })?;
    Ok(())
}

// Adds the name that a pattern binds itself.
fn declare_own(
    alloc: Global,
    node: &Node,
    fixed: bool,
    bindings: &mut Items<Binding>,
) -> Result<(), AllocError>
    ensures { OnOk result (bindings.new ≡ bindings.old ++ map (unready fixed) (own_names node.now)) }
{
    match node {
        Node::BindName(name) => {
            declare(alloc, name, fixed, bindings)?;
            Ok(())
        }
        _ => Ok(()),
    }
}

// How many patterns stand in a pattern.
fn part_count(node: &Node) -> usize
    ensures { result ≡ length (parts_of node.now) }
{
    match node {
        Node::BindObject(parts) => parts.len(),
        Node::BindArray(parts) => parts.len(),
        _ => 0,
    }
}

// A pattern in a pattern, by its place.
fn part_at(node: &Node, at: usize) -> NodeId
    requires { at < length (parts_of node.now) }
    ensures { slice_get (parts_of node.now) at ≡ Some result }
{
    match node {
        Node::BindObject(parts) => parts.as_slice()[at].bind,
        Node::BindArray(parts) => parts.as_slice()[at].bind,
        _ => unreachable!(),
    }
}

/// Adds the bindings of a pattern's names, in the order of the text, none of them ready (ECMA-262, 8.2.1:
/// BoundNames). A node that is no pattern, or doesn't stand, has none.
///
/// Where memory runs out some may have been added. The cost is linear in the pattern's nodes.
pub fn declare_pattern(
    alloc: Global,
    tree: &Tree,
    node: NodeId,
    fixed: bool,
    bindings: &mut Items<Binding>,
) -> Result<(), AllocError>
    ensures { OnOk result (bindings.new ≡ bindings.old ++ map (unready fixed) (names_of (nodes_of tree.now) node)) }
{
    if node.0 >= tree.len() {
        return Ok(());
    }
    tree.ordered();
    let here = tree.node(node);
    declare_own(alloc, here, fixed, bindings)?;
    'parts: for at in 0..part_count(here) {
        let part = part_at(here, at);
        declare_pattern(alloc, tree, part, fixed, bindings)?;
    }
    Ok(())
}

// Adds the bindings of the patterns of a `let` or `const`.
fn declare_pairs(
    alloc: Global,
    tree: &Tree,
    pairs: &[Declarator],
    fixed: bool,
    bindings: &mut Items<Binding>,
) -> Result<(), AllocError>
    ensures { OnOk result (bindings.new ≡ bindings.old ++ flat_map (λ pair. map (unready fixed) (names_of (nodes_of tree.now) pair.bind)) pairs.now) }
{
    'pairs: for pair in pairs {
        declare_pattern(alloc, tree, pair.bind, fixed, bindings)?;
    }
    Ok(())
}

// Adds the bindings that an item declares.
fn declare_item(
    alloc: Global,
    tree: &Tree,
    item: NodeId,
    bindings: &mut Items<Binding>,
) -> Result<(), AllocError>
    ensures { OnOk result (bindings.new ≡ bindings.old ++ declared_by (nodes_of tree.now) (slice_get (nodes_of tree.now) item.0)) }
{
    if item.0 >= tree.len() {
        return Ok(());
    }
    match tree.node(item) {
        Node::Let(pairs) => {
            declare_pairs(alloc, tree, pairs.as_slice(), false, bindings)?;
            Ok(())
        }
        Node::Const(pairs) => {
            declare_pairs(alloc, tree, pairs.as_slice(), true, bindings)?;
            Ok(())
        }
        Node::FunDecl { name, .. } => {
            declare(alloc, name, false, bindings)?;
            Ok(())
        }
        _ => Ok(()),
    }
}

/// The bindings that the items of a block or script declare, in the order of the text, none of them ready (ECMA-262,
/// 8.2.4: LexicallyScopedDeclarations). The cost is linear in the items and their patterns.
#[inline(always)]
pub fn declared_in(
    alloc: Global,
    tree: &Tree,
    items: &[NodeId],
) -> Result<Items<Binding>, AllocError>
    ensures { IfOk result (λ bindings. bindings ≡ declared_in (nodes_of tree.now) items.now) }
{
    let mut bindings = Items::new(alloc);
    'items: for item in items {
        declare_item(alloc, tree, *item, &mut bindings)?;
    }
    Ok(bindings)
}

// Adds the bindings of parameters.
fn declare_elements(
    alloc: Global,
    tree: &Tree,
    elements: &[BindElement],
    bindings: &mut Items<Binding>,
) -> Result<(), AllocError>
    ensures { OnOk result (bindings.new ≡ bindings.old ++ flat_map (λ element. map (unready false) (names_of (nodes_of tree.now) element.bind)) elements.now) }
{
    'elements: for element in elements {
        declare_pattern(alloc, tree, element.bind, false, bindings)?;
    }
    Ok(())
}

// Adds the bindings of a rest parameter.
fn declare_rest(
    alloc: Global,
    tree: &Tree,
    rest: Option<NodeId>,
    bindings: &mut Items<Binding>,
) -> Result<(), AllocError>
    ensures { OnOk result (bindings.new ≡ bindings.old ++ flat_map (λ pattern. map (unready false) (names_of (nodes_of tree.now) pattern)) (option_to_list rest)) }
{
    match rest {
        Some(pattern) => {
            declare_pattern(alloc, tree, pattern, false, bindings)?;
            Ok(())
        }
        None => Ok(()),
    }
}

/// The bindings of a function's parameters, in the order of the text, none of them ready (ECMA-262, 10.2.11). The
/// cost is linear in the patterns.
pub fn parameters_of(
    alloc: Global,
    tree: &Tree,
    function: &Function,
) -> Result<Items<Binding>, AllocError>
    ensures { IfOk result (λ bindings. bindings ≡ parameters_of (nodes_of tree.now) (patterns_of function.now)) }
{
    let mut bindings = Items::new(alloc);
    declare_elements(alloc, tree, function.parameters.as_slice(), &mut bindings)?;
    declare_rest(alloc, tree, function.rest, &mut bindings)?;
    Ok(bindings)
}
