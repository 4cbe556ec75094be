//! Each early error at its edges.
use crate::jump_rows::JUMPS;
use crate::name_rows::NAMES;
use crate::scope_rows::SCOPES;
use crate::target_rows::TARGETS;
use crate::test_trees::{Row, put, tree_of};
use crate::{ScopeFault, check_scope};
use js_tree::{BinaryOperator, Declarator, Function, Node, NodeId, Tree};
use sqlite_items::Items;
use std::alloc::Global;
use std::test::Fail;
use wl_text::{Units, number_text};

// What the first row says of which another fault is found than it wants.
fn first_wrong(alloc: Global, rows: &[Row]) -> Result<Option<&'static str>, Fail> {
    for row in rows {
        let tree = tree_of(alloc, row.parts)?;
        let found = match check_scope(alloc, &tree) {
            Ok(()) => None,
            Err(ScopeFault::At { node, kind }) => Some((node.0, kind)),
            Err(ScopeFault::Memory) => return Err(Fail::new("memory ran out")),
        };
        if found != row.want {
            return Ok(Some(row.what));
        }
    }
    Ok(None)
}

#[test]
fn the_first_node_that_breaks_a_rule_is_told(rt: HostRuntime) -> Result<(), Fail> {
    assert_eq!(rt; first_wrong(rt.alloc(), &SCOPES)?, None);
    assert_eq!(rt; first_wrong(rt.alloc(), &JUMPS)?, None);
    assert_eq!(rt; first_wrong(rt.alloc(), &TARGETS)?, None);
    assert_eq!(rt; first_wrong(rt.alloc(), &NAMES)?, None);
    Ok(())
}

fn numbered(alloc: Global, number: u32) -> Result<Units, Fail> {
    Ok(number_text(alloc, i64::from(number))?)
}

// A declaration of a name of its own.
fn declare(alloc: Global, tree: &mut Tree, number: u32) -> Result<NodeId, Fail> {
    let name = Node::BindName(numbered(alloc, number)?);
    let bind = put(alloc, tree, name)?;
    let mut pairs = Items::new(alloc);
    pairs.push(Declarator { bind, value: None })?;
    put(alloc, tree, Node::Let(pairs))
}

// Puts a script of the items, and looks for its first fault.
fn first_fault(alloc: Global, tree: &mut Tree, items: Vec<NodeId>) -> Result<Option<u32>, Fail> {
    put(alloc, tree, Node::Script(Items::from_vec(items)))?;
    match check_scope(alloc, tree) {
        Ok(()) => Ok(None),
        Err(ScopeFault::At { node, .. }) => Ok(Some(node.0)),
        Err(ScopeFault::Memory) => Err(Fail::new("memory ran out")),
    }
}

#[test]
fn large_scripts_are_checked(rt: HostRuntime) -> Result<(), Fail> {
    // 20,000 names in one scope, and one of them again
    let mut tree = Tree::new(rt.alloc());
    let mut items = Vec::new(rt.alloc());
    for number in 0..20_000 {
        items.push(declare(rt.alloc(), &mut tree, number)?)?;
    }
    items.push(declare(rt.alloc(), &mut tree, 12_345)?)?;
    assert_eq!(rt; first_fault(rt.alloc(), &mut tree, items)?, Some(40_000));
    // 200 scopes in one another, with 100 names each
    let mut tree = Tree::new(rt.alloc());
    let mut inner = put(rt.alloc(), &mut tree, Node::Empty)?;
    for _ in 0..200 {
        let mut items = Vec::new(rt.alloc());
        for number in 0..100 {
            items.push(declare(rt.alloc(), &mut tree, number)?)?;
        }
        items.push(inner)?;
        inner = put(rt.alloc(), &mut tree, Node::Block(Items::from_vec(items)))?;
    }
    let mut items = Vec::new(rt.alloc());
    items.push(inner)?;
    assert_eq!(rt; first_fault(rt.alloc(), &mut tree, items)?, None);
    // 20,000 functions side by side, then 20,000 operators in a row
    let mut tree = Tree::new(rt.alloc());
    let mut items = Vec::new(rt.alloc());
    for number in 0..20_000 {
        let name = numbered(rt.alloc(), number)?;
        let body = put(rt.alloc(), &mut tree, Node::Block(Items::new(rt.alloc())))?;
        let function = Function {
            parameters: Items::new(rt.alloc()),
            rest: None,
            body,
        };
        items.push(put(rt.alloc(), &mut tree, Node::FunDecl { name, function })?)?;
    }
    let mut left = put(rt.alloc(), &mut tree, Node::Num(0))?;
    for _ in 0..20_000 {
        let right = put(rt.alloc(), &mut tree, Node::Num(1))?;
        left = put(
            rt.alloc(),
            &mut tree,
            Node::Binary {
                operator: BinaryOperator::Add,
                left,
                right,
            },
        )?;
    }
    items.push(put(rt.alloc(), &mut tree, Node::ExprStmt(left))?)?;
    assert_eq!(rt; first_fault(rt.alloc(), &mut tree, items)?, None);
    Ok(())
}
