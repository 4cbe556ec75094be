//! Trees that are made, read and copied.
use crate::{BinaryOperator, BindElement, Function, Node, NodeId, PropertyKey, Tree};
use sqlite_items::Items;
use std::test::Fail;
use wl_text::{TextFault, Units};

fn text(rt: &HostRuntime, text: &str) -> Result<Units, TextFault> {
    Units::of_text(rt.alloc(), text)
}

#[test]
#[tactic(auto, unfolding(crate::specs::Nodes::StandsBelow, crate::specs::Children::children))]
fn a_tree_keeps_nodes_places_and_its_root(rt: HostRuntime) -> Result<(), Fail> {
    let mut tree = Tree::new(rt.alloc());
    assert!(rt; tree.is_empty());
    assert!(rt; tree.root().is_none());
    // 7 * x;
    let seven = tree.add(Node::Num(7), 0)?;
    let name = Node::Name(text(&rt, "x")?);
    let name = tree.add(name, 4)?;
    let product = Node::Binary {
        operator: BinaryOperator::Multiply,
        left: seven,
        right: name,
    };
    let product = tree.add(product, 0)?;
    let root = tree.add(Node::ExprStmt(product), 0)?;
    assert_eq!(rt; root, NodeId(3));
    assert_eq!(rt; tree.root(), Some(root));
    assert_eq!(rt; tree.len(), 4);
    assert_eq!(rt; tree.place(name), 4);
    let found = match tree.node(name) {
        Node::Name(found) => found.same(&text(&rt, "x")?),
        _ => false,
    };
    assert!(rt; found);
    let copy = tree.copy(rt.alloc())?;
    assert_eq!(rt; copy.root(), Some(root));
    assert_eq!(rt; copy.place(name), 4);
    let number = match copy.node(seven) {
        Node::Num(number) => *number,
        _ => 0,
    };
    assert_eq!(rt; number, 7);
    Ok(())
}

#[test]
#[tactic(auto, unfolding(crate::specs::Nodes::StandsBelow, crate::specs::Children::children))]
fn nodes_with_lists_and_texts_are_copied(rt: HostRuntime) -> Result<(), Fail> {
    let mut tree = Tree::new(rt.alloc());
    let bind = Node::BindName(text(&rt, "a")?);
    let bind = tree.add(bind, 1)?;
    let body = tree.add(Node::Block(Items::new(rt.alloc())), 4)?;
    let mut parameters = Items::new(rt.alloc());
    parameters.push(BindElement {
        bind,
        default: None,
    })?;
    let function = Function {
        parameters,
        rest: None,
        body,
    };
    let method = Node::Method {
        key: PropertyKey::Written(text(&rt, "m")?),
        function,
    };
    let method = tree.add(method, 0)?;
    let copy = tree.copy(rt.alloc())?;
    let found = match copy.node(method) {
        Node::Method {
            key: PropertyKey::Written(key),
            function,
        } => {
            key.same(&text(&rt, "m")?) && function.body == body && function.parameters.len() == 1
        }
        _ => false,
    };
    assert!(rt; found);
    Ok(())
}

#[test]
fn a_list_of_nodes_is_a_tree_where_children_stand_before_their_parents(
    rt: HostRuntime,
) -> Result<(), Fail> {
    let ordered = vec![in rt.alloc(); (Node::This, 2), (Node::Throw(NodeId(0)), 0)]?;
    assert!(rt; Tree::from_nodes(ordered).is_some());
    let turned = vec![in rt.alloc(); (Node::Throw(NodeId(1)), 0), (Node::This, 2)]?;
    assert!(rt; Tree::from_nodes(turned).is_none());
    Ok(())
}
