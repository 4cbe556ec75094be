//! Trees for tests, put together from a list of parts.
ghost use Rattle.std.specs.Prelude.{◌↔◌, ◌<◌, All, IsTrue};

use crate::ScopeKind;
use crate::children::push_children;
use js_tree::{
    BinaryOperator, BindElement, BindProperty, Declarator, Function, Node, NodeId, PropertyKey,
    Tree, UpdateOperator,
};
use sqlite_items::Items;
use std::alloc::Global;
use std::test::Fail;
use wl_text::Units;

/// A node whose children are the last nodes that have no parent yet.
pub enum Part {
    Script(u32),
    Block(u32),
    /// A declaration of one pattern without a value.
    Let,
    Const,
    /// A function with so many parameters, then its body.
    FunDecl(&'static str, u32),
    Fun(Option<&'static str>, u32),
    Arrow(u32),
    /// An arrow function with a rest parameter after so many others.
    RestArrow(u32),
    Method(&'static str, u32),
    Return,
    Break,
    Continue,
    While,
    /// A `for` with a first part and a body.
    For,
    ForOf,
    /// A `try` with a block, a binding and its body.
    TryBind,
    /// A `try` with a block and the body of a `catch` without a binding.
    Try,
    Statement,
    Name(&'static str),
    Num,
    Assign,
    AddAssign,
    Increment,
    Delete,
    Dot(&'static str),
    Index,
    Object(u32),
    Property(&'static str),
    ComputedProperty,
    Bind(&'static str),
    BindObject(u32),
    BindArray(u32),
}

/// A script, and the node that breaks a rule.
pub struct Row {
    pub what: &'static str,
    pub parts: &'static [Part],
    pub want: Option<(u32, ScopeKind)>,
}

// Whether all numbers are below a bound.
fn all_below(ids: &[u32], count: u32) -> bool
    ensures { IsTrue result ↔ All (λ id. id < count) ids.now }
{
    ids.iter().all(|id| *id < count)
}

/// Adds a node to the tree and tells its place.
#[tactic(auto, unfolding(js_tree::specs::Nodes::StandsBelow))]
pub(crate) fn put(alloc: Global, tree: &mut Tree, node: Node) -> Result<NodeId, Fail> {
    let mut ids = Vec::new(alloc);
    push_children(&mut ids, &node)?;
    let count = tree.len();
    if all_below(&ids, count) && count < u32::MAX - 1 {
        return Ok(tree.add(node, count)?);
    }
    Err(Fail::new("a child is missing"))
}

fn take_one(open: &mut Vec<NodeId>) -> Result<NodeId, Fail> {
    match open.pop() {
        Some(id) => Ok(id),
        None => Err(Fail::new("a part is missing")),
    }
}

fn take_many(alloc: Global, open: &mut Vec<NodeId>, count: u32) -> Result<Items<NodeId>, Fail> {
    let mut ids = Vec::new(alloc);
    for _ in 0..count {
        ids.push(take_one(open)?)?;
    }
    ids.reverse();
    Ok(Items::from_vec(ids))
}

fn text(alloc: Global, name: &str) -> Result<Units, Fail> {
    Ok(Units::of_text(alloc, name)?)
}

fn function_with(
    alloc: Global,
    open: &mut Vec<NodeId>,
    count: u32,
    has_rest: bool,
) -> Result<Function, Fail> {
    let body = take_one(open)?;
    let rest = if has_rest {
        Some(take_one(open)?)
    } else {
        None
    };
    let mut parameters = Items::new(alloc);
    for bind in take_many(alloc, open, count)?.as_slice() {
        parameters.push(BindElement {
            bind: *bind,
            default: None,
        })?;
    }
    Ok(Function {
        parameters,
        rest,
        body,
    })
}

fn declaration(alloc: Global, open: &mut Vec<NodeId>) -> Result<Items<Declarator>, Fail> {
    let bind = take_one(open)?;
    let mut pairs = Items::new(alloc);
    pairs.push(Declarator { bind, value: None })?;
    Ok(pairs)
}

fn key_of(alloc: Global, name: &str) -> Result<PropertyKey, Fail> {
    Ok(PropertyKey::Written(text(alloc, name)?))
}

fn function_node(alloc: Global, open: &mut Vec<NodeId>, part: &Part) -> Result<Node, Fail> {
    match part {
        Part::FunDecl(name, count) => Ok(Node::FunDecl {
            name: text(alloc, name)?,
            function: function_with(alloc, open, *count, false)?,
        }),
        Part::Fun(None, count) => Ok(Node::Fun {
            name: None,
            function: function_with(alloc, open, *count, false)?,
        }),
        Part::Fun(Some(name), count) => Ok(Node::Fun {
            name: Some(text(alloc, name)?),
            function: function_with(alloc, open, *count, false)?,
        }),
        Part::Arrow(count) => Ok(Node::Arrow(function_with(alloc, open, *count, false)?)),
        Part::RestArrow(count) => Ok(Node::Arrow(function_with(alloc, open, *count, true)?)),
        Part::Method(name, count) => Ok(Node::Method {
            key: key_of(alloc, name)?,
            function: function_with(alloc, open, *count, false)?,
        }),
        _ => pattern_node(alloc, open, part),
    }
}

fn pattern_node(alloc: Global, open: &mut Vec<NodeId>, part: &Part) -> Result<Node, Fail> {
    match part {
        Part::Let => Ok(Node::Let(declaration(alloc, open)?)),
        Part::Const => Ok(Node::Const(declaration(alloc, open)?)),
        Part::Bind(name) => Ok(Node::BindName(text(alloc, name)?)),
        Part::BindObject(count) => {
            let mut parts = Items::new(alloc);
            for bind in take_many(alloc, open, *count)?.as_slice() {
                parts.push(BindProperty {
                    key: text(alloc, "key")?,
                    bind: *bind,
                    default: None,
                })?;
            }
            Ok(Node::BindObject(parts))
        }
        Part::BindArray(count) => {
            let mut parts = Items::new(alloc);
            for bind in take_many(alloc, open, *count)?.as_slice() {
                parts.push(BindElement {
                    bind: *bind,
                    default: None,
                })?;
            }
            Ok(Node::BindArray(parts))
        }
        _ => statement_node(alloc, open, part),
    }
}

fn statement_node(alloc: Global, open: &mut Vec<NodeId>, part: &Part) -> Result<Node, Fail> {
    match part {
        Part::Script(count) => Ok(Node::Script(take_many(alloc, open, *count)?)),
        Part::Block(count) => Ok(Node::Block(take_many(alloc, open, *count)?)),
        Part::Return => Ok(Node::Return(None)),
        Part::Break => Ok(Node::Break),
        Part::Continue => Ok(Node::Continue),
        Part::While => {
            let body = take_one(open)?;
            let test = take_one(open)?;
            Ok(Node::While { test, body })
        }
        Part::For => {
            let body = take_one(open)?;
            Ok(Node::For {
                first: Some(take_one(open)?),
                test: None,
                next: None,
                body,
            })
        }
        Part::ForOf => {
            let body = take_one(open)?;
            let list = take_one(open)?;
            Ok(Node::ForOf {
                constant: true,
                bind: take_one(open)?,
                list,
                body,
            })
        }
        Part::TryBind => {
            let handler = take_one(open)?;
            let bind = take_one(open)?;
            Ok(Node::Try {
                block: take_one(open)?,
                bind: Some(bind),
                handler: Some(handler),
                last: None,
            })
        }
        Part::Try => {
            let handler = take_one(open)?;
            Ok(Node::Try {
                block: take_one(open)?,
                bind: None,
                handler: Some(handler),
                last: None,
            })
        }
        _ => expression_node(alloc, open, part),
    }
}

fn expression_node(alloc: Global, open: &mut Vec<NodeId>, part: &Part) -> Result<Node, Fail> {
    match part {
        Part::Name(name) => Ok(Node::Name(text(alloc, name)?)),
        Part::Assign => {
            let value = take_one(open)?;
            let target = take_one(open)?;
            Ok(Node::Assign { target, value })
        }
        Part::AddAssign => {
            let value = take_one(open)?;
            Ok(Node::AssignOp {
                operator: BinaryOperator::Add,
                target: take_one(open)?,
                value,
            })
        }
        Part::Increment => Ok(Node::Update {
            operator: UpdateOperator::Increment,
            target: take_one(open)?,
            before: true,
        }),
        Part::Delete => Ok(Node::Delete(take_one(open)?)),
        Part::Dot(name) => Ok(Node::Dot {
            object: take_one(open)?,
            name: text(alloc, name)?,
        }),
        Part::Index => {
            let key = take_one(open)?;
            let object = take_one(open)?;
            Ok(Node::Index { object, key })
        }
        Part::Object(count) => Ok(Node::ObjectLit(take_many(alloc, open, *count)?)),
        Part::Property(name) => Ok(Node::Property {
            key: key_of(alloc, name)?,
            value: take_one(open)?,
        }),
        Part::ComputedProperty => {
            let value = take_one(open)?;
            let key = PropertyKey::Computed(take_one(open)?);
            Ok(Node::Property { key, value })
        }
        Part::Statement => Ok(Node::ExprStmt(take_one(open)?)),
        _ => Ok(Node::Num(1)),
    }
}

/// The tree that a list of parts spells, each part after its children.
pub(crate) fn tree_of(alloc: Global, parts: &[Part]) -> Result<Tree, Fail> {
    let mut tree = Tree::new(alloc);
    let mut open = Vec::new(alloc);
    for part in parts {
        let node = function_node(alloc, &mut open, part)?;
        let id = put(alloc, &mut tree, node)?;
        open.push(id)?;
    }
    Ok(tree)
}
