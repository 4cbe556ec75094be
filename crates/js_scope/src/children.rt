//! The children of a node.
ghost use Rattle.std.specs.Prelude.{◌≡◌, [], ◌∷◌, ◌++◌, OnOk};
ghost use Rattle.js_tree.specs.Children.{given, all_of, of_declarators, of_elements, of_properties, of_function, of_key, children};

use js_tree::{BindElement, BindProperty, Declarator, Function, Node, NodeId, PropertyKey};
use std::alloc::AllocError;

/// Adds the number of a node, where there is one.
pub fn push_given(out: &mut Vec<u32>, id: Option<NodeId>) -> Result<(), AllocError>
    ensures { OnOk result (out.new.items ≡ out.old.items ++ given id) }
{
    match id {
        Some(id) => {
            out.push(id.0)?;
            Ok(())
        }
        None => Ok(()),
    }
}

/// Adds the numbers of nodes.
pub fn push_all(out: &mut Vec<u32>, ids: &[NodeId]) -> Result<(), AllocError>
    ensures { OnOk result (out.new.items ≡ out.old.items ++ all_of ids.now) }
{
    'ids: for id in ids {
        out.push(id.0)?;
    }
    Ok(())
}

fn push_declarators(out: &mut Vec<u32>, pairs: &[Declarator]) -> Result<(), AllocError>
    ensures { OnOk result (out.new.items ≡ out.old.items ++ of_declarators pairs.now) }
{
    'pairs: for pair in pairs {
        out.push(pair.bind.0)?;
        push_given(out, pair.value)?;
    }
    Ok(())
}

fn push_elements(out: &mut Vec<u32>, parts: &[BindElement]) -> Result<(), AllocError>
    ensures { OnOk result (out.new.items ≡ out.old.items ++ of_elements parts.now) }
{
    'parts: for part in parts {
        out.push(part.bind.0)?;
        push_given(out, part.default)?;
    }
    Ok(())
}

fn push_properties(out: &mut Vec<u32>, parts: &[BindProperty]) -> Result<(), AllocError>
    ensures { OnOk result (out.new.items ≡ out.old.items ++ of_properties parts.now) }
{
    'parts: for part in parts {
        out.push(part.bind.0)?;
        push_given(out, part.default)?;
    }
    Ok(())
}

fn push_function(out: &mut Vec<u32>, function: &Function) -> Result<(), AllocError>
    ensures { OnOk result (out.new.items ≡ out.old.items ++ of_function function.now) }
{
    push_elements(out, function.parameters.as_slice())?;
    push_given(out, function.rest)?;
    out.push(function.body.0)?;
    Ok(())
}

fn push_key(out: &mut Vec<u32>, key: &PropertyKey) -> Result<(), AllocError>
    ensures { OnOk result (out.new.items ≡ out.old.items ++ of_key key.now) }
{
    match key {
        PropertyKey::Written(_) => Ok(()),
        PropertyKey::Computed(id) => {
            out.push(id.0)?;
            Ok(())
        }
    }
}

fn push_two(out: &mut Vec<u32>, first: NodeId, second: NodeId) -> Result<(), AllocError>
    ensures { OnOk result (out.new.items ≡ out.old.items ++ all_of (first ∷ second ∷ [])) }
{
    out.push(first.0)?;
    out.push(second.0)?;
    Ok(())
}

/// Adds the numbers of a node's children, in the order of the text.
#[tactic(auto, unfolding(js_tree::specs::Children::children))]
pub fn push_children(out: &mut Vec<u32>, node: &Node) -> Result<(), AllocError>
    ensures { OnOk result (out.new.items ≡ out.old.items ++ children node.now) }
{
    match node {
        Node::Break
        | Node::Continue
        | Node::Empty
        | Node::Name(_)
        | Node::This
        | Node::Null
        | Node::Bool(_)
        | Node::Num(_)
        | Node::Str(_)
        | Node::BindName(_) => Ok(()),
        Node::Script(items)
        | Node::Block(items)
        | Node::Template { parts: items, .. }
        | Node::ArrayLit(items)
        | Node::ObjectLit(items) => {
            push_all(out, items.as_slice())?;
            Ok(())
        }
        Node::Let(pairs) | Node::Const(pairs) => {
            push_declarators(out, pairs.as_slice())?;
            Ok(())
        }
        Node::BindObject(parts) => {
            push_properties(out, parts.as_slice())?;
            Ok(())
        }
        Node::BindArray(parts) => {
            push_elements(out, parts.as_slice())?;
            Ok(())
        }
        Node::FunDecl { function, .. } | Node::Fun { function, .. } | Node::Arrow(function) => {
            push_function(out, function)?;
            Ok(())
        }
        Node::Method { key, function }
        | Node::Getter { key, function }
        | Node::Setter { key, function } => {
            push_key(out, key)?;
            push_function(out, function)?;
            Ok(())
        }
        Node::Property { key, value } => {
            push_key(out, key)?;
            out.push(value.0)?;
            Ok(())
        }
        Node::Call { callee, arguments } | Node::New { callee, arguments } => {
            out.push(callee.0)?;
            push_all(out, arguments.as_slice())?;
            Ok(())
        }
        Node::Return(value) => {
            push_given(out, *value)?;
            Ok(())
        }
        Node::Throw(only)
        | Node::ExprStmt(only)
        | Node::Spread(only)
        | Node::Update { target: only, .. }
        | Node::Unary { operand: only, .. }
        | Node::Typeof(only)
        | Node::Delete(only)
        | Node::Dot { object: only, .. } => {
            out.push(only.0)?;
            Ok(())
        }
        Node::While {
            test: first,
            body: second,
        }
        | Node::DoWhile {
            body: first,
            test: second,
        }
        | Node::Seq { first, second }
        | Node::And {
            left: first,
            right: second,
        }
        | Node::Or {
            left: first,
            right: second,
        }
        | Node::Nullish {
            left: first,
            right: second,
        }
        | Node::Assign {
            target: first,
            value: second,
        }
        | Node::AssignOp {
            target: first,
            value: second,
            ..
        }
        | Node::Binary {
            left: first,
            right: second,
            ..
        }
        | Node::Index {
            object: first,
            key: second,
        } => {
            push_two(out, *first, *second)?;
            Ok(())
        }
        Node::If { test, yes, no } => {
            push_two(out, *test, *yes)?;
            push_given(out, *no)?;
            Ok(())
        }
        Node::Cond { test, yes, no } => {
            push_two(out, *test, *yes)?;
            out.push(no.0)?;
            Ok(())
        }
        Node::For {
            first,
            test,
            next,
            body,
        } => {
            push_given(out, *first)?;
            push_given(out, *test)?;
            push_given(out, *next)?;
            out.push(body.0)?;
            Ok(())
        }
        Node::ForOf {
            bind,
            list,
            body,
            ..
        } => {
            push_two(out, *bind, *list)?;
            out.push(body.0)?;
            Ok(())
        }
        Node::Try {
            block,
            bind,
            handler,
            last,
        } => {
            out.push(block.0)?;
            push_given(out, *bind)?;
            push_given(out, *handler)?;
            push_given(out, *last)?;
            Ok(())
        }
    }
}
