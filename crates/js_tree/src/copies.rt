//! Copies of nodes.
ghost use Rattle.std.specs.Prelude.{◌≡◌, IfOk};

use crate::node::{BindProperty, Function, Node, PropertyKey};
use crate::tree::Mem;
use sqlite_items::Items;
use std::alloc::Global;
use wl_text::Units;

/// The same list again.
pub fn copy_list<T: Copy + Drop>(alloc: Global, items: &Items<T>) -> Mem<Items<T>>
    ensures { IfOk result (λ copy. copy ≡ items.now) }
{
    Items::from_slice(alloc, items.as_slice())
}

/// The same texts again.
fn copy_texts(alloc: Global, texts: &Items<Units>) -> Mem<Items<Units>>
    ensures { IfOk result (λ copy. copy ≡ texts.now) }
{
    let mut copies = Items::new(alloc);
    'texts: for text in texts.as_slice() {
        let copy = text.copy(alloc)?;
        copies.push(copy)?;
    }
    Ok(copies)
}

fn copy_name(alloc: Global, name: &Option<Units>) -> Mem<Option<Units>>
    ensures { IfOk result (λ copy. copy ≡ name.now) }
{
    match name {
        None => Ok(None),
        Some(text) => {
            let text = text.copy(alloc)?;
            Ok(Some(text))
        }
    }
}

impl BindProperty {
    /// The same property of a pattern again.
    pub fn copy(&self, alloc: Global) -> Mem<BindProperty>
        ensures { IfOk result (λ copy. copy ≡ self.now) }
    {
        let key = self.key.copy(alloc)?;
        Ok(BindProperty {
            key,
            bind: self.bind,
            default: self.default,
        })
    }
}

fn copy_properties(alloc: Global, parts: &Items<BindProperty>) -> Mem<Items<BindProperty>>
    ensures { IfOk result (λ copy. copy ≡ parts.now) }
{
    let mut copies = Items::new(alloc);
    'parts: for part in parts.as_slice() {
        let copy = part.copy(alloc)?;
        copies.push(copy)?;
    }
    Ok(copies)
}

impl Function {
    /// The same parameters and body again.
    pub fn copy(&self, alloc: Global) -> Mem<Function>
        ensures { IfOk result (λ copy. copy ≡ self.now) }
    {
        let parameters = copy_list(alloc, &self.parameters)?;
        Ok(Function {
            parameters,
            rest: self.rest,
            body: self.body,
        })
    }
}

impl PropertyKey {
    /// The same key again.
    pub fn copy(&self, alloc: Global) -> Mem<PropertyKey>
        ensures { IfOk result (λ copy. copy ≡ self.now) }
    {
        match self {
            PropertyKey::Computed(id) => Ok(PropertyKey::Computed(*id)),
            PropertyKey::Written(text) => {
                let text = text.copy(alloc)?;
                Ok(PropertyKey::Written(text))
            }
        }
    }
}

impl Node {
    /// The same node again.
    pub fn copy(&self, alloc: Global) -> Mem<Node>
        ensures { IfOk result (λ copy. copy ≡ self.now) }
    {
        match self {
            Node::Script(items) => Ok(Node::Script(copy_list(alloc, items)?)),
            Node::Block(items) => Ok(Node::Block(copy_list(alloc, items)?)),
            Node::ArrayLit(items) => Ok(Node::ArrayLit(copy_list(alloc, items)?)),
            Node::ObjectLit(items) => Ok(Node::ObjectLit(copy_list(alloc, items)?)),
            Node::Let(items) => Ok(Node::Let(copy_list(alloc, items)?)),
            Node::Const(items) => Ok(Node::Const(copy_list(alloc, items)?)),
            Node::BindArray(items) => Ok(Node::BindArray(copy_list(alloc, items)?)),
            Node::BindObject(parts) => Ok(Node::BindObject(copy_properties(alloc, parts)?)),
            Node::Break => Ok(Node::Break),
            Node::Continue => Ok(Node::Continue),
            Node::Empty => Ok(Node::Empty),
            Node::This => Ok(Node::This),
            Node::Null => Ok(Node::Null),
            Node::Return(value) => Ok(Node::Return(*value)),
            Node::Throw(value) => Ok(Node::Throw(*value)),
            Node::ExprStmt(value) => Ok(Node::ExprStmt(*value)),
            Node::Spread(value) => Ok(Node::Spread(*value)),
            Node::Typeof(value) => Ok(Node::Typeof(*value)),
            Node::Delete(value) => Ok(Node::Delete(*value)),
            Node::Bool(value) => Ok(Node::Bool(*value)),
            Node::Num(value) => Ok(Node::Num(*value)),
            Node::Name(text) => Ok(Node::Name(text.copy(alloc)?)),
            Node::Str(text) => Ok(Node::Str(text.copy(alloc)?)),
            Node::BindName(text) => Ok(Node::BindName(text.copy(alloc)?)),
            Node::If { test, yes, no } => Ok(Node::If {
                test: *test,
                yes: *yes,
                no: *no,
            }),
            Node::While { test, body } => Ok(Node::While {
                test: *test,
                body: *body,
            }),
            Node::DoWhile { body, test } => Ok(Node::DoWhile {
                body: *body,
                test: *test,
            }),
            Node::For {
                first,
                test,
                next,
                body,
            } => Ok(Node::For {
                first: *first,
                test: *test,
                next: *next,
                body: *body,
            }),
            Node::ForOf {
                constant,
                bind,
                list,
                body,
            } => Ok(Node::ForOf {
                constant: *constant,
                bind: *bind,
                list: *list,
                body: *body,
            }),
            Node::Try {
                block,
                bind,
                handler,
                last,
            } => Ok(Node::Try {
                block: *block,
                bind: *bind,
                handler: *handler,
                last: *last,
            }),
            Node::Seq { first, second } => Ok(Node::Seq {
                first: *first,
                second: *second,
            }),
            Node::Cond { test, yes, no } => Ok(Node::Cond {
                test: *test,
                yes: *yes,
                no: *no,
            }),
            Node::And { left, right } => Ok(Node::And {
                left: *left,
                right: *right,
            }),
            Node::Or { left, right } => Ok(Node::Or {
                left: *left,
                right: *right,
            }),
            Node::Nullish { left, right } => Ok(Node::Nullish {
                left: *left,
                right: *right,
            }),
            Node::Assign { target, value } => Ok(Node::Assign {
                target: *target,
                value: *value,
            }),
            Node::AssignOp {
                operator,
                target,
                value,
            } => Ok(Node::AssignOp {
                operator: *operator,
                target: *target,
                value: *value,
            }),
            Node::Update {
                operator,
                target,
                before,
            } => Ok(Node::Update {
                operator: *operator,
                target: *target,
                before: *before,
            }),
            Node::Binary {
                operator,
                left,
                right,
            } => Ok(Node::Binary {
                operator: *operator,
                left: *left,
                right: *right,
            }),
            Node::Unary { operator, operand } => Ok(Node::Unary {
                operator: *operator,
                operand: *operand,
            }),
            Node::Index { object, key } => Ok(Node::Index {
                object: *object,
                key: *key,
            }),
            Node::Call { callee, arguments } => Ok(Node::Call {
                callee: *callee,
                arguments: copy_list(alloc, arguments)?,
            }),
            Node::New { callee, arguments } => Ok(Node::New {
                callee: *callee,
                arguments: copy_list(alloc, arguments)?,
            }),
            Node::Dot { object, name } => Ok(Node::Dot {
                object: *object,
                name: name.copy(alloc)?,
            }),
            Node::FunDecl { name, function } => Ok(Node::FunDecl {
                name: name.copy(alloc)?,
                function: function.copy(alloc)?,
            }),
            Node::Fun { name, function } => Ok(Node::Fun {
                name: copy_name(alloc, name)?,
                function: function.copy(alloc)?,
            }),
            Node::Template { texts, parts } => Ok(Node::Template {
                texts: copy_texts(alloc, texts)?,
                parts: copy_list(alloc, parts)?,
            }),
            Node::Property { key, value } => Ok(Node::Property {
                key: key.copy(alloc)?,
                value: *value,
            }),
            Node::Method { key, function } => Ok(Node::Method {
                key: key.copy(alloc)?,
                function: function.copy(alloc)?,
            }),
            Node::Getter { key, function } => Ok(Node::Getter {
                key: key.copy(alloc)?,
                function: function.copy(alloc)?,
            }),
            Node::Setter { key, function } => Ok(Node::Setter {
                key: key.copy(alloc)?,
                function: function.copy(alloc)?,
            }),
            Node::Arrow(function) => Ok(Node::Arrow(function.copy(alloc)?)),
        }
    }
}
