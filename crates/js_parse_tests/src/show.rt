//! Nodes as texts, for tests.
use js_tree::{BindElement, BindProperty, Declarator, Function, Node, NodeId, PropertyKey, Tree};
use std::alloc::{AllocError, Global};
use wl_text::Units;

type Shown = Result<String, AllocError>;

fn text(alloc: Global, units: &Units) -> Shown {
    let mut shown = String::new(alloc);
    for unit in units.as_slice() {
        let unit = *unit;
        let c = if unit < 128 { unit as u8 as char } else { '?' };
        shown.push(c)?;
    }
    Ok(shown)
}

fn given(alloc: Global, id: Option<NodeId>) -> Shown {
    match id {
        None => String::from_str(alloc, "-"),
        Some(id) => format!(in alloc; "{}", id.0),
    }
}

fn list(alloc: Global, ids: &[NodeId]) -> Shown {
    let mut shown = String::new(alloc);
    for id in ids {
        shown.push_str(format!(in alloc; " {}", id.0)?.as_str())?;
    }
    Ok(shown)
}

fn pairs(alloc: Global, pairs: &[Declarator]) -> Shown {
    let mut shown = String::new(alloc);
    for pair in pairs {
        let value = given(alloc, pair.value)?;
        shown.push_str(format!(in alloc; " {}={value}", pair.bind.0)?.as_str())?;
    }
    Ok(shown)
}

fn elements(alloc: Global, parts: &[BindElement]) -> Shown {
    let mut shown = String::new(alloc);
    for part in parts {
        let value = given(alloc, part.default)?;
        shown.push_str(format!(in alloc; " {}={value}", part.bind.0)?.as_str())?;
    }
    Ok(shown)
}

fn properties(alloc: Global, parts: &[BindProperty]) -> Shown {
    let mut shown = String::new(alloc);
    for part in parts {
        let key = text(alloc, &part.key)?;
        let value = given(alloc, part.default)?;
        shown.push_str(format!(in alloc; " {key}:{}={value}", part.bind.0)?.as_str())?;
    }
    Ok(shown)
}

fn function(alloc: Global, function: &Function) -> Shown {
    let parameters = elements(alloc, function.parameters.as_slice())?;
    let rest = given(alloc, function.rest)?;
    format!(in alloc; "({parameters} ..{rest}) {}", function.body.0)
}

fn key(alloc: Global, key: &PropertyKey) -> Shown {
    match key {
        PropertyKey::Written(name) => text(alloc, name),
        PropertyKey::Computed(id) => format!(in alloc; "[{}]", id.0),
    }
}

fn texts(alloc: Global, texts: &[Units]) -> Shown {
    let mut shown = String::new(alloc);
    for part in texts {
        let part = text(alloc, part)?;
        shown.push_str(format!(in alloc; " {part}")?.as_str())?;
    }
    Ok(shown)
}

fn show_statement(alloc: Global, node: &Node) -> Shown {
    match node {
        Node::Script(ids) => format!(in alloc; "script{}", list(alloc, ids.as_slice())?),
        Node::Block(ids) => format!(in alloc; "block{}", list(alloc, ids.as_slice())?),
        Node::Let(all) => format!(in alloc; "let{}", pairs(alloc, all.as_slice())?),
        Node::Const(all) => format!(in alloc; "const{}", pairs(alloc, all.as_slice())?),
        Node::FunDecl { name, function: f } => {
            format!(in alloc; "fundecl {} {}", text(alloc, name)?, function(alloc, f)?)
        }
        Node::If { test, yes, no } => {
            format!(in alloc; "if {} {} {}", test.0, yes.0, given(alloc, *no)?)
        }
        Node::While { test, body } => format!(in alloc; "while {} {}", test.0, body.0),
        Node::DoWhile { body, test } => format!(in alloc; "do {} {}", body.0, test.0),
        Node::For {
            first,
            test,
            next,
            body,
        } => {
            format!(in alloc;
                "for {} {} {} {}",
                given(alloc, *first)?,
                given(alloc, *test)?,
                given(alloc, *next)?,
                body.0
            )
        }
        Node::ForOf {
            constant,
            bind,
            list,
            body,
        } => { format!(in alloc; "forof {constant} {} {} {}", bind.0, list.0, body.0) }
        Node::Return(value) => format!(in alloc; "return {}", given(alloc, *value)?),
        Node::Break => String::from_str(alloc, "break"),
        Node::Continue => String::from_str(alloc, "continue"),
        Node::Throw(value) => format!(in alloc; "throw {}", value.0),
        Node::Try {
            block,
            bind,
            handler,
            last,
        } => {
            format!(in alloc;
                "try {} {} {} {}",
                block.0,
                given(alloc, *bind)?,
                given(alloc, *handler)?,
                given(alloc, *last)?
            )
        }
        Node::Empty => String::from_str(alloc, "empty"),
        Node::ExprStmt(value) => format!(in alloc; "expr {}", value.0),
        other => show_value(alloc, other),
    }
}

fn show_value(alloc: Global, node: &Node) -> Shown {
    match node {
        Node::Name(name) => format!(in alloc; "name {}", text(alloc, name)?),
        Node::This => String::from_str(alloc, "this"),
        Node::Null => String::from_str(alloc, "null"),
        Node::Bool(value) => format!(in alloc; "{value}"),
        Node::Num(value) => format!(in alloc; "num {value}"),
        Node::Str(value) => format!(in alloc; "str {}", text(alloc, value)?),
        Node::Template { texts: all, parts } => {
            format!(in alloc;
                "template{} |{}",
                texts(alloc, all.as_slice())?,
                list(alloc, parts.as_slice())?
            )
        }
        Node::ArrayLit(ids) => format!(in alloc; "array{}", list(alloc, ids.as_slice())?),
        Node::Spread(value) => format!(in alloc; "spread {}", value.0),
        Node::ObjectLit(ids) => format!(in alloc; "object{}", list(alloc, ids.as_slice())?),
        Node::Fun { name, function: f } => {
            let name = match name {
                None => String::from_str(alloc, "-")?,
                Some(name) => text(alloc, name)?,
            };
            format!(in alloc; "fun {name} {}", function(alloc, f)?)
        }
        Node::Arrow(f) => format!(in alloc; "arrow {}", function(alloc, f)?),
        Node::Dot { object, name } => format!(in alloc; "dot {} {}", object.0, text(alloc, name)?),
        Node::Index { object, key } => format!(in alloc; "index {} {}", object.0, key.0),
        Node::Call { callee, arguments } => {
            format!(in alloc; "call {}{}", callee.0, list(alloc, arguments.as_slice())?)
        }
        Node::New { callee, arguments } => {
            format!(in alloc; "new {}{}", callee.0, list(alloc, arguments.as_slice())?)
        }
        Node::Property { key: k, value } => format!(in alloc;
            "property {} {}",
            key(alloc, k)?,
            value.0
        ),
        Node::Method {
            key: k,
            function: f,
        } => { format!(in alloc; "method {} {}", key(alloc, k)?, function(alloc, f)?) }
        Node::Getter {
            key: k,
            function: f,
        } => { format!(in alloc; "getter {} {}", key(alloc, k)?, function(alloc, f)?) }
        Node::Setter {
            key: k,
            function: f,
        } => { format!(in alloc; "setter {} {}", key(alloc, k)?, function(alloc, f)?) }
        Node::BindName(name) => format!(in alloc; "bind {}", text(alloc, name)?),
        Node::BindObject(parts) => format!(in alloc;
            "bindobject{}",
            properties(alloc, parts.as_slice())?
        ),
        Node::BindArray(parts) => format!(in alloc;
            "bindarray{}",
            elements(alloc, parts.as_slice())?
        ),
        other => show_operation(alloc, other),
    }
}

fn show_operation(alloc: Global, node: &Node) -> Shown {
    match node {
        Node::Seq { first, second } => format!(in alloc; "seq {} {}", first.0, second.0),
        Node::Cond { test, yes, no } => format!(in alloc; "cond {} {} {}", test.0, yes.0, no.0),
        Node::And { left, right } => format!(in alloc; "and {} {}", left.0, right.0),
        Node::Or { left, right } => format!(in alloc; "or {} {}", left.0, right.0),
        Node::Nullish { left, right } => format!(in alloc; "nullish {} {}", left.0, right.0),
        Node::Assign { target, value } => format!(in alloc; "assign {} {}", target.0, value.0),
        Node::AssignOp {
            operator,
            target,
            value,
        } => { format!(in alloc; "assign{operator:?} {} {}", target.0, value.0) }
        Node::Update {
            operator,
            target,
            before,
        } => { format!(in alloc; "{operator:?} {} {before}", target.0) }
        Node::Binary {
            operator,
            left,
            right,
        } => { format!(in alloc; "{operator:?} {} {}", left.0, right.0) }
        Node::Unary { operator, operand } => format!(in alloc; "{operator:?} {}", operand.0),
        Node::Typeof(operand) => format!(in alloc; "typeof {}", operand.0),
        Node::Delete(operand) => format!(in alloc; "delete {}", operand.0),
        _ => String::from_str(alloc, "?"),
    }
}

/// The nodes in their order, each as its place and what it is, with `; ` behind it.
pub(crate) fn shown(alloc: Global, tree: &Tree) -> Shown {
    let mut all = String::new(alloc);
    for at in 0..tree.len() {
        let id = NodeId(at);
        let node = show_statement(alloc, tree.node(id))?;
        all.push_str(format!(in alloc; "{} {node}; ", tree.place(id))?.as_str())?;
    }
    Ok(all)
}
