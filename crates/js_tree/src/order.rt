//! Whether the children of a node stand before it.
ghost use Rattle.std.specs.Prelude.{◌≡◌, nat_lt};
ghost use Rattle.std.specs.List.{list_all};
ghost use Rattle.js_tree.specs.Children.{children, given, all_of, of_declarators, of_elements, of_properties, of_function, of_key};

use crate::node::{BindElement, BindProperty, Declarator, Function, Node, NodeId, PropertyKey};

fn is_below(id: NodeId, count: u32) -> bool
    ensures { result ≡ nat_lt id.0 count }
{
    id.0 < count
}

fn given_below(id: Option<NodeId>, count: u32) -> bool
    ensures { result ≡ list_all (λ child. nat_lt child count) (given id) }
{
    match id {
        None => true,
        Some(id) => is_below(id, count),
    }
}

fn all_below(ids: &[NodeId], count: u32) -> bool
    ensures { result ≡ list_all (λ child. nat_lt child count) (all_of ids.now) }
{
    let mut rest = ids;
    'ids: while let Some((id, more)) = rest.split_first() {
        if !is_below(*id, count) {
            return false;
        }
        rest = more;
    }
    true
}

fn declarators_below(pairs: &[Declarator], count: u32) -> bool
    ensures { result ≡ list_all (λ child. nat_lt child count) (of_declarators pairs.now) }
{
    let mut rest = pairs;
    'pairs: while let Some((pair, more)) = rest.split_first() {
        if !is_below(pair.bind, count) || !given_below(pair.value, count) {
            return false;
        }
        rest = more;
    }
    true
}

fn elements_below(parts: &[BindElement], count: u32) -> bool
    ensures { result ≡ list_all (λ child. nat_lt child count) (of_elements parts.now) }
{
    let mut rest = parts;
    'parts: while let Some((part, more)) = rest.split_first() {
        if !is_below(part.bind, count) || !given_below(part.default, count) {
            return false;
        }
        rest = more;
    }
    true
}

fn properties_below(parts: &[BindProperty], count: u32) -> bool
    ensures { result ≡ list_all (λ child. nat_lt child count) (of_properties parts.now) }
{
    let mut rest = parts;
    'parts: while let Some((part, more)) = rest.split_first() {
        if !is_below(part.bind, count) || !given_below(part.default, count) {
            return false;
        }
        rest = more;
    }
    true
}

fn function_below(function: &Function, count: u32) -> bool
    ensures { result ≡ list_all (λ child. nat_lt child count) (of_function function.now) }
{
    elements_below(function.parameters.as_slice(), count)
        && given_below(function.rest, count)
        && is_below(function.body, count)
}

fn key_below(key: &PropertyKey, count: u32) -> bool
    ensures { result ≡ list_all (λ child. nat_lt child count) (of_key key.now) }
{
    match key {
        PropertyKey::Written(_) => true,
        PropertyKey::Computed(id) => is_below(*id, count),
    }
}

impl Node {
    /// Whether the numbers of the node's children are below a number.
    #[tactic(auto, unfolding(crate::specs::Children::children), using(crate::proofs::Below::list_all_append))]
    pub fn children_below(&self, count: u32) -> bool
        ensures { result ≡ list_all (λ child. nat_lt child count) (children self.now) }
    {
        match self {
            Node::Script(ids) => all_below(ids.as_slice(), count),
            Node::Block(ids) => all_below(ids.as_slice(), count),
            Node::ArrayLit(ids) => all_below(ids.as_slice(), count),
            Node::ObjectLit(ids) => all_below(ids.as_slice(), count),
            Node::Template { parts, .. } => all_below(parts.as_slice(), count),
            Node::Let(pairs) => declarators_below(pairs.as_slice(), count),
            Node::Const(pairs) => declarators_below(pairs.as_slice(), count),
            Node::BindArray(parts) => elements_below(parts.as_slice(), count),
            Node::BindObject(parts) => properties_below(parts.as_slice(), count),
            Node::FunDecl { function, .. } => function_below(function, count),
            Node::Fun { function, .. } => function_below(function, count),
            Node::Arrow(function) => function_below(function, count),
            Node::Method { key, function } => key_below(key, count)
                && function_below(function, count),
            Node::Getter { key, function } => key_below(key, count)
                && function_below(function, count),
            Node::Setter { key, function } => key_below(key, count)
                && function_below(function, count),
            Node::Property { key, value } => key_below(key, count) && is_below(*value, count),
            Node::Call { callee, arguments } => is_below(*callee, count)
                && all_below(arguments.as_slice(), count),
            Node::New { callee, arguments } => is_below(*callee, count)
                && all_below(arguments.as_slice(), count),
            Node::If { test, yes, no } => is_below(*test, count)
                && is_below(*yes, count)
                && given_below(*no, count),
            Node::Cond { test, yes, no } => is_below(*test, count)
                && is_below(*yes, count)
                && is_below(*no, count),
            Node::For {
                first,
                test,
                next,
                body,
            } => given_below(*first, count)
                && given_below(*test, count)
                && given_below(*next, count)
                && is_below(*body, count),
            Node::ForOf {
                bind,
                list,
                body,
                ..
            } => is_below(*bind, count) && is_below(*list, count) && is_below(*body, count),
            Node::Try {
                block,
                bind,
                handler,
                last,
            } => is_below(*block, count)
                && given_below(*bind, count)
                && given_below(*handler, count)
                && given_below(*last, count),
            Node::While { test, body } => is_below(*test, count) && is_below(*body, count),
            Node::DoWhile { body, test } => is_below(*body, count) && is_below(*test, count),
            Node::Seq { first, second } => is_below(*first, count) && is_below(*second, count),
            Node::And { left, right } => is_below(*left, count) && is_below(*right, count),
            Node::Or { left, right } => is_below(*left, count) && is_below(*right, count),
            Node::Nullish { left, right } => is_below(*left, count) && is_below(*right, count),
            Node::Binary { left, right, .. } => is_below(*left, count) && is_below(*right, count),
            Node::Assign { target, value } => is_below(*target, count) && is_below(*value, count),
            Node::AssignOp { target, value, .. } => is_below(*target, count)
                && is_below(*value, count),
            Node::Index { object, key } => is_below(*object, count) && is_below(*key, count),
            Node::Return(value) => given_below(*value, count),
            Node::Throw(id) => is_below(*id, count),
            Node::ExprStmt(id) => is_below(*id, count),
            Node::Spread(id) => is_below(*id, count),
            Node::Typeof(id) => is_below(*id, count),
            Node::Delete(id) => is_below(*id, count),
            Node::Unary { operand, .. } => is_below(*operand, count),
            Node::Update { target, .. } => is_below(*target, count),
            Node::Dot { object, .. } => is_below(*object, count),
            Node::Break | Node::Continue | Node::Empty | Node::This | Node::Null => true,
            Node::Bool(_) | Node::Num(_) | Node::Name(_) | Node::Str(_) | Node::BindName(_) => true,
        }
    }
}
