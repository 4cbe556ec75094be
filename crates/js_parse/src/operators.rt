//! Operators (ECMA-262, 13.4 to 13.15).
ghost use Rattle.std.specs.Prelude.{◌≡◌};
ghost use Rattle.js_parse.specs.Operators as spec;

use crate::symbol::{Symbol, same};
use js_tree::{BinaryOperator, Node, NodeId, UnaryOperator, UpdateOperator};

/// An operator between two operands.
#[derive(Clone, Copy, Debug, PartialEq, Eq)]
pub enum Infix {
    Binary(BinaryOperator),
    And,
    Or,
    Coalesce,
}

/// Whether the symbol is an operator before its operand.
pub fn is_prefix(symbol: Symbol) -> bool
    ensures { result ≡ spec.is_prefix symbol }
{
    matches!(
        symbol,
        Symbol::Not
            | Symbol::BitNot
            | Symbol::Plus
            | Symbol::Minus
            | Symbol::Typeof
            | Symbol::Void
            | Symbol::Delete
            | Symbol::Increment
            | Symbol::Decrement
    )
}

/// The node of an operator before its operand.
pub fn prefix_node(symbol: Symbol, operand: NodeId) -> Option<Node>
    ensures { result ≡ spec.prefix_node symbol operand }
{
    match symbol {
        Symbol::Not => Some(Node::Unary {
            operator: UnaryOperator::Not,
            operand,
        }),
        Symbol::BitNot => Some(Node::Unary {
            operator: UnaryOperator::BitNot,
            operand,
        }),
        Symbol::Plus => Some(Node::Unary {
            operator: UnaryOperator::Plus,
            operand,
        }),
        Symbol::Minus => Some(Node::Unary {
            operator: UnaryOperator::Minus,
            operand,
        }),
        Symbol::Void => Some(Node::Unary {
            operator: UnaryOperator::Void,
            operand,
        }),
        Symbol::Typeof => Some(Node::Typeof(operand)),
        Symbol::Delete => Some(Node::Delete(operand)),
        Symbol::Increment => Some(Node::Update {
            operator: UpdateOperator::Increment,
            target: operand,
            before: true,
        }),
        Symbol::Decrement => Some(Node::Update {
            operator: UpdateOperator::Decrement,
            target: operand,
            before: true,
        }),
        _ => None,
    }
}

/// The node of an operator behind its operand.
pub fn postfix_node(symbol: Symbol, operand: NodeId) -> Option<Node>
    ensures { result ≡ spec.postfix_node symbol operand }
{
    match symbol {
        Symbol::Increment => Some(Node::Update {
            operator: UpdateOperator::Increment,
            target: operand,
            before: false,
        }),
        Symbol::Decrement => Some(Node::Update {
            operator: UpdateOperator::Decrement,
            target: operand,
            before: false,
        }),
        _ => None,
    }
}

// The operator that a symbol is.
fn infix_of(symbol: Symbol) -> Option<Infix>
    ensures { result ≡ spec.infix_of symbol }
{
    match symbol {
        Symbol::Star => Some(Infix::Binary(BinaryOperator::Multiply)),
        Symbol::Slash => Some(Infix::Binary(BinaryOperator::Divide)),
        Symbol::Percent => Some(Infix::Binary(BinaryOperator::Remainder)),
        Symbol::Plus => Some(Infix::Binary(BinaryOperator::Add)),
        Symbol::Minus => Some(Infix::Binary(BinaryOperator::Subtract)),
        Symbol::ShiftLeft => Some(Infix::Binary(BinaryOperator::ShiftLeft)),
        Symbol::ShiftRight => Some(Infix::Binary(BinaryOperator::ShiftRight)),
        Symbol::ShiftRightUnsigned => Some(Infix::Binary(BinaryOperator::ShiftRightUnsigned)),
        Symbol::Less => Some(Infix::Binary(BinaryOperator::Less)),
        Symbol::Greater => Some(Infix::Binary(BinaryOperator::Greater)),
        Symbol::LessEqual => Some(Infix::Binary(BinaryOperator::LessOrEqual)),
        Symbol::GreaterEqual => Some(Infix::Binary(BinaryOperator::GreaterOrEqual)),
        Symbol::InstanceOf => Some(Infix::Binary(BinaryOperator::InstanceOf)),
        Symbol::In => Some(Infix::Binary(BinaryOperator::In)),
        Symbol::StrictEqual => Some(Infix::Binary(BinaryOperator::StrictEqual)),
        Symbol::StrictNotEqual => Some(Infix::Binary(BinaryOperator::StrictNotEqual)),
        Symbol::BitAnd => Some(Infix::Binary(BinaryOperator::BitAnd)),
        Symbol::BitXor => Some(Infix::Binary(BinaryOperator::BitXor)),
        Symbol::BitOr => Some(Infix::Binary(BinaryOperator::BitOr)),
        Symbol::And => Some(Infix::And),
        Symbol::Or => Some(Infix::Or),
        Symbol::Coalesce => Some(Infix::Coalesce),
        _ => None,
    }
}

// How tightly a binary operator binds: from 1, the tightest, to 8.
fn level_of_binary(operator: BinaryOperator) -> u8
    ensures { result ≡ spec.level_of_binary operator }
{
    match operator {
        BinaryOperator::Multiply | BinaryOperator::Divide | BinaryOperator::Remainder => 1,
        BinaryOperator::Add | BinaryOperator::Subtract => 2,
        BinaryOperator::ShiftLeft
        | BinaryOperator::ShiftRight
        | BinaryOperator::ShiftRightUnsigned => 3,
        BinaryOperator::Less
        | BinaryOperator::Greater
        | BinaryOperator::LessOrEqual
        | BinaryOperator::GreaterOrEqual
        | BinaryOperator::InstanceOf
        | BinaryOperator::In => 4,
        BinaryOperator::StrictEqual | BinaryOperator::StrictNotEqual => 5,
        BinaryOperator::BitAnd => 6,
        BinaryOperator::BitXor => 7,
        BinaryOperator::BitOr => 8,
    }
}

// How tightly an operator binds: from 1, the tightest, to 11.
fn level_of(operator: Infix) -> u8
    ensures { result ≡ spec.level_of operator }
{
    match operator {
        Infix::Binary(operator) => level_of_binary(operator),
        Infix::And => 9,
        Infix::Or => 10,
        Infix::Coalesce => 11,
    }
}

// The operator, if it has that level.
fn of_level(level: u8, operator: Option<Infix>) -> Option<Infix>
    ensures { result ≡ spec.of_level level operator }
{
    match operator {
        None => None,
        Some(operator) => {
            if level_of(operator) == level {
                return Some(operator);
            }
            None
        }
    }
}

/// The operator of that level that the symbol is; `in` may be forbidden.
#[tactic(auto, unfolding(crate::specs::Operators::infix_at))]
pub fn infix_at(level: u8, allow_in: bool, symbol: Symbol) -> Option<Infix>
    ensures { result ≡ spec.infix_at level allow_in symbol }
{
    if allow_in {
        return of_level(level, infix_of(symbol));
    }
    if same(symbol, Symbol::In) {
        return None;
    }
    of_level(level, infix_of(symbol))
}

/// The node of an operator between two operands.
pub fn infix_node(operator: Infix, left: NodeId, right: NodeId) -> Node
    ensures { result ≡ spec.infix_node operator left right }
{
    match operator {
        Infix::Binary(operator) => Node::Binary {
            operator,
            left,
            right,
        },
        Infix::And => Node::And { left, right },
        Infix::Or => Node::Or { left, right },
        Infix::Coalesce => Node::Nullish { left, right },
    }
}

/// What an assignment does beside `=`, where the symbol is one.
pub fn assign_operator(symbol: Symbol) -> Option<Option<BinaryOperator>>
    ensures { result ≡ spec.assign_operator symbol }
{
    match symbol {
        Symbol::Assign => Some(None),
        Symbol::AddAssign => Some(Some(BinaryOperator::Add)),
        Symbol::SubtractAssign => Some(Some(BinaryOperator::Subtract)),
        Symbol::MultiplyAssign => Some(Some(BinaryOperator::Multiply)),
        Symbol::DivideAssign => Some(Some(BinaryOperator::Divide)),
        Symbol::RemainderAssign => Some(Some(BinaryOperator::Remainder)),
        _ => None,
    }
}

/// The node of an assignment.
pub fn assign_node(operator: Option<BinaryOperator>, target: NodeId, value: NodeId) -> Node
    ensures { result ≡ spec.assign_node operator target value }
{
    match operator {
        None => Node::Assign { target, value },
        Some(operator) => Node::AssignOp {
            operator,
            target,
            value,
        },
    }
}
