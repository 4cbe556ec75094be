//! The parts of a script that count as a level of nesting, and what they are read as.
use js_tree::{BindElement, Function, NodeId};
use sqlite_items::Items;

/// What counts as a level of nesting, from its first token on.
#[derive(Clone, Copy, Debug, PartialEq, Eq)]
pub enum Part {
    /// The right side of an assignment or of `?` or `:`, or a default.
    Right { allow_in: bool },
    /// `( Expr )`.
    Group,
    /// The arguments of a call.
    Arguments,
    /// `[ Expr ]` behind an object.
    Index,
    /// `[ Assign ]` as a key.
    ComputedKey,
    Array,
    Object,
    /// A template with parts.
    Template,
    FunctionExpression,
    FunctionDeclaration,
    /// The parameters and the body of a method, of a getter, of a setter.
    Method,
    Getter,
    Setter,
    /// `=>` and what follows it.
    ArrowBody { allow_in: bool },
    /// The parameters in their parentheses: any, none, or the one of a setter.
    Parameters,
    NoParameters,
    OneParameter,
    Block,
    /// A statement inside another.
    Body,
    /// An operator before its operand.
    Unary,
    New,
    /// An object or array pattern.
    Pattern,
    /// What stands in the parentheses behind `for`.
    ForHead,
    /// `( Bind )` behind `catch`.
    CatchBind,
}

/// The parameters of a function.
#[derive(Drop)]
pub struct Parameters {
    pub list: Items<BindElement>,
    pub rest: Option<NodeId>,
}

/// What stands in the parentheses behind `for`.
#[derive(Drop, Clone, Copy)]
pub enum Head {
    Loop {
        first: Option<NodeId>,
        test: Option<NodeId>,
        next: Option<NodeId>,
    },
    Of {
        constant: bool,
        bind: NodeId,
        list: NodeId,
    },
}

/// What a part is read as.
#[derive(Drop)]
pub enum Found {
    Node(NodeId),
    Nodes(Items<NodeId>),
    Parameters(Parameters),
    Function(Function),
    Head(Head),
}
