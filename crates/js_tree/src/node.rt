//! The nodes of a syntax tree.
use sqlite_items::Items;
use wl_text::Units;

/// The number of a node in its tree, counted from 0.
#[derive(Debug, Drop, Clone, Copy, PartialEq, Eq, Hash)]
pub struct NodeId(pub u32);

/// An operator between two operands (ECMA-262, 13.6 to 13.12), without `&&`, `||` and `??`.
#[derive(Debug, Drop, Clone, Copy, PartialEq, Eq)]
pub enum BinaryOperator {
    Add,
    Subtract,
    Multiply,
    Divide,
    Remainder,
    Less,
    Greater,
    LessOrEqual,
    GreaterOrEqual,
    InstanceOf,
    In,
    StrictEqual,
    StrictNotEqual,
    BitAnd,
    BitOr,
    BitXor,
    ShiftLeft,
    ShiftRight,
    ShiftRightUnsigned,
}

/// An operator before its operand (ECMA-262, 13.5), without `typeof` and `delete`.
#[derive(Debug, Drop, Clone, Copy, PartialEq, Eq)]
pub enum UnaryOperator {
    Not,
    BitNot,
    Plus,
    Minus,
    Void,
}

/// `++` or `--` (ECMA-262, 13.4).
#[derive(Debug, Drop, Clone, Copy, PartialEq, Eq)]
pub enum UpdateOperator {
    Increment,
    Decrement,
}

/// One binding of a `let` or `const`, with its initial value.
#[derive(Debug, Drop, Clone, Copy, PartialEq, Eq)]
pub struct Declarator {
    pub bind: NodeId,
    pub value: Option<NodeId>,
}

/// A parameter, or an element of an array pattern, with its default.
#[derive(Debug, Drop, Clone, Copy, PartialEq, Eq)]
pub struct BindElement {
    pub bind: NodeId,
    pub default: Option<NodeId>,
}

/// A property of an object pattern, with its default.
#[derive(Drop)]
pub struct BindProperty {
    pub key: Units,
    pub bind: NodeId,
    pub default: Option<NodeId>,
}

/// The parameters and the body of a function. The rest parameter is a `BindName`. The body is a `Block`, or for an
/// arrow maybe an expression.
#[derive(Drop)]
pub struct Function {
    pub parameters: Items<BindElement>,
    pub rest: Option<NodeId>,
    pub body: NodeId,
}

/// The key of a member of an object literal: a written name, string or number (as its decimal text), or a computed
/// one.
#[derive(Drop)]
pub enum PropertyKey {
    Written(Units),
    Computed(NodeId),
}

/// A node, with its children by number.
#[derive(Drop)]
pub enum Node {
    Script(Items<NodeId>),
    Block(Items<NodeId>),
    Let(Items<Declarator>),
    Const(Items<Declarator>),
    FunDecl {
        name: Units,
        function: Function,
    },
    If {
        test: NodeId,
        yes: NodeId,
        no: Option<NodeId>,
    },
    While {
        test: NodeId,
        body: NodeId,
    },
    DoWhile {
        body: NodeId,
        test: NodeId,
    },
    For {
        first: Option<NodeId>,
        test: Option<NodeId>,
        next: Option<NodeId>,
        body: NodeId,
    },
    ForOf {
        constant: bool,
        bind: NodeId,
        list: NodeId,
        body: NodeId,
    },
    Return(Option<NodeId>),
    Break,
    Continue,
    Throw(NodeId),
    Try {
        block: NodeId,
        bind: Option<NodeId>,
        handler: Option<NodeId>,
        last: Option<NodeId>,
    },
    Empty,
    ExprStmt(NodeId),
    Name(Units),
    This,
    Null,
    Bool(bool),
    Num(i64),
    Str(Units),
    /// The texts around the parts: one more than there are parts.
    Template {
        texts: Items<Units>,
        parts: Items<NodeId>,
    },
    ArrayLit(Items<NodeId>),
    Spread(NodeId),
    ObjectLit(Items<NodeId>),
    Fun {
        name: Option<Units>,
        function: Function,
    },
    Arrow(Function),
    Seq {
        first: NodeId,
        second: NodeId,
    },
    Cond {
        test: NodeId,
        yes: NodeId,
        no: NodeId,
    },
    And {
        left: NodeId,
        right: NodeId,
    },
    Or {
        left: NodeId,
        right: NodeId,
    },
    Nullish {
        left: NodeId,
        right: NodeId,
    },
    Assign {
        target: NodeId,
        value: NodeId,
    },
    AssignOp {
        operator: BinaryOperator,
        target: NodeId,
        value: NodeId,
    },
    Update {
        operator: UpdateOperator,
        target: NodeId,
        before: bool,
    },
    Binary {
        operator: BinaryOperator,
        left: NodeId,
        right: NodeId,
    },
    Unary {
        operator: UnaryOperator,
        operand: NodeId,
    },
    Typeof(NodeId),
    Delete(NodeId),
    Dot {
        object: NodeId,
        name: Units,
    },
    Index {
        object: NodeId,
        key: NodeId,
    },
    Call {
        callee: NodeId,
        arguments: Items<NodeId>,
    },
    New {
        callee: NodeId,
        arguments: Items<NodeId>,
    },
    Property {
        key: PropertyKey,
        value: NodeId,
    },
    Method {
        key: PropertyKey,
        function: Function,
    },
    Getter {
        key: PropertyKey,
        function: Function,
    },
    Setter {
        key: PropertyKey,
        function: Function,
    },
    BindName(Units),
    BindObject(Items<BindProperty>),
    BindArray(Items<BindElement>),
}
