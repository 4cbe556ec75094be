//! Frames: what is left of a row while a node below it is evaluated. A frame names nodes by number and lists by a place
//! in them, so that nothing of the tree is copied.
use js_semantics::{Outcome, Scope};
use js_tree::{BinaryOperator, NodeId, UnaryOperator, UpdateOperator};
use sqlite_items::Items;
use wl_text::Units;
use world_heap::{Loc, Value};

/// The key of a property: the name that a `Dot` node has, or a text that was evaluated.
#[derive(Drop)]
pub enum Key {
    Named(NodeId),
    Text(Units),
}

/// What is written: the binding of a `Name` node from an environment on, or a property (ECMA-262, 6.2.5: references).
#[derive(Drop)]
pub enum Place<L = Loc> {
    Name { node: NodeId, env: L },
    Property { base: Value<L>, key: Key },
}

/// What is done with a property, once its object and key are evaluated.
#[derive(Debug, Drop, Clone, Copy, PartialEq, Eq)]
pub enum Use {
    Get,
    Update {
        operator: UpdateOperator,
        before: bool,
    },
    Delete,
    Assign {
        value: NodeId,
    },
    AssignBy {
        operator: BinaryOperator,
        value: NodeId,
    },
    /// The property is called by this `Call` node.
    Call {
        node: NodeId,
    },
}

/// What a list of arguments is evaluated for.
#[derive(Drop)]
pub enum CallTarget<L = Loc> {
    Call {
        callee: Value<L>,
        receiver: Value<L>,
    },
    New {
        callee: Value<L>,
    },
}

/// Operands of operators, and what is done with their values.
#[derive(Drop)]
pub enum OperandFrame<L = Loc> {
    /// A part of a template; `before` is joined already, and `next` is the number of the part behind.
    TemplatePart {
        node: NodeId,
        next: usize,
        before: Items<u16>,
        scope: Scope<L>,
    },
    Unary {
        operator: UnaryOperator,
    },
    Typeof,
    Delete,
    BinaryLeft {
        operator: BinaryOperator,
        right: NodeId,
        scope: Scope<L>,
    },
    BinaryRight {
        operator: BinaryOperator,
        left: Value<L>,
    },
    And {
        right: NodeId,
        scope: Scope<L>,
    },
    Or {
        right: NodeId,
        scope: Scope<L>,
    },
    Nullish {
        right: NodeId,
        scope: Scope<L>,
    },
    Cond {
        first: NodeId,
        second: NodeId,
        scope: Scope<L>,
    },
    Seq {
        second: NodeId,
        scope: Scope<L>,
    },
    /// The value that is assigned.
    AssignValue {
        place: Place<L>,
    },
    /// The right operand of an operator whose result is assigned.
    AssignOperand {
        operator: BinaryOperator,
        old: Value<L>,
        place: Place<L>,
    },
}

/// Parts of property references.
#[derive(Drop)]
pub enum PropertyFrame<L = Loc> {
    /// The object of a `Dot` node.
    DotObject {
        node: NodeId,
        usage: Use,
        scope: Scope<L>,
    },
    /// The object of an `Index` node, whose key follows.
    IndexObject {
        key: NodeId,
        usage: Use,
        scope: Scope<L>,
    },
    IndexKey {
        base: Value<L>,
        usage: Use,
        scope: Scope<L>,
    },
}

/// Calls, and the arguments and parameters of them.
#[derive(Drop)]
pub enum CallFrame<L = Loc> {
    /// The callee of a `Call` node, where it is no property.
    Callee {
        node: NodeId,
        scope: Scope<L>,
    },
    /// The callee of a `New` node.
    NewCallee {
        node: NodeId,
        scope: Scope<L>,
    },
    /// An argument; `done` are evaluated already, and `next` is the number of the argument behind.
    Argument {
        node: NodeId,
        next: usize,
        spread: bool,
        done: Items<Value<L>>,
        target: CallTarget<L>,
        scope: Scope<L>,
    },
    /// The default of the parameter with the number `at`.
    ParameterDefault {
        node: NodeId,
        at: usize,
        arguments: Items<Value<L>>,
        scope: Scope<L>,
    },
    /// The binding of a parameter; `next` is the number of the parameter behind.
    ParameterBound {
        node: NodeId,
        next: usize,
        arguments: Items<Value<L>>,
        scope: Scope<L>,
    },
    /// The binding of the rest parameter.
    RestBound {
        node: NodeId,
        scope: Scope<L>,
    },
}

/// Parts of array and object literals.
#[derive(Drop)]
pub enum LiteralFrame<L = Loc> {
    Element {
        node: NodeId,
        next: usize,
        spread: bool,
        array: L,
        scope: Scope<L>,
    },
    Member {
        node: NodeId,
        next: usize,
        object: L,
        scope: Scope<L>,
    },
    /// The computed key of a member.
    MemberKey {
        node: NodeId,
        object: L,
        scope: Scope<L>,
    },
    /// The value of a property: the node of the member, and its key where that is computed.
    PropertyValue {
        node: NodeId,
        key: Option<Units>,
        object: L,
    },
}

/// A `for` loop.
#[derive(Debug, Drop, Clone, Copy, PartialEq, Eq)]
pub struct ForLoop {
    pub copied: bool,
    pub test: Option<NodeId>,
    pub next: Option<NodeId>,
    pub body: NodeId,
}

/// Statements.
#[derive(Drop)]
pub enum StatementFrame<L = Loc> {
    /// An item of a script or block; `next` is the number of the item behind.
    Item {
        node: NodeId,
        next: usize,
        scope: Scope<L>,
    },
    /// The initial value of the declarator with the number `at`.
    DeclaredValue {
        node: NodeId,
        at: usize,
        scope: Scope<L>,
    },
    /// The binding of a declarator; `next` is the number of the one behind.
    Declared {
        node: NodeId,
        next: usize,
        scope: Scope<L>,
    },
    Expression,
    If {
        first: NodeId,
        second: Option<NodeId>,
        scope: Scope<L>,
    },
    Return,
    Throw,
    WhileTest {
        test: NodeId,
        body: NodeId,
        scope: Scope<L>,
    },
    DoTest {
        body: NodeId,
        test: NodeId,
        scope: Scope<L>,
    },
    /// What stands first in a `for`.
    ForFirst {
        turn: ForLoop,
        scope: Scope<L>,
    },
    ForTest {
        turn: ForLoop,
        scope: Scope<L>,
    },
    /// What stands third in a `for`.
    ForNext {
        turn: ForLoop,
        scope: Scope<L>,
    },
    ForOfList {
        constant: bool,
        bind: NodeId,
        body: NodeId,
        scope: Scope<L>,
    },
    /// The binding of an item of the array that is walked.
    ForOfBound {
        constant: bool,
        bind: NodeId,
        body: NodeId,
        array: L,
        place: usize,
        turn: Scope<L>,
        around: Scope<L>,
    },
    /// The binding of a caught value.
    HandlerBound {
        handler: NodeId,
        scope: Scope<L>,
    },
}

/// Parts of patterns.
#[derive(Drop)]
pub enum PatternFrame<L = Loc> {
    /// The default of the property with the number `at`.
    PropertyDefault {
        node: NodeId,
        at: usize,
        of: Value<L>,
        scope: Scope<L>,
    },
    PropertyBound {
        node: NodeId,
        next: usize,
        of: Value<L>,
        scope: Scope<L>,
    },
    /// The default of the element with the number `at`.
    ElementDefault {
        node: NodeId,
        at: usize,
        array: L,
        scope: Scope<L>,
    },
    ElementBound {
        node: NodeId,
        next: usize,
        array: L,
        scope: Scope<L>,
    },
}

/// What is left of a row that goes on only with a value.
#[derive(Drop)]
pub enum ValueFrame<L = Loc> {
    Operand(OperandFrame<L>),
    Property(PropertyFrame<L>),
    Call(CallFrame<L>),
    Literal(LiteralFrame<L>),
    Statement(StatementFrame<L>),
    Pattern(PatternFrame<L>),
}

/// What follows the reading of a property or name, or the call of a setter. No reading follows it without a step.
#[derive(Drop)]
pub enum AfterFrame<L = Loc> {
    /// The value is that of the row.
    Give,
    /// This value is that of the row.
    Result {
        value: Value<L>,
    },
    /// The call of a function by `new`, with the new object.
    Constructed {
        object: L,
    },
    Typeof,
    Update {
        operator: UpdateOperator,
        before: bool,
        place: Place<L>,
    },
    AssignBy {
        operator: BinaryOperator,
        value: NodeId,
        place: Place<L>,
        scope: Scope<L>,
    },
    /// The callee that was read from `base`, for a `Call` node.
    Callee {
        node: NodeId,
        base: Value<L>,
        scope: Scope<L>,
    },
    /// The `prototype` of the right side of `instanceof`.
    Instance {
        left: Value<L>,
    },
    /// The same, where the result is assigned.
    AssignInstance {
        left: Value<L>,
        place: Place<L>,
    },
    /// The property of an object pattern with the number `at`.
    PropertyRead {
        node: NodeId,
        at: usize,
        of: Value<L>,
        scope: Scope<L>,
    },
}

/// What is left of a row while a node below it is evaluated.
#[derive(Drop)]
pub enum Frame<L = Loc> {
    OnValue(ValueFrame<L>),
    After(AfterFrame<L>),
    /// The script.
    Script,
    /// The body of a function that was called.
    Leave,
    WhileBody {
        test: NodeId,
        body: NodeId,
        scope: Scope<L>,
    },
    DoBody {
        body: NodeId,
        test: NodeId,
        scope: Scope<L>,
    },
    ForBody {
        turn: ForLoop,
        scope: Scope<L>,
    },
    ForOfBody {
        constant: bool,
        bind: NodeId,
        body: NodeId,
        array: L,
        place: usize,
        around: Scope<L>,
    },
    /// The block of a `try`, with its handler.
    Catch {
        bind: Option<NodeId>,
        handler: Option<NodeId>,
        scope: Scope<L>,
    },
    /// What comes before a `finally`.
    Last {
        last: Option<NodeId>,
        scope: Scope<L>,
    },
    /// The `finally`, with the outcome before it.
    Replaced {
        before: Outcome<L>,
    },
}
