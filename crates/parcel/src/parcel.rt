//! What a parcel is.
use sqlite_items::Items;
use std::alloc::AllocError;
use wl_text::Units;

/// What a call answers that fails only where memory runs out.
pub type Mem<T> = Result<T, AllocError>;

/// On whose side a function or a promise stands: the sender's own, or the far one.
#[derive(Debug, Drop, Clone, Copy, PartialEq, Eq)]
pub enum Side {
    Own,
    Far,
}

/// The kinds of error (ECMA-262, 20.5).
#[derive(Debug, Drop, Clone, Copy, PartialEq, Eq)]
pub enum ErrorKind {
    Error,
    EvalError,
    RangeError,
    ReferenceError,
    SyntaxError,
    TypeError,
    URIError,
}

/// A place in a parcel: a primitive value, a node by its number, or a function or promise by its number.
#[derive(Drop)]
pub enum Item {
    Undefined,
    Null,
    Bool(bool),
    Num(i64),
    Str(Units),
    Node(u32),
    Fn(Side, u32),
    Prom(Side, u32),
}

/// A node of a parcel, with its items in order.
#[derive(Drop)]
pub enum PNode {
    Object(Items<(Units, Item)>),
    Array(Items<Item>),
    Error(ErrorKind, Option<Units>),
    Map(Items<(Item, Item)>),
    Set(Items<Item>),
    Port(u32),
    Buffer(Items<u8>),
    View {
        buffer: u32,
        offset: u32,
        length: u32,
    },
}

/// A value without locations: its root, and its nodes numbered by first visit, depth first.
#[derive(Drop)]
pub struct Parcel {
    pub root: Item,
    pub nodes: Items<PNode>,
}
