//! Cells, over any type of locations.
use crate::table::Table;
use crate::value::{Loc, Property, Value};
use sqlite_items::Items;
use wl_text::Units;

/// What every object has: its prototype, its properties, and whether new ones may be added (ECMA-262, 10.1).
#[derive(Drop)]
pub struct Body<L = Loc> {
    pub proto: Option<L>,
    pub properties: Table<Property<L>>,
    pub extensible: bool,
}

/// The state of a promise (ECMA-262, 27.2.6): pending, fulfilled or rejected.
#[derive(Drop)]
pub enum PromiseState<L = Loc> {
    Pending,
    Kept(Value<L>),
    Broken(Value<L>),
}

/// What is done when a promise settles: the functions of a `then` with the promise that it made, or an inner reaction
/// that reports the settlement of a crossing promise, or the answer to an invoke, by its number.
#[derive(Drop)]
pub enum Reaction<L = Loc> {
    Then {
        kept: Value<L>,
        broken: Value<L>,
        next: L,
    },
    Settled(u32),
    Replied(u32),
}

/// A binding of an environment (ECMA-262, 9.1.1.1). It has no value while it isn't initialized.
#[derive(Drop)]
pub struct Binding<L = Loc> {
    pub name: Units,
    pub value: Option<Value<L>>,
    pub fixed: bool,
}

/// An entry of a Map.
#[derive(Drop)]
pub struct MapEntry<L = Loc> {
    pub key: Value<L>,
    pub value: Value<L>,
}

/// A cell: an object of one of the kinds, a symbol, or an environment.
///
/// `node` is the number of a closure's node in its tree, and `receiver` the kept receiver of an arrow function. `kept`
/// is what a built-in function holds. `kind` is the place of an error's kind, from 0, in the list Error, EvalError,
/// RangeError, ReferenceError, SyntaxError, TypeError, URIError.
#[derive(Drop)]
pub enum Cell<L = Loc> {
    Object {
        body: Body<L>,
    },
    Array {
        proto: Option<L>,
        items: Items<Value<L>>,
        frozen: bool,
    },
    Closure {
        body: Body<L>,
        node: u32,
        env: L,
        receiver: Option<Value<L>>,
    },
    Native {
        body: Body<L>,
        id: u16,
        kept: Items<Value<L>>,
    },
    Far {
        body: Body<L>,
        number: u32,
    },
    Error {
        body: Body<L>,
        kind: u8,
    },
    Map {
        body: Body<L>,
        entries: Items<MapEntry<L>>,
    },
    Set {
        body: Body<L>,
        entries: Items<Value<L>>,
    },
    Promise {
        body: Body<L>,
        state: PromiseState<L>,
        reactions: Items<Reaction<L>>,
    },
    Port {
        body: Body<L>,
        number: u32,
        handler: Value<L>,
        on_message: Items<L>,
        on_close: Items<L>,
    },
    Buffer {
        body: Body<L>,
        bytes: Items<u8>,
    },
    View {
        body: Body<L>,
        buffer: L,
        offset: u32,
        length: u32,
    },
    Symbol {
        text: Option<Units>,
    },
    Env {
        outer: Option<L>,
        bindings: Items<Binding<L>>,
    },
}
