//! The state of a machine between two steps.
use crate::frame::Frame;
use js_semantics::{Mode, Outcome, Scope};
use js_tree::NodeId;
use sqlite_items::Items;
use std::alloc::Global;
use world_heap::{Heap, Loc, Value};
use world_kind::WorldKind;
use world_log::Product;

/// What is next. The step of a node that is entered is taken already.
#[derive(Drop)]
pub enum Control<L = Loc> {
    /// The row of the script.
    Script(NodeId),
    /// The row of a node.
    Node(NodeId, Scope<L>),
    /// The row of a pattern, with the value that is bound.
    Bind(NodeId, Value<L>, Scope<L>),
    /// The row of a member of an object literal, with the object.
    Member(NodeId, L, Scope<L>),
    /// A call of a built-in function, with its receiver and arguments.
    Native(u16, Value<L>, Items<Value<L>>),
    /// A row has ended.
    Give(Outcome<L>),
    /// The task is done.
    AtRest(Mode),
    /// A delivery is waited for.
    Wait(Mode),
    /// The world has stopped.
    Stop,
}

/// What a step has done: nothing that is seen, or a product.
#[derive(Drop)]
pub enum Next {
    Go,
    Made(Product),
}

/// The state of a world's machine.
#[derive(Drop)]
pub struct State {
    pub alloc: Global,
    pub heap: Heap,
    /// The frames of the rows in progress, the topmost last.
    pub frames: Vec<Frame>,
    pub control: Control,
    /// How many steps are left.
    pub steps: u64,
    /// How many calls of closures are active.
    pub depth: u64,
    pub kind: WorldKind,
    /// Whether the script was loaded.
    pub loaded: bool,
}
