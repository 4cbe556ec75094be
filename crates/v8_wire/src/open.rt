//! A node with items, while they are read.
use crate::properties::Properties;
use parcel::{Item, PNode};
use sqlite_items::Items;

/// What of a node was read.
#[derive(Drop)]
pub(crate) enum Open {
    /// Properties, and the least array index that may still come as a key.
    Object(Properties, Option<u32>),
    /// The length of an array, and its elements.
    Array(u32, Items<Item>),
    /// The length of an array whose elements stand with their indices, and its elements.
    Sparse(u32, Items<Item>),
    /// The entries of a Map.
    Map(Items<(Item, Item)>),
    /// The items of a Set.
    Set(Items<Item>),
}

/// What a turn over the items of a node gave: one item or pair more, or the whole node.
#[derive(Drop)]
pub(crate) enum Turn {
    More(Open),
    End(PNode),
}
