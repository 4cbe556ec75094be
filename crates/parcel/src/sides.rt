//! Copies of parcels, with the sides kept or exchanged.
ghost use Rattle.std.specs.Prelude.{◌≡◌, map, IfOk};
ghost use Rattle.parcel.specs.Sides.{turned_item, turned_node, turned, swapped};
ghost use Rattle.parcel.specs.Turn.{side_by};
ghost use Rattle.parcel.specs.declared.parcel.Parcel.{Parcel};

use crate::parcel::{Item, Mem, PNode, Parcel, Side};
use sqlite_items::Items;
use std::alloc::Global;
use wl_text::Units;

/// What becomes of the sides.
#[derive(Drop, Clone, Copy)]
enum Turn {
    Kept,
    Exchanged,
}

/// The same parcel again.
pub fn copy(alloc: Global, parcel: &Parcel) -> Mem<Parcel>
    ensures { IfOk result (λ copy. copy ≡ parcel.now) }
{
    let copy = turned(alloc, parcel, Turn::Kept)?;
    Ok(copy)
}

/// The parcel with Own and Far exchanged, as it is seen from the other side.
#[tactic(auto, unfolding(crate::specs::Sides::swapped))]
pub fn swap_sides(alloc: Global, parcel: &Parcel) -> Mem<Parcel>
    ensures { IfOk result (λ swapped_parcel. swapped_parcel ≡ swapped parcel.now) }
{
    let swapped = turned(alloc, parcel, Turn::Exchanged)?;
    Ok(swapped)
}

/// A law: exchanging the sides twice gives the parcel again.
pub fn swap_sides_twice()
    ensures { (parcel : Parcel) → swapped (swapped parcel) ≡ parcel }
{}

// The parcel, each side kept or exchanged.
#[tactic(auto, unfolding(crate::specs::Sides::turned))]
fn turned(alloc: Global, parcel: &Parcel, turn: Turn) -> Mem<Parcel>
    ensures { IfOk result (λ copy. copy ≡ turned (side_by turn) parcel.now) }
{
    let nodes = turned_nodes(alloc, parcel.nodes.as_slice(), turn)?;
    let root = turned_item(alloc, &parcel.root, turn)?;
    Ok(Parcel { root, nodes })
}

// Nodes, in their order.
fn turned_nodes(alloc: Global, nodes: &[PNode], turn: Turn) -> Mem<Items<PNode>>
    ensures { IfOk result (λ copy. copy ≡ map (turned_node (side_by turn)) nodes.now) }
{
    let mut copy = Items::new(alloc);
    'nodes: for node in nodes {
        let node = turned_node(alloc, node, turn)?;
        copy.push(node)?;
    }
    Ok(copy)
}

// A node.
#[tactic(auto, unfolding(crate::specs::Sides::turned_node))]
fn turned_node(alloc: Global, node: &PNode, turn: Turn) -> Mem<PNode>
    ensures { IfOk result (λ copy. copy ≡ turned_node (side_by turn) node.now) }
{
    match node {
        PNode::Object(properties) => {
            let properties = turned_properties(alloc, properties.as_slice(), turn)?;
            Ok(PNode::Object(properties))
        }
        PNode::Array(items) => {
            let items = turned_items(alloc, items.as_slice(), turn)?;
            Ok(PNode::Array(items))
        }
        PNode::Map(entries) => {
            let entries = turned_entries(alloc, entries.as_slice(), turn)?;
            Ok(PNode::Map(entries))
        }
        PNode::Set(items) => {
            let items = turned_items(alloc, items.as_slice(), turn)?;
            Ok(PNode::Set(items))
        }
        PNode::Error(kind, None) => Ok(PNode::Error(*kind, None)),
        PNode::Error(kind, Some(message)) => {
            let message = message.copy(alloc)?;
            Ok(PNode::Error(*kind, Some(message)))
        }
        PNode::Port(place) => Ok(PNode::Port(*place)),
        PNode::Buffer(bytes) => {
            let bytes = Items::from_slice(alloc, bytes.as_slice())?;
            Ok(PNode::Buffer(bytes))
        }
        PNode::View {
            buffer,
            offset,
            length,
        } => Ok(PNode::View {
            buffer: *buffer,
            offset: *offset,
            length: *length,
        }),
    }
}

// Items, in their order.
fn turned_items(alloc: Global, items: &[Item], turn: Turn) -> Mem<Items<Item>>
    ensures { IfOk result (λ copy. copy ≡ map (turned_item (side_by turn)) items.now) }
{
    let mut copy = Items::new(alloc);
    'items: for item in items {
        let item = turned_item(alloc, item, turn)?;
        copy.push(item)?;
    }
    Ok(copy)
}

// The properties of an object.
fn turned_properties(
    alloc: Global,
    properties: &[(Units, Item)],
    turn: Turn,
) -> Mem<Items<(Units, Item)>>
    ensures { IfOk result (λ copy. copy ≡ map (λ property. (property.0, turned_item (side_by turn) property.1)) properties.now) }
{
    let mut copy = Items::new(alloc);
    'properties: for (key, value) in properties {
        let key = key.copy(alloc)?;
        let value = turned_item(alloc, value, turn)?;
        copy.push((key, value))?;
    }
    Ok(copy)
}

// The entries of a Map.
fn turned_entries(alloc: Global, entries: &[(Item, Item)], turn: Turn) -> Mem<Items<(Item, Item)>>
    ensures { IfOk result (λ copy. copy ≡ map (λ entry. (turned_item (side_by turn) entry.0, turned_item (side_by turn) entry.1)) entries.now) }
{
    let mut copy = Items::new(alloc);
    'entries: for (key, value) in entries {
        let key = turned_item(alloc, key, turn)?;
        let value = turned_item(alloc, value, turn)?;
        copy.push((key, value))?;
    }
    Ok(copy)
}

// One item.
#[tactic(auto, unfolding(crate::specs::Sides::turned_item))]
fn turned_item(alloc: Global, item: &Item, turn: Turn) -> Mem<Item>
    ensures { IfOk result (λ copy. copy ≡ turned_item (side_by turn) item.now) }
{
    match item {
        Item::Undefined => Ok(Item::Undefined),
        Item::Null => Ok(Item::Null),
        Item::Bool(value) => Ok(Item::Bool(*value)),
        Item::Num(n) => Ok(Item::Num(*n)),
        Item::Str(text) => {
            let text = text.copy(alloc)?;
            Ok(Item::Str(text))
        }
        Item::Node(number) => Ok(Item::Node(*number)),
        Item::Fn(side, number) => Ok(Item::Fn(side_by(turn, *side), *number)),
        Item::Prom(side, number) => Ok(Item::Prom(side_by(turn, *side), *number)),
    }
}

// A side, kept or exchanged.
fn side_by(turn: Turn, side: Side) -> Side
    ensures { result ≡ side_by turn side }
{
    match (turn, side) {
        (Turn::Kept, side) => side,
        (Turn::Exchanged, Side::Own) => Side::Far,
        (Turn::Exchanged, Side::Far) => Side::Own,
    }
}
