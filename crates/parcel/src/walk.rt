//! Whether a parcel is checked: one walk from its root (HTML, 2.7.3 StructuredSerializeInternal).
ghost use Rattle.std.specs.Prelude.{◌≡◌, slice_get};
ghost use Rattle.parcel.specs.Checked.{is_checked, is_safe, with_text, with_contents, with_message, numbered, in_turn, visit_entry, contents_met, buffer_met, node_met, reference_met, value_met, item_met, only_if, is_word};

use crate::keys::are_keys;
use crate::parcel::{Item, PNode, Parcel};
use crate::tally::Tally;
use sqlite_items::at;
use wl_text::Units;

/// The levels of a copy: the root's and 1,000 below it.
const LEVELS: u32 = 1_001;
/// The greatest number of bytes in a buffer.
const BUFFER: usize = 1_048_576;
/// The greatest number that is whole and exact: 2^53 - 1.
const SAFE: i64 = 9_007_199_254_740_991;

/// Whether the parcel is checked: its nodes are numbered by first visit, depth first, and each is reached; a view lies
/// within its buffer, which is numbered before it; keys are distinct, array indices ascending before the others; numbers
/// are whole, from -(2^53 - 1) to 2^53 - 1; and the limits of a copy hold: 100,000 nodes, 1,000,000 items, 16,777,216
/// units of text with the bytes of buffers, 1,048,576 bytes in a buffer, nesting 1,000.
///
/// The cost is linear, but for objects with many names: the names of one object are compared in pairs.
#[tactic(auto, unfolding(crate::specs::Checked::is_checked, crate::specs::Checked::all_met))]
pub fn check(parcel: &Parcel) -> bool
    ensures { result ≡ is_checked parcel.now }
{
    let nodes = parcel.nodes.as_slice();
    match item_met(LEVELS, nodes, &parcel.root, Tally::new()) {
        None => false,
        Some(met) => met.nodes as usize == nodes.len(),
    }
}

// An item where so many levels are left, its own among them.
#[cycle(walk)]
fn item_met(depth: u32, nodes: &[PNode], item: &Item, met: Tally) -> Option<Tally>
    ensures { result ≡ item_met depth nodes.now item.now met }
{
    if depth == 0 {
        return None;
    }
    match met.with_item() {
        None => None,
        Some(met) => value_met(depth - 1, nodes, item, met),
    }
}

// What an item is, once it was counted.
#[cycle(walk)]
#[tactic(auto, unfolding(crate::specs::Checked::value_met))]
fn value_met(depth: u32, nodes: &[PNode], item: &Item, met: Tally) -> Option<Tally>
    ensures { result ≡ value_met (item_met depth nodes.now) nodes.now item.now met }
{
    match item {
        Item::Num(n) => safe_met(*n, met),
        Item::Str(text) => text_met(text, met),
        Item::Node(number) => reference_met(depth, nodes, *number, met),
        Item::Fn(_, number) | Item::Prom(_, number) => word_met(*number, met),
        Item::Undefined | Item::Null | Item::Bool(_) => Some(met),
    }
}

// The node of a number, unless it was met before.
#[cycle(walk)]
fn reference_met(depth: u32, nodes: &[PNode], number: u32, met: Tally) -> Option<Tally>
    ensures { result ≡ reference_met (item_met depth nodes.now) nodes.now number met }
{
    if number < met.nodes {
        return Some(met);
    }
    let node = at(nodes, number as usize)?;
    node_met(depth, nodes, number, node, met)
}

// The first visit of a node.
#[cycle(walk)]
#[tactic(auto, unfolding(crate::specs::Checked::node_met))]
fn node_met(depth: u32, nodes: &[PNode], number: u32, node: &PNode, met: Tally) -> Option<Tally>
    ensures { result ≡ node_met (item_met depth nodes.now) nodes.now number node.now met }
{
    match node {
        PNode::View {
            buffer,
            offset,
            length,
        } => {
            let met = buffer_met(nodes, *buffer, *offset, *length, met)?;
            numbered(number, met)
        }
        _ => {
            let met = numbered(number, met)?;
            contents_met(depth, nodes, node, met)
        }
    }
}

// What stands in a node.
#[cycle(walk)]
#[tactic(auto, unfolding(crate::specs::Checked::contents_met))]
fn contents_met(depth: u32, nodes: &[PNode], node: &PNode, met: Tally) -> Option<Tally>
    ensures { result ≡ contents_met (item_met depth nodes.now) node.now met }
{
    match node {
        PNode::Object(properties) => properties_met(depth, nodes, properties.as_slice(), met),
        PNode::Array(items) | PNode::Set(items) => items_met(depth, nodes, items.as_slice(), met),
        PNode::Map(entries) => entries_met(depth, nodes, entries.as_slice(), met),
        PNode::Error(_, message) => message_met(message, met),
        PNode::Port(place) => word_met(*place, met),
        PNode::Buffer(bytes) => buffer_bytes_met(bytes.as_slice(), met),
        PNode::View { .. } => Some(met),
    }
}

// The properties of an object.
#[cycle(walk)]
#[tactic(auto, unfolding(crate::specs::Checked::contents_met, crate::specs::Checked::in_turn))]
fn properties_met(
    depth: u32,
    nodes: &[PNode],
    properties: &[(Units, Item)],
    met: Tally,
) -> Option<Tally>
    ensures { result ≡ contents_met (item_met depth nodes.now) (PNode.Object properties.now) met }
{
    if !are_keys(properties) {
        return None;
    }
    let mut met = met;
    'properties: for (key, value) in properties {
        met = text_met(key, met)?;
        met = item_met(depth, nodes, value, met)?;
    }
    Some(met)
}

// Items, one after another.
#[cycle(walk)]
#[tactic(auto, unfolding(crate::specs::Checked::in_turn))]
fn items_met(depth: u32, nodes: &[PNode], items: &[Item], met: Tally) -> Option<Tally>
    ensures { result ≡ in_turn (item_met depth nodes.now) items.now met }
{
    let mut met = met;
    'items: for item in items {
        met = item_met(depth, nodes, item, met)?;
    }
    Some(met)
}

// The entries of a Map.
#[cycle(walk)]
#[tactic(auto, unfolding(crate::specs::Checked::in_turn))]
fn entries_met(depth: u32, nodes: &[PNode], entries: &[(Item, Item)], met: Tally) -> Option<Tally>
    ensures { result ≡ in_turn (visit_entry (item_met depth nodes.now)) entries.now met }
{
    let mut met = met;
    'entries: for (key, value) in entries {
        met = item_met(depth, nodes, key, met)?;
        met = item_met(depth, nodes, value, met)?;
    }
    Some(met)
}

// A view's buffer, which takes its number before the view unless it has one.
#[tactic(auto, unfolding(crate::specs::Checked::buffer_met))]
fn buffer_met(nodes: &[PNode], buffer: u32, offset: u32, length: u32, met: Tally) -> Option<Tally>
    ensures { result ≡ buffer_met buffer offset length (slice_get nodes.now buffer) met }
{
    let node = at(nodes, buffer as usize)?;
    let PNode::Buffer(bytes) = node else {
        return None;
    };
    if bytes.len() < offset as usize + length as usize {
        return None;
    }
    if buffer < met.nodes {
        return Some(met);
    }
    let met = numbered(buffer, met)?;
    buffer_bytes_met(bytes.as_slice(), met)
}

// A node that is met for the first time has the next number.
fn numbered(number: u32, met: Tally) -> Option<Tally>
    ensures { result ≡ numbered number met }
{
    if number != met.nodes {
        return None;
    }
    met.with_node()
}

// A text.
fn text_met(text: &Units, met: Tally) -> Option<Tally>
    ensures { result ≡ with_text text.now met }
{
    units_met(text.as_slice(), met)
}

// The units of a text.
fn units_met(units: &[u16], met: Tally) -> Option<Tally>
    ensures { result ≡ with_text units.now met }
{
    if units.len() > Units::LIMIT {
        return None;
    }
    met.with_units(units.len())
}

// The message of an error.
fn message_met(message: &Option<Units>, met: Tally) -> Option<Tally>
    ensures { result ≡ with_message message.now met }
{
    match message {
        None => Some(met),
        Some(text) => text_met(text, met),
    }
}

// The contents of a buffer.
fn buffer_bytes_met(bytes: &[u8], met: Tally) -> Option<Tally>
    ensures { result ≡ with_contents bytes.now met }
{
    if bytes.len() > BUFFER {
        return None;
    }
    met.with_units(bytes.len())
}

// A number that must be whole and in range.
fn safe_met(n: i64, met: Tally) -> Option<Tally>
    ensures { result ≡ only_if (is_safe n) met }
{
    if n < -SAFE || SAFE < n {
        return None;
    }
    Some(met)
}

// A number of 32 bits.
fn word_met(number: u32, met: Tally) -> Option<Tally>
    ensures { result ≡ only_if (is_word number) met }
{
    let _number = number;
    Some(met)
}
