//! A parcel, into its bytes.
ghost use Rattle.std.specs.Prelude.{◌≡◌, ◌+◌, ◌<◌, ◌≤◌, [], ◌∷◌, ◌++◌, length, slice_get, Some, IfOk, OnOk};
ghost use Rattle.v8_wire.specs.Spelling.{varint, written, key, put_all, put_property, put_entry, put_contents, put_buffer, put_node, put_value, put_item, spelled};

use crate::writing::{
    put_buffer_bytes, put_error, put_key, put_number, put_reference, put_string, put_varint,
};
use parcel::{Item, Mem, PNode, Parcel};
use std::alloc::{AllocError, Global};
use wl_text::Units;

// How deep values may nest, with the root's own level.
const LEVELS: u32 = 1_001;

// Writes the properties of an object; `met` nodes have their numbers.
#[cycle(putting)]
fn put_properties(
    alloc: Global,
    out: &mut Vec<u8>,
    nodes: &[PNode],
    depth: u32,
    properties: &[(Units, Item)],
    met: usize,
) -> Result<usize, AllocError>
    ensures { IfOk result (λ next. written out.new.items next
        ≡ put_all (put_property (put_item depth nodes.now)) properties.now (written out.old.items met)) }
{
    let mut next = met;
    'properties: for (key, value) in properties {
        put_key(alloc, out, key)?;
        next = put_item_of(alloc, out, nodes, depth, value, next)?;
    }
    Ok(next)
}

// Writes items, one after another.
#[cycle(putting)]
fn put_items(
    alloc: Global,
    out: &mut Vec<u8>,
    nodes: &[PNode],
    depth: u32,
    items: &[Item],
    met: usize,
) -> Result<usize, AllocError>
    ensures { IfOk result (λ next. written out.new.items next
        ≡ put_all (put_item depth nodes.now) items.now (written out.old.items met)) }
{
    let mut next = met;
    'items: for item in items {
        next = put_item_of(alloc, out, nodes, depth, item, next)?;
    }
    Ok(next)
}

// Writes the entries of a Map.
#[cycle(putting)]
fn put_entries(
    alloc: Global,
    out: &mut Vec<u8>,
    nodes: &[PNode],
    depth: u32,
    entries: &[(Item, Item)],
    met: usize,
) -> Result<usize, AllocError>
    ensures { IfOk result (λ next. written out.new.items next
        ≡ put_all (put_entry (put_item depth nodes.now)) entries.now (written out.old.items met)) }
{
    let mut next = met;
    'entries: for (key, value) in entries {
        next = put_item_of(alloc, out, nodes, depth, key, next)?;
        next = put_item_of(alloc, out, nodes, depth, value, next)?;
    }
    Ok(next)
}

// Writes a node that is no view and has its number.
#[cycle(putting)]
#[tactic(auto, unfolding(crate::specs::Spelling::put_contents))]
fn put_contents_of(
    alloc: Global,
    out: &mut Vec<u8>,
    nodes: &[PNode],
    depth: u32,
    node: &PNode,
    met: usize,
) -> Result<usize, AllocError>
    ensures { IfOk result (λ next. written out.new.items next
        ≡ put_contents (put_item depth nodes.now) node.now (written out.old.items met)) }
{
    match node {
        PNode::Object(properties) => {
            out.push(b'o')?;
            let next = put_properties(alloc, out, nodes, depth, properties.as_slice(), met)?;
            out.push(b'{')?;
            put_varint(out, properties.len())?;
            Ok(next)
        }
        PNode::Array(items) => {
            out.push(b'A')?;
            put_varint(out, items.len())?;
            let next = put_items(alloc, out, nodes, depth, items.as_slice(), met)?;
            out.push(b'$')?;
            out.push(0)?;
            put_varint(out, items.len())?;
            Ok(next)
        }
        PNode::Error(kind, message) => {
            put_error(alloc, out, *kind, message)?;
            Ok(met)
        }
        PNode::Map(entries) => {
            out.push(b';')?;
            let next = put_entries(alloc, out, nodes, depth, entries.as_slice(), met)?;
            out.push(b':')?;
            put_varint(out, 2 * entries.len())?;
            Ok(next)
        }
        PNode::Set(items) => {
            out.push(b'\'')?;
            let next = put_items(alloc, out, nodes, depth, items.as_slice(), met)?;
            out.push(b',')?;
            put_varint(out, items.len())?;
            Ok(next)
        }
        PNode::Port(place) => {
            out.push(b'\\')?;
            out.push(b'M')?;
            put_varint(out, *place as usize)?;
            Ok(met)
        }
        PNode::Buffer(contents) => {
            put_buffer_bytes(out, contents.as_slice())?;
            Ok(met)
        }
        PNode::View {
            buffer: _,
            offset: _,
            length: _,
        } => Ok(met),
    }
}

// Writes the buffer of a view: by its number, if it has one.
#[tactic(auto, unfolding(crate::specs::Spelling::put_buffer))]
fn put_buffer_of(
    out: &mut Vec<u8>,
    nodes: &[PNode],
    buffer: u32,
    met: usize,
) -> Result<(), AllocError>
    ensures { OnOk result (out.new.items ≡ (put_buffer buffer (slice_get nodes.now buffer) (written out.old.items met)).bytes) }
{
    if let Some(PNode::Buffer(contents)) = nodes.get(buffer as usize) {
        if (buffer as usize) < met {
            put_reference(out, buffer as usize)?;
            return Ok(());
        }
        put_buffer_bytes(out, contents.as_slice())?;
    }
    Ok(())
}

// Writes a view behind its buffer.
fn put_view(out: &mut Vec<u8>, offset: u32, length: u32) -> Result<(), AllocError>
    ensures { OnOk result (out.new.items ≡ out.old.items ++ (86 ∷ 66 ∷ varint offset ++ (varint length ++ 0 ∷ []))) }
{
    out.push(b'V')?;
    out.push(b'B')?;
    put_varint(out, offset as usize)?;
    put_varint(out, length as usize)?;
    out.push(0)?;
    Ok(())
}

// Writes a node at its first visit.
#[cycle(putting)]
#[tactic(auto, unfolding(crate::specs::Spelling::put_node))]
fn put_node_of(
    alloc: Global,
    out: &mut Vec<u8>,
    nodes: &[PNode],
    depth: u32,
    number: u32,
    met: usize,
) -> Result<usize, AllocError>
    ensures { IfOk result (λ next. written out.new.items next
        ≡ put_node (put_item depth nodes.now) nodes.now number (slice_get nodes.now number) (written out.old.items met)) }
{
    let next = number as usize + 1;
    match nodes.get(number as usize) {
        None => Ok(met),
        Some(
            PNode::View {
                buffer,
                offset,
                length,
            },
        ) => {
            put_buffer_of(out, nodes, *buffer, met)?;
            put_view(out, *offset, *length)?;
            Ok(next)
        }
        Some(node) => {
            let next = put_contents_of(alloc, out, nodes, depth, node, next)?;
            Ok(next)
        }
    }
}

// Writes an item; `depth` levels may follow its own.
#[cycle(putting)]
#[tactic(auto, unfolding(crate::specs::Spelling::put_value))]
fn put_value_of(
    alloc: Global,
    out: &mut Vec<u8>,
    nodes: &[PNode],
    depth: u32,
    item: &Item,
    met: usize,
) -> Result<usize, AllocError>
    ensures { IfOk result (λ next. written out.new.items next
        ≡ put_value (put_item depth nodes.now) nodes.now item.now (written out.old.items met)) }
{
    match item {
        Item::Undefined => out.push(b'_')?,
        Item::Null => out.push(b'0')?,
        Item::Bool(true) => out.push(b'T')?,
        Item::Bool(false) => out.push(b'F')?,
        Item::Num(number) => put_number(out, *number)?,
        Item::Str(text) => put_string(alloc, out, text)?,
        Item::Node(number) => {
            if *number as usize >= met {
                let next = put_node_of(alloc, out, nodes, depth, *number, met)?;
                return Ok(next);
            }
            put_reference(out, *number as usize)?;
        }
        Item::Fn(_, _) => {}
        Item::Prom(_, _) => {}
    }
    Ok(met)
}

// Writes an item where so many levels are left, its own among them.
#[cycle(putting)]
#[tactic(auto, unfolding(crate::specs::Spelling::put_item))]
fn put_item_of(
    alloc: Global,
    out: &mut Vec<u8>,
    nodes: &[PNode],
    depth: u32,
    item: &Item,
    met: usize,
) -> Result<usize, AllocError>
    ensures { IfOk result (λ next. written out.new.items next ≡ put_item depth nodes.now item.now (written out.old.items met)) }
{
    if depth == 0 {
        return Ok(met);
    }
    let next = put_value_of(alloc, out, nodes, depth - 1, item, met)?;
    Ok(next)
}

/// The bytes of a parcel: its one spelling in version 15 of V8's format.
///
/// The parcel is to be checked, and to have no functions and promises: these have no spelling, and nothing is written
/// for one. Memory may run out. The cost is linear in the bytes.
#[tactic(auto, unfolding(crate::specs::Spelling::spelled))]
pub fn put(alloc: Global, parcel: &Parcel) -> Mem<Vec<u8>>
    ensures { IfOk result (λ bytes. bytes.items ≡ spelled parcel.now) }
{
    let mut out = Vec::new(alloc);
    out.push(255)?;
    out.push(15)?;
    let _ = put_item_of(
        alloc,
        &mut out,
        parcel.nodes.as_slice(),
        LEVELS,
        &parcel.root,
        0,
    )?;
    Ok(out)
}
