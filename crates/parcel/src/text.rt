//! The text of a parcel, as a log shows it.
ghost use Rattle.std.specs.Prelude.{◌≡◌, [], ◌++◌, codes, slice_get, IfOk, OnOk};
ghost use Rattle.std.specs.Fmt.{decimal};
ghost use Rattle.wl_text.specs.Text.{quoted};
ghost use Rattle.parcel.specs.declared.parcel.Parcel.{Parcel};
ghost use Rattle.parcel.specs.Checked.{IsChecked};
ghost use Rattle.parcel.specs.Text.{Writes, list_shown, kind_name, item_name, property_shown, entry_shown, message_shown, bytes_shown, buffer_shown, view_shown, node_shown, first_shown, rest_shown, item_shown, text_of};

use crate::parcel::{ErrorKind, Item, Mem, PNode, Parcel, Side};
use sqlite_items::at;
use std::alloc::{AllocError, Global};
use wl_text::Units;

/// The levels of a copy: the root's and 1,000 below it.
const LEVELS: u32 = 1_001;

/// The text of the parcel, which tells a checked parcel from every other. Undefined, null and booleans are their words,
/// numbers are decimal, strings are quoted. Functions are `own3` or `far3`, promises `ownp3` or `farp3`. A node is `#n=`
/// and its body at its first visit and `#n` later. Bodies: `{"k":v,..}`, `[v,..]`, `!Kind("m")` or `!Kind()`,
/// `map[k=>v,..]`, `set[v,..]`, `port(n)`, `bytes(HEX)` and `view(B,offset,length)` with the buffer as an item.
///
/// Of a parcel that isn't checked nothing is shown below 1,000 levels, nor in a node that isn't there.
/// The cost is linear in the text.
#[tactic(auto, unfolding(crate::specs::Text::text_of))]
pub fn show(alloc: Global, parcel: &Parcel) -> Mem<Vec<u8>>
    ensures { IfOk result (λ text. text.items ≡ text_of parcel.now) }
{
    let mut out = Vec::new(alloc);
    show_item(
        alloc,
        &mut out,
        parcel.nodes.as_slice(),
        &parcel.root,
        0,
        LEVELS,
    )?;
    Ok(out)
}

/// A law: two checked parcels that are shown alike are the same parcel.
pub fn show_is_injective()
    ensures { (a b : Parcel) → IsChecked a → IsChecked b → text_of a ≡ text_of b → a ≡ b }
{}

// An item, where the next node takes the number `next` and so many levels are left. Answers the next number behind it.
#[cycle(text)]
fn show_item(
    alloc: Global,
    out: &mut Vec<u8>,
    nodes: &[PNode],
    item: &Item,
    next: usize,
    depth: u32,
) -> Mem<usize>
    ensures { IfOk result (λ after. Writes out.old.items out.new.items after (item_shown depth nodes.now item.now next)) }
{
    if depth == 0 {
        return Ok(next);
    }
    push_name(alloc, out, item)?;
    let after = show_rest(alloc, out, nodes, item, next, depth - 1)?;
    Ok(after)
}

// What stands behind an item's name.
#[cycle(text)]
fn show_rest(
    alloc: Global,
    out: &mut Vec<u8>,
    nodes: &[PNode],
    item: &Item,
    next: usize,
    depth: u32,
) -> Mem<usize>
    ensures { IfOk result (λ after. Writes out.old.items out.new.items after (rest_shown (item_shown depth nodes.now) nodes.now item.now next)) }
{
    let Item::Node(number) = item else {
        return Ok(next);
    };
    if (*number as usize) < next {
        return Ok(next);
    }
    let Some(node) = at(nodes, *number as usize) else {
        return Ok(next);
    };
    out.push(b'=')?;
    let after = show_node(alloc, out, nodes, *number, node, next, depth)?;
    Ok(after)
}

// What stands in a node.
#[cycle(text)]
#[tactic(auto, unfolding(crate::specs::Text::node_shown))]
fn show_node(
    alloc: Global,
    out: &mut Vec<u8>,
    nodes: &[PNode],
    number: u32,
    node: &PNode,
    next: usize,
    depth: u32,
) -> Mem<usize>
    ensures { IfOk result (λ after. Writes out.old.items out.new.items after (node_shown (item_shown depth nodes.now) nodes.now number node.now next)) }
{
    let after = number as usize + 1;
    match node {
        PNode::Object(properties) => {
            out.push(b'{')?;
            let after = show_properties(alloc, out, nodes, properties.as_slice(), after, depth)?;
            out.push(b'}')?;
            Ok(after)
        }
        PNode::Array(items) => {
            out.push(b'[')?;
            let after = show_items(alloc, out, nodes, items.as_slice(), after, depth)?;
            out.push(b']')?;
            Ok(after)
        }
        PNode::Map(entries) => {
            out.extend_from_slice(b"map[")?;
            let after = show_entries(alloc, out, nodes, entries.as_slice(), after, depth)?;
            out.push(b']')?;
            Ok(after)
        }
        PNode::Set(items) => {
            out.extend_from_slice(b"set[")?;
            let after = show_items(alloc, out, nodes, items.as_slice(), after, depth)?;
            out.push(b']')?;
            Ok(after)
        }
        PNode::Error(kind, message) => {
            push_error(alloc, out, *kind, message)?;
            Ok(after)
        }
        PNode::Port(place) => {
            out.extend_from_slice(b"port(")?;
            push_number(alloc, out, *place)?;
            out.push(b')')?;
            Ok(after)
        }
        PNode::Buffer(bytes) => {
            push_bytes(alloc, out, bytes.as_slice())?;
            Ok(after)
        }
        PNode::View {
            buffer,
            offset,
            length,
        } => {
            push_view(alloc, out, nodes, *buffer, *offset, *length, next)?;
            Ok(after)
        }
    }
}

// Items, with commas between.
#[cycle(text)]
#[tactic(auto, unfolding(crate::specs::Text::list_shown))]
fn show_items(
    alloc: Global,
    out: &mut Vec<u8>,
    nodes: &[PNode],
    items: &[Item],
    next: usize,
    depth: u32,
) -> Mem<usize>
    ensures { IfOk result (λ after. Writes out.old.items out.new.items after (list_shown (item_shown depth nodes.now) [] items.now next)) }
{
    let mut after = next;
    let mut lead: &[u8] = b"";
    'items: for item in items {
        out.extend_from_slice(lead)?;
        after = show_item(alloc, out, nodes, item, after, depth)?;
        lead = b",";
    }
    Ok(after)
}

// The properties of an object, with commas between.
#[cycle(text)]
#[tactic(auto, unfolding(crate::specs::Text::list_shown))]
fn show_properties(
    alloc: Global,
    out: &mut Vec<u8>,
    nodes: &[PNode],
    properties: &[(Units, Item)],
    next: usize,
    depth: u32,
) -> Mem<usize>
    ensures { IfOk result (λ after. Writes out.old.items out.new.items after (list_shown (property_shown (item_shown depth nodes.now)) [] properties.now next)) }
{
    let mut after = next;
    let mut lead: &[u8] = b"";
    'properties: for property in properties {
        out.extend_from_slice(lead)?;
        after = show_property(alloc, out, nodes, property, after, depth)?;
        lead = b",";
    }
    Ok(after)
}

// A property: `"key":value`.
#[cycle(text)]
fn show_property(
    alloc: Global,
    out: &mut Vec<u8>,
    nodes: &[PNode],
    property: &(Units, Item),
    next: usize,
    depth: u32,
) -> Mem<usize>
    ensures { IfOk result (λ after. Writes out.old.items out.new.items after (property_shown (item_shown depth nodes.now) property.now next)) }
{
    push_quoted(alloc, out, &property.0)?;
    out.push(b':')?;
    let after = show_item(alloc, out, nodes, &property.1, next, depth)?;
    Ok(after)
}

// The entries of a Map, with commas between.
#[cycle(text)]
#[tactic(auto, unfolding(crate::specs::Text::list_shown))]
fn show_entries(
    alloc: Global,
    out: &mut Vec<u8>,
    nodes: &[PNode],
    entries: &[(Item, Item)],
    next: usize,
    depth: u32,
) -> Mem<usize>
    ensures { IfOk result (λ after. Writes out.old.items out.new.items after (list_shown (entry_shown (item_shown depth nodes.now)) [] entries.now next)) }
{
    let mut after = next;
    let mut lead: &[u8] = b"";
    'entries: for entry in entries {
        out.extend_from_slice(lead)?;
        after = show_entry(alloc, out, nodes, entry, after, depth)?;
        lead = b",";
    }
    Ok(after)
}

// An entry of a Map: `key=>value`.
#[cycle(text)]
fn show_entry(
    alloc: Global,
    out: &mut Vec<u8>,
    nodes: &[PNode],
    entry: &(Item, Item),
    next: usize,
    depth: u32,
) -> Mem<usize>
    ensures { IfOk result (λ after. Writes out.old.items out.new.items after (entry_shown (item_shown depth nodes.now) entry.now next)) }
{
    let behind_key = show_item(alloc, out, nodes, &entry.0, next, depth)?;
    out.extend_from_slice(b"=>")?;
    let after = show_item(alloc, out, nodes, &entry.1, behind_key, depth)?;
    Ok(after)
}

// A primitive value in words, or the name of what an item leads to.
#[tactic(auto, unfolding(crate::specs::Text::item_name))]
fn push_name(alloc: Global, out: &mut Vec<u8>, item: &Item) -> Mem<()>
    ensures { OnOk result (out.new.items ≡ out.old.items ++ item_name item.now) }
{
    match item {
        Item::Undefined => out.extend_from_slice(b"undefined")?,
        Item::Null => out.extend_from_slice(b"null")?,
        Item::Bool(true) => out.extend_from_slice(b"true")?,
        Item::Bool(false) => out.extend_from_slice(b"false")?,
        Item::Num(n) => {
            let digits = n.to_string(alloc)?;
            out.extend_from_slice(digits.as_bytes())?;
        }
        Item::Str(text) => push_quoted(alloc, out, text)?,
        Item::Node(number) => push_numbered(alloc, out, b"#", *number)?,
        Item::Fn(Side::Own, number) => push_numbered(alloc, out, b"own", *number)?,
        Item::Fn(Side::Far, number) => push_numbered(alloc, out, b"far", *number)?,
        Item::Prom(Side::Own, number) => push_numbered(alloc, out, b"ownp", *number)?,
        Item::Prom(Side::Far, number) => push_numbered(alloc, out, b"farp", *number)?,
    }
    Ok(())
}

// A word, and a number behind it.
fn push_numbered(alloc: Global, out: &mut Vec<u8>, word: &[u8], number: u32) -> Mem<()>
    ensures { OnOk result (out.new.items ≡ out.old.items ++ (word.now ++ decimal number)) }
{
    out.extend_from_slice(word)?;
    push_number(alloc, out, number)?;
    Ok(())
}

// A number.
fn push_number(alloc: Global, out: &mut Vec<u8>, number: u32) -> Mem<()>
    ensures { OnOk result (out.new.items ≡ out.old.items ++ decimal number) }
{
    let digits = number.to_string(alloc)?;
    out.extend_from_slice(digits.as_bytes())?;
    Ok(())
}

// A text in double quotes.
fn push_quoted(alloc: Global, out: &mut Vec<u8>, text: &Units) -> Mem<()>
    ensures { OnOk result (out.new.items ≡ out.old.items ++ quoted text.now) }
{
    let quoted = text.quoted(alloc)?;
    out.extend_from_slice(quoted.as_slice())?;
    Ok(())
}

// An error: `!Kind("message")` or `!Kind()`.
fn push_error(alloc: Global, out: &mut Vec<u8>, kind: ErrorKind, message: &Option<Units>) -> Mem<()>
    ensures { OnOk result (out.new.items ≡ out.old.items ++ (codes "!" ++ (kind_name kind ++ (codes "(" ++ (message_shown message.now ++ codes ")"))))) }
{
    out.push(b'!')?;
    out.extend_from_slice(kind_name(kind))?;
    out.push(b'(')?;
    push_message(alloc, out, message)?;
    out.push(b')')?;
    Ok(())
}

// The message of an error, if it has one.
fn push_message(alloc: Global, out: &mut Vec<u8>, message: &Option<Units>) -> Mem<()>
    ensures { OnOk result (out.new.items ≡ out.old.items ++ message_shown message.now) }
{
    let Some(text) = message else {
        return Ok(());
    };
    push_quoted(alloc, out, text)?;
    Ok(())
}

// The name of a kind of error.
fn kind_name(kind: ErrorKind) -> &'static [u8]
    ensures { result.now ≡ kind_name kind }
{
    match kind {
        ErrorKind::Error => b"Error",
        ErrorKind::EvalError => b"EvalError",
        ErrorKind::RangeError => b"RangeError",
        ErrorKind::ReferenceError => b"ReferenceError",
        ErrorKind::SyntaxError => b"SyntaxError",
        ErrorKind::TypeError => b"TypeError",
        ErrorKind::URIError => b"URIError",
    }
}

// The bytes of a buffer, in hexadecimal.
#[tactic(auto, unfolding(crate::specs::Text::bytes_shown))]
fn push_bytes(alloc: Global, out: &mut Vec<u8>, bytes: &[u8]) -> Mem<()>
    ensures { OnOk result (out.new.items ≡ out.old.items ++ bytes_shown bytes.now) }
{
    let digits = hex::encode_upper(alloc, bytes)?;
    out.extend_from_slice(b"bytes(")?;
    out.extend_from_slice(digits.as_bytes())?;
    out.push(b')')?;
    Ok(())
}

// A view: its buffer as an item, its offset, its length.
#[tactic(auto, unfolding(crate::specs::Text::view_shown))]
fn push_view(
    alloc: Global,
    out: &mut Vec<u8>,
    nodes: &[PNode],
    buffer: u32,
    offset: u32,
    size: u32,
    next: usize,
) -> Mem<()>
    ensures { OnOk result (out.new.items ≡ out.old.items ++ view_shown buffer offset size (slice_get nodes.now buffer) next) }
{
    out.extend_from_slice(b"view(#")?;
    push_number(alloc, out, buffer)?;
    push_buffer(alloc, out, nodes, buffer, next)?;
    out.push(b',')?;
    push_number(alloc, out, offset)?;
    out.push(b',')?;
    push_number(alloc, out, size)?;
    out.push(b')')?;
    Ok(())
}

// What stands behind the name of a view's buffer: its bytes, where it is met with the view.
fn push_buffer(
    alloc: Global,
    out: &mut Vec<u8>,
    nodes: &[PNode],
    buffer: u32,
    next: usize,
) -> Mem<()>
    ensures { OnOk result (out.new.items ≡ out.old.items ++ buffer_shown buffer (slice_get nodes.now buffer) next) }
{
    let Some(PNode::Buffer(bytes)) = at(nodes, buffer as usize) else {
        return Ok(());
    };
    if (buffer as usize) < next {
        return Ok(());
    }
    out.push(b'=')?;
    push_bytes(alloc, out, bytes.as_slice())?;
    Ok(())
}
