//! Values without items of their own.
ghost use Rattle.std.specs.Prelude.{◌≡◌, ◌<◌, ◌≤◌, length, IfOk, OnOk};
ghost use Rattle.parcel.specs.declared.parcel.Item.{Item};
ghost use Rattle.v8_wire.specs.Faults.{Gives, Fails};
ghost use Rattle.v8_wire.specs.Leaf.{unpadded, is_number_tag, is_text_tag, is_node_tag, is_composite_tag, Told, text_with, text_at, kind_at, message_at, stack_at, end_at, error_at, port_at, buffer_at, node_at, placed_at, reference_at, counted_text_at, leaf_at, refused};

use crate::fault::{Fault, Stop, fault_at};
use crate::kind::WireKind;
use crate::met::Met;
use crate::number::{number_of, varint_of};
use crate::text::{bytes_of, string_of};
use parcel::{ErrorKind, Item, PNode};
use sqlite_items::Items;
use std::alloc::Global;
use wl_text::Units;

/// The bytes from the first that isn't zero.
#[tactic(auto, unfolding(crate::specs::Leaf::unpadded))]
pub(crate) fn skip_padding(bytes: &[u8]) -> &[u8]
    ensures rest { result.now ≡ unpadded bytes.now }
    ensures shorter { length result.now ≤ length bytes.now }
{
    let mut rest = bytes;
    while let [0, after @ ..] = rest {
        rest = after;
    }
    rest
}

/// Whether a number stands behind the tag.
pub(crate) fn is_number(tag: u8) -> bool
    ensures { result ≡ is_number_tag tag }
{
    tag == b'I' || tag == b'U' || tag == b'N'
}

/// Whether a string stands behind the tag.
pub(crate) fn is_text(tag: u8) -> bool
    ensures { result ≡ is_text_tag tag }
{
    tag == b'"' || tag == b'c' || tag == b'S'
}

// Whether an error, a port or a buffer stands behind the tag.
fn is_node(tag: u8) -> bool
    ensures { result ≡ is_node_tag tag }
{
    tag == b'r' || tag == b'\\' || tag == b'B'
}

/// Whether a node with items stands behind the tag.
pub(crate) fn is_composite(tag: u8) -> bool
    ensures { result ≡ is_composite_tag tag }
{
    tag == b'o' || tag == b';' || tag == b'\'' || tag == b'A' || tag == b'a'
}

// What is told of a value that may not stand at its tag, where reading it stopped.
fn told_of(kind: WireKind, left: usize, found: Stop) -> Stop
    ensures { Told kind left found result }
{
    match found {
        Stop::Memory => Stop::Memory,
        Stop::At(own) => {
            if own.left == left && !matches!(own.kind, WireKind::TooLarge) {
                return Stop::At(own);
            }
            fault_at(left, kind)
        }
    }
}

// A string with its tag, and how many bytes were left there.
#[tactic(auto, unfolding(crate::specs::Leaf::text_at, crate::specs::Leaf::text_with))]
fn text_of(alloc: Global, bytes: &[u8]) -> Result<(usize, Units, &[u8]), Stop>
    ensures exact { Gives (λ x. (x.0, x.1, x.2.now)) result (text_at bytes.now) }
    ensures shorter { IfOk result (λ x. length x.2.now < length bytes.now) }
{
    let bytes = skip_padding(bytes);
    let (tag, rest) = match bytes.split_first() {
        None => return Err(fault_at(0, WireKind::Cut)),
        Some(split) => split,
    };
    if !is_text(*tag) {
        return Err(fault_at(bytes.len(), WireKind::Tag));
    }
    let (text, rest) = string_of(alloc, *tag, bytes.len(), rest)?;
    Ok((bytes.len(), text, rest))
}

// The kind of an error.
#[tactic(auto, unfolding(crate::specs::Leaf::kind_at))]
fn kind_of(bytes: &[u8]) -> (ErrorKind, &[u8])
    ensures exact { (result.0, result.1.now) ≡ kind_at bytes.now }
    ensures shorter { length result.1.now ≤ length bytes.now }
{
    match bytes {
        [b'E', rest @ ..] => (ErrorKind::EvalError, rest),
        [b'R', rest @ ..] => (ErrorKind::RangeError, rest),
        [b'F', rest @ ..] => (ErrorKind::ReferenceError, rest),
        [b'S', rest @ ..] => (ErrorKind::SyntaxError, rest),
        [b'T', rest @ ..] => (ErrorKind::TypeError, rest),
        [b'U', rest @ ..] => (ErrorKind::URIError, rest),
        _ => (ErrorKind::Error, bytes),
    }
}

// The message of an error, where it has one.
#[tactic(auto, unfolding(crate::specs::Leaf::message_at))]
fn message_of<'a>(
    alloc: Global,
    met: &mut Met,
    bytes: &'a [u8],
) -> Result<(Option<Units>, &'a [u8]), Stop>
    ensures exact { Gives (λ x. (x.0, met.new, x.1.now)) result (message_at met.old bytes.now) }
    ensures grows { OnOk result (length met.old.nodes ≤ length met.new.nodes) }
    ensures shorter { IfOk result (λ x. length x.1.now ≤ length bytes.now) }
{
    match bytes {
        [b'm', rest @ ..] => {
            let (left, message, rest) = text_of(alloc, rest)?;
            met.count_units(left, message.len())?;
            Ok((Some(message), rest))
        }
        _ => Ok((None, bytes)),
    }
}

// What follows the stack of an error, where it has one.
#[tactic(auto, unfolding(crate::specs::Leaf::stack_at))]
fn skip_stack(alloc: Global, bytes: &[u8]) -> Result<&[u8], Stop>
    ensures exact { Gives (λ x. x.now) result (stack_at bytes.now) }
    ensures shorter { IfOk result (λ x. length x.now ≤ length bytes.now) }
{
    match bytes {
        [b's', rest @ ..] => {
            let (_, _, rest) = text_of(alloc, rest)?;
            Ok(rest)
        }
        _ => Ok(bytes),
    }
}

// What follows the end of an error.
#[tactic(auto, unfolding(crate::specs::Leaf::end_at))]
fn skip_end(bytes: &[u8]) -> Result<&[u8], Stop>
    ensures exact { Gives (λ x. x.now) result (end_at bytes.now) }
    ensures shorter { IfOk result (λ x. length x.now ≤ length bytes.now) }
{
    match bytes {
        [] => Err(fault_at(0, WireKind::Cut)),
        [b'.', rest @ ..] => Ok(rest),
        _ => Err(fault_at(bytes.len(), WireKind::Tag)),
    }
}

// An error behind its tag.
#[tactic(auto, unfolding(crate::specs::Leaf::error_at))]
fn error_of<'a>(alloc: Global, met: &mut Met, bytes: &'a [u8]) -> Result<(PNode, &'a [u8]), Stop>
    ensures exact { Gives (λ x. (x.0, met.new, x.1.now)) result (error_at met.old bytes.now) }
    ensures grows { OnOk result (length met.old.nodes ≤ length met.new.nodes) }
    ensures shorter { IfOk result (λ x. length x.1.now ≤ length bytes.now) }
{
    let (kind, rest) = kind_of(bytes);
    let (message, rest) = message_of(alloc, met, rest)?;
    let rest = skip_stack(alloc, rest)?;
    let rest = skip_end(rest)?;
    Ok((PNode::Error(kind, message), rest))
}

// A port behind its tag, at which `left` bytes are left.
#[tactic(auto, unfolding(crate::specs::Leaf::port_at))]
fn port_of<'a>(met: &Met, left: usize, bytes: &'a [u8]) -> Result<(PNode, &'a [u8]), Stop>
    ensures exact { Gives (λ x. (x.0, met.now, x.1.now)) result (port_at met.now left bytes.now) }
    ensures shorter { IfOk result (λ x. length x.1.now ≤ length bytes.now) }
{
    let rest = match bytes {
        [] => return Err(fault_at(0, WireKind::Cut)),
        [b'M', rest @ ..] => rest,
        _ => return Err(fault_at(bytes.len(), WireKind::Tag)),
    };
    let (place, rest) = varint_of(rest)?;
    if place >= met.ports {
        return Err(fault_at(left, WireKind::Reference));
    }
    Ok((PNode::Port(place), rest))
}

// A buffer behind its tag, at which `left` bytes are left.
#[tactic(auto, unfolding(crate::specs::Leaf::buffer_at))]
fn buffer_of<'a>(
    alloc: Global,
    met: &mut Met,
    left: usize,
    bytes: &'a [u8],
) -> Result<(PNode, &'a [u8]), Stop>
    ensures exact { Gives (λ x. (x.0, met.new, x.1.now)) result (buffer_at met.old left bytes.now) }
    ensures grows { OnOk result (length met.old.nodes ≤ length met.new.nodes) }
    ensures shorter { IfOk result (λ x. length x.1.now ≤ length bytes.now) }
{
    let (count, rest) = varint_of(bytes)?;
    if count > 1_048_576 {
        return Err(fault_at(left, WireKind::TooLarge));
    }
    let (contents, rest) = bytes_of(count, rest)?;
    met.count_units(left, contents.len())?;
    let contents = Items::from_slice(alloc, contents)?;
    Ok((PNode::Buffer(contents), rest))
}

// A node without items, behind its tag, at which `left` bytes are left.
#[tactic(auto, unfolding(crate::specs::Leaf::node_at))]
fn node_of<'a>(
    alloc: Global,
    tag: u8,
    met: &mut Met,
    left: usize,
    bytes: &'a [u8],
) -> Result<(PNode, &'a [u8]), Stop>
    ensures exact { Gives (λ x. (x.0, met.new, x.1.now)) result (node_at tag met.old left bytes.now) }
    ensures grows { OnOk result (length met.old.nodes ≤ length met.new.nodes) }
    ensures shorter { IfOk result (λ x. length x.1.now ≤ length bytes.now) }
{
    if tag == b'r' {
        let (node, rest) = error_of(alloc, met, bytes)?;
        return Ok((node, rest));
    }
    if tag == b'\\' {
        let (node, rest) = port_of(met, left, bytes)?;
        return Ok((node, rest));
    }
    let (node, rest) = buffer_of(alloc, met, left, bytes)?;
    Ok((node, rest))
}

// The same with its number, which it takes where a node more may be taken.
#[tactic(auto, unfolding(crate::specs::Leaf::placed_at))]
fn placed_of<'a>(
    alloc: Global,
    tag: u8,
    met: &mut Met,
    left: usize,
    bytes: &'a [u8],
) -> Result<(Item, &'a [u8]), Stop>
    ensures exact { Gives (λ x. (x.0, met.new, x.1.now)) result (placed_at tag met.old left bytes.now) }
    ensures grows { OnOk result (length met.old.nodes ≤ length met.new.nodes) }
    ensures shorter { IfOk result (λ x. length x.1.now ≤ length bytes.now) }
{
    if met.is_full() {
        match node_of(alloc, tag, met, left, bytes) {
            Ok(_) => return Err(fault_at(left, WireKind::TooLarge)),
            Err(found) => return Err(told_of(WireKind::TooLarge, left, found)),
        }
    }
    let (node, rest) = node_of(alloc, tag, met, left, bytes)?;
    let number = met.add_node(left, node)?;
    Ok((Item::Node(number), rest))
}

// A node that was met before.
#[tactic(auto, unfolding(crate::specs::Leaf::reference_at))]
fn reference_of<'a>(met: &Met, left: usize, bytes: &'a [u8]) -> Result<(Item, &'a [u8]), Stop>
    ensures exact { Gives (λ x. (x.0, met.now, x.1.now)) result (reference_at met.now left bytes.now) }
    ensures shorter { IfOk result (λ x. length x.1.now ≤ length bytes.now) }
{
    let (number, rest) = varint_of(bytes)?;
    if number as usize >= met.nodes.len() {
        return Err(fault_at(left, WireKind::Reference));
    }
    Ok((Item::Node(number), rest))
}

// A string, whose units count.
#[tactic(auto, unfolding(crate::specs::Leaf::counted_text_at))]
fn counted_text_of<'a>(
    alloc: Global,
    tag: u8,
    met: &mut Met,
    left: usize,
    bytes: &'a [u8],
) -> Result<(Item, &'a [u8]), Stop>
    ensures exact { Gives (λ x. (x.0, met.new, x.1.now)) result (counted_text_at tag met.old left bytes.now) }
    ensures grows { OnOk result (length met.old.nodes ≤ length met.new.nodes) }
    ensures shorter { IfOk result (λ x. length x.1.now ≤ length bytes.now) }
{
    let (text, rest) = string_of(alloc, tag, left, bytes)?;
    met.count_units(left, text.len())?;
    Ok((Item::Str(text), rest))
}

/// The value without items behind its tag, at which `left` bytes are left.
#[tactic(auto, unfolding(crate::specs::Leaf::leaf_at))]
pub(crate) fn leaf_of<'a>(
    alloc: Global,
    tag: u8,
    met: &mut Met,
    left: usize,
    bytes: &'a [u8],
) -> Result<(Item, &'a [u8]), Stop>
    ensures exact { Gives (λ x. (x.0, met.new, x.1.now)) result (leaf_at tag met.old left bytes.now) }
    ensures grows { OnOk result (length met.old.nodes ≤ length met.new.nodes) }
    ensures shorter { IfOk result (λ x. length x.1.now ≤ length bytes.now) }
{
    if tag == b'_' {
        return Ok((Item::Undefined, bytes));
    }
    if tag == b'0' {
        return Ok((Item::Null, bytes));
    }
    if tag == b'T' {
        return Ok((Item::Bool(true), bytes));
    }
    if tag == b'F' {
        return Ok((Item::Bool(false), bytes));
    }
    if is_number(tag) {
        let (number, rest) = number_of(tag, left, bytes)?;
        return Ok((Item::Num(number), rest));
    }
    if is_text(tag) {
        let (text, rest) = counted_text_of(alloc, tag, met, left, bytes)?;
        return Ok((text, rest));
    }
    if is_node(tag) {
        let (node, rest) = placed_of(alloc, tag, met, left, bytes)?;
        return Ok((node, rest));
    }
    if tag == b'^' {
        let (node, rest) = reference_of(met, left, bytes)?;
        return Ok((node, rest));
    }
    Err(fault_at(left, WireKind::Tag))
}

/// Why what stands behind a tag is refused there.
#[tactic(auto, unfolding(crate::specs::Leaf::refused))]
pub(crate) fn refusal(
    alloc: Global,
    kind: WireKind,
    tag: u8,
    met: &mut Met,
    left: usize,
    bytes: &[u8],
) -> Stop
    ensures { Fails {Y = Item} result (refused kind tag met.old left bytes.now) }
{
    if is_composite(tag) {
        return fault_at(left, kind);
    }
    match leaf_of(alloc, tag, met, left, bytes) {
        Ok(_) => fault_at(left, kind),
        Err(found) => told_of(kind, left, found),
    }
}
