//! Views of buffers, and what stands where no item more may stand.
ghost use Rattle.std.specs.Prelude.{◌≡◌, ◌+◌, ◌<◌, ◌≤◌, length, slice_get, IfOk, OnOk};
ghost use Rattle.v8_wire.specs.Faults.{Gives, Fails};
ghost use Rattle.v8_wire.specs.Item.{buffer_size, flags_at, view_at, viewed_with, viewed_if, viewed_at, refused_at};
ghost use Rattle.parcel.specs.declared.parcel.Item.TheVariants.{Node as node_item};

use crate::fault::{Stop, fault_at};
use crate::kind::WireKind;
use crate::leaf::{refusal, skip_padding};
use crate::met::Met;
use crate::number::varint_of;
use parcel::{Item, PNode};
use std::alloc::Global;

// What follows the flags of a view, at whose tag `left` bytes are left.
#[tactic(auto, unfolding(crate::specs::Item::flags_at))]
fn skip_flags(flags: bool, left: usize, bytes: &[u8]) -> Result<&[u8], Stop>
    ensures exact { Gives (λ x. x.now) result (flags_at flags left bytes.now) }
    ensures shorter { IfOk result (λ x. length x.now ≤ length bytes.now) }
{
    if !flags {
        return Ok(bytes);
    }
    match bytes {
        [] => Err(fault_at(0, WireKind::Cut)),
        [0, rest @ ..] => Ok(rest),
        _ => Err(fault_at(left, WireKind::View)),
    }
}

// A view behind its tag, at which `left` bytes are left, of a buffer of this number and size.
#[tactic(auto, unfolding(crate::specs::Item::view_at))]
fn view_of<'a>(
    buffer: u32,
    size: usize,
    met: &mut Met,
    left: usize,
    bytes: &'a [u8],
) -> Result<(Item, &'a [u8]), Stop>
    ensures exact { Gives (λ x. (x.0, met.new, x.1.now)) result (view_at buffer size met.old left bytes.now) }
    ensures grows { OnOk result (length met.old.nodes ≤ length met.new.nodes) }
    ensures shorter { IfOk result (λ x. length x.1.now ≤ length bytes.now) }
{
    if met.is_full() {
        return Err(fault_at(left, WireKind::TooLarge));
    }
    let rest = match bytes {
        [] => return Err(fault_at(0, WireKind::Cut)),
        [b'B', rest @ ..] => rest,
        _ => return Err(fault_at(left, WireKind::View)),
    };
    let (offset, rest) = varint_of(rest)?;
    let (length, rest) = varint_of(rest)?;
    if size < offset as usize + length as usize {
        return Err(fault_at(left, WireKind::View));
    }
    let rest = skip_flags(met.flags, left, rest)?;
    let view = PNode::View {
        buffer,
        offset,
        length,
    };
    let number = met.add_node(left, view)?;
    Ok((Item::Node(number), rest))
}

// The size of the buffer that has this number, if it is one.
fn size_of_buffer(met: &Met, number: u32) -> Option<usize>
    ensures { result ≡ buffer_size (slice_get met.now.nodes number) }
{
    match met.nodes.get(number as usize) {
        Some(PNode::Buffer(contents)) => Some(contents.len()),
        _ => None,
    }
}

/// The item, or the view that stands behind it where it is a buffer (V8's ReadJSArrayBufferView).
#[tactic(auto, unfolding(crate::specs::Item::viewed_at, crate::specs::Item::viewed_with))]
pub(crate) fn viewed_of<'a>(
    item: Item,
    met: &mut Met,
    bytes: &'a [u8],
) -> Result<(Item, &'a [u8]), Stop>
    ensures exact { Gives (λ x. (x.0, met.new, x.1.now)) result (viewed_at item met.old bytes.now) }
    ensures grows { OnOk result (length met.old.nodes ≤ length met.new.nodes) }
    ensures shorter { IfOk result (λ x. length x.1.now ≤ length bytes.now) }
{
    let number = match item {
        Item::Node(number) => number,
        other => return Ok((other, bytes)),
    };
    let size = match size_of_buffer(met, number) {
        None => return Ok((Item::Node(number), bytes)),
        Some(size) => size,
    };
    let rest = skip_padding(bytes);
    match rest {
        [b'V', after @ ..] => {
            let (view, after) = view_of(number, size, met, rest.len(), after)?;
            Ok((view, after))
        }
        _ => Ok((Item::Node(number), bytes)),
    }
}

/// Why what stands in front is refused where no item more may stand.
#[tactic(auto, unfolding(crate::specs::Item::refused_at))]
pub(crate) fn refused_of(alloc: Global, met: &mut Met, bytes: &[u8]) -> Stop
    ensures { Fails result (refused_at met.old bytes.now) }
{
    match bytes.split_first() {
        None => fault_at(0, WireKind::Cut),
        Some((tag, rest)) => refusal(alloc, WireKind::TooLarge, *tag, met, bytes.len(), rest),
    }
}
