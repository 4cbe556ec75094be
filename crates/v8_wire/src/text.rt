//! Strings, as they stand in the bytes.
ghost use Rattle.std.specs.Prelude.{◌≡◌, ◌+◌, ◌*◌, ◌<◌, ◌≤◌, length, IfOk};
ghost use Rattle.v8_wire.specs.Faults.{Gives};
ghost use Rattle.v8_wire.specs.Text.{pairs, bytes_at, narrow_at, wide_at, decoded, utf8_at, string_at};

use crate::fault::{Fault, Stop};
use crate::kind::WireKind;
use crate::number::varint_of;
use std::alloc::{AllocError, Global};
use std::str::from_utf8;
use wl_text::{TextFault, Units};

/// So many bytes, and what follows them.
pub(crate) fn bytes_of(count: u32, bytes: &[u8]) -> Result<(&[u8], &[u8]), Stop>
    ensures exact { Gives (λ x. (x.0.now, x.1.now)) result (bytes_at count bytes.now) }
    ensures shorter { IfOk result (λ x. length x.1.now ≤ length bytes.now) }
    ensures count { IfOk result (λ x. length x.0.now ≡ count) }
{
    let count = count as usize;
    if bytes.len() < count {
        return Err(Stop::At(Fault {
            left: 0,
            kind: WireKind::Cut,
        }));
    }
    Ok(bytes.split_at(count))
}

// The units as a text, at whose tag `left` bytes are left.
fn text_of(alloc: Global, units: &[u16]) -> Result<Units, AllocError>
    requires { length units.now ≤ 1_048_576 }
    ensures { IfOk result (λ text. text ≡ units.now) }
{
    match Units::of_units(alloc, units) {
        Ok(text) => Ok(text),
        Err(TextFault::Memory) => Err(AllocError),
        Err(TextFault::TooLong) => unreachable!(),
    }
}

// The units of little-endian pairs of bytes.
#[tactic(auto, unfolding(crate::specs::Text::pairs))]
fn pairs_of(alloc: Global, bytes: &[u8]) -> Result<Vec<u16>, AllocError>
    ensures { IfOk result (λ units. units.items ≡ pairs bytes.now) }
{
    let mut units = Vec::new(alloc);
    let mut rest = bytes;
    while let [low, high, after @ ..] = rest {
        units.push(u16::from(*low) + 256 * u16::from(*high))?;
        rest = after;
    }
    Ok(units)
}

// A string of one byte for each unit.
#[tactic(auto, unfolding(crate::specs::Text::narrow_at))]
fn narrow_of(alloc: Global, left: usize, bytes: &[u8]) -> Result<(Units, &[u8]), Stop>
    ensures exact { Gives (λ x. (x.0, x.1.now)) result (narrow_at left bytes.now) }
    ensures shorter { IfOk result (λ x. length x.1.now < length bytes.now) }
    ensures short { IfOk result (λ x. length x.0 ≤ 1_048_576) }
{
    let (count, rest) = varint_of(bytes)?;
    if count > 1_048_576 {
        return Err(Stop::At(Fault {
            left,
            kind: WireKind::TooLarge,
        }));
    }
    let (narrow, rest) = bytes_of(count, rest)?;
    let mut units = Vec::new(alloc);
    for byte in narrow {
        units.push(u16::from(*byte))?;
    }
    let text = text_of(alloc, &units)?;
    Ok((text, rest))
}

// A string of two bytes for each unit.
#[tactic(auto, unfolding(crate::specs::Text::wide_at))]
fn wide_of(alloc: Global, left: usize, bytes: &[u8]) -> Result<(Units, &[u8]), Stop>
    ensures exact { Gives (λ x. (x.0, x.1.now)) result (wide_at left bytes.now) }
    ensures shorter { IfOk result (λ x. length x.1.now < length bytes.now) }
    ensures short { IfOk result (λ x. length x.0 ≤ 1_048_576) }
{
    let (count, rest) = varint_of(bytes)?;
    if count % 2 == 1 {
        return Err(Stop::At(Fault {
            left,
            kind: WireKind::Text,
        }));
    }
    if count / 2 > 1_048_576 {
        return Err(Stop::At(Fault {
            left,
            kind: WireKind::TooLarge,
        }));
    }
    let (wide, rest) = bytes_of(count, rest)?;
    let units = pairs_of(alloc, wide)?;
    let text = text_of(alloc, &units)?;
    Ok((text, rest))
}

// The units of UTF-8 bytes, at whose tag `left` bytes are left.
#[tactic(auto, unfolding(crate::specs::Text::decoded))]
fn decode(alloc: Global, left: usize, bytes: &[u8]) -> Result<Units, Stop>
    ensures exact { Gives (λ x. x) result (decoded left bytes.now) }
    ensures short { IfOk result (λ x. length x ≤ 1_048_576) }
{
    let text = match from_utf8(bytes) {
        Ok(text) => text,
        Err(_) => {
            return Err(Stop::At(Fault {
                left,
                kind: WireKind::Text,
            }));
        }
    };
    match Units::of_text(alloc, text) {
        Ok(text) => Ok(text),
        Err(TextFault::TooLong) => Err(Stop::At(Fault {
            left,
            kind: WireKind::TooLarge,
        })),
        Err(TextFault::Memory) => Err(Stop::Memory),
    }
}

// A string in UTF-8.
#[tactic(auto, unfolding(crate::specs::Text::utf8_at))]
fn utf8_of(alloc: Global, left: usize, bytes: &[u8]) -> Result<(Units, &[u8]), Stop>
    ensures exact { Gives (λ x. (x.0, x.1.now)) result (utf8_at left bytes.now) }
    ensures shorter { IfOk result (λ x. length x.1.now < length bytes.now) }
    ensures short { IfOk result (λ x. length x.0 ≤ 1_048_576) }
{
    let (count, rest) = varint_of(bytes)?;
    let (spelled, rest) = bytes_of(count, rest)?;
    let text = decode(alloc, left, spelled)?;
    Ok((text, rest))
}

/// The string behind its tag, at which `left` bytes are left (V8's ReadString).
#[tactic(auto, unfolding(crate::specs::Text::string_at))]
pub(crate) fn string_of(
    alloc: Global,
    tag: u8,
    left: usize,
    bytes: &[u8],
) -> Result<(Units, &[u8]), Stop>
    ensures exact { Gives (λ x. (x.0, x.1.now)) result (string_at tag left bytes.now) }
    ensures shorter { IfOk result (λ x. length x.1.now < length bytes.now) }
    ensures short { IfOk result (λ x. length x.0 ≤ 1_048_576) }
{
    if tag == b'"' {
        return narrow_of(alloc, left, bytes);
    }
    if tag == b'c' {
        return wide_of(alloc, left, bytes);
    }
    utf8_of(alloc, left, bytes)
}
