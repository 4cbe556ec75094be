//! Numbers and strings, into bytes.
ghost use Rattle.std.specs.Prelude.{◌≡◌, ◌+◌, ◌-◌, ◌*◌, ◌%◌, ◌==◌, ◌<◌, ◌≤◌, ◌^◌, ◌++◌, ◌∷◌, [], length, IsTrue, OnOk};
ghost use Rattle.v8_wire.specs.Spelling.{groups, varint, zigzag, doubled, magnitude_word, double_word, is_short, number, is_narrow, pair, wide, string, key, kind_tag, error, reference, buffer};
ghost use Rattle.std.specs.List.{flat_map};

use parcel::ErrorKind;
use std::alloc::{AllocError, Global};
use wl_text::{Units, index_of};

// Writes groups of seven bits, so many at most behind the first.
#[tactic(auto, unfolding(crate::specs::Spelling::groups))]
fn put_groups(out: &mut Vec<u8>, more: u32, number: usize) -> Result<(), AllocError>
    ensures { OnOk result (out.new.items ≡ out.old.items ++ groups more number) }
{
    if more == 0 {
        out.push((number % 128) as u8)?;
        return Ok(());
    }
    if number < 128 {
        out.push(number as u8)?;
        return Ok(());
    }
    out.push((number % 128 + 128) as u8)?;
    put_groups(out, more - 1, number / 128)?;
    Ok(())
}

/// Writes a number below 2^32 (V8's WriteVarint).
#[tactic(auto, unfolding(crate::specs::Spelling::varint))]
pub(crate) fn put_varint(out: &mut Vec<u8>, number: usize) -> Result<(), AllocError>
    ensures { OnOk result (out.new.items ≡ out.old.items ++ varint number) }
{
    put_groups(out, 4, number)?;
    Ok(())
}

// A number of 32 bits in zigzag.
fn zigzag_of(number: i64) -> usize
    requires { IsTrue (is_short number) }
    ensures { result ≡ zigzag number }
{
    if number < 0 {
        (-(number + 1)) as usize * 2 + 1
    } else {
        number as usize * 2
    }
}

// Whether a number has 32 bits.
fn is_short_of(number: i64) -> bool
    ensures { result ≡ is_short number }
{
    -2_147_483_648 <= number && number < 2_147_483_648
}

// A number doubled until it has 53 bits, at most so many times, and how often.
#[tactic(auto, unfolding(crate::specs::Spelling::doubled))]
fn doubled_of(more: u32, number: u64) -> (u64, u64)
    requires { number ≤ 2 ^ 63 }
    ensures exact { result ≡ doubled more number }
    ensures small { result.0 ≤ 2 ^ 63 }
    ensures few { result.1 ≤ more }
{
    if more == 0 || number >= 4_503_599_627_370_496 {
        return (number, 0);
    }
    let (significand, times) = doubled_of(more - 1, 2 * number);
    (significand, times + 1)
}

// The exponent and the fraction of a whole number as a double.
#[tactic(auto, unfolding(crate::specs::Spelling::magnitude_word))]
fn magnitude_word_of(magnitude: u64) -> u64
    requires { magnitude ≤ 2 ^ 63 }
    ensures { result ≡ magnitude_word magnitude }
{
    let (significand, times) = doubled_of(52, magnitude);
    let fraction = significand.saturating_sub(4_503_599_627_370_496);
    (1075 - times) * 4_503_599_627_370_496 + fraction
}

// The double of a number.
#[tactic(auto, unfolding(crate::specs::Spelling::double_word))]
fn double_word_of(number: i64) -> u64
    ensures { result ≡ double_word number }
{
    let word = magnitude_word_of(number.unsigned_abs()) % 9_223_372_036_854_775_808;
    if number < 0 {
        word + 9_223_372_036_854_775_808
    } else {
        word
    }
}

/// Writes a number (V8's WriteSmi and WriteHeapNumber).
#[tactic(auto, unfolding(crate::specs::Spelling::number))]
pub(crate) fn put_number(out: &mut Vec<u8>, value: i64) -> Result<(), AllocError>
    ensures { OnOk result (out.new.items ≡ out.old.items ++ number value) }
{
    if is_short_of(value) {
        out.push(b'I')?;
        put_varint(out, zigzag_of(value))?;
        return Ok(());
    }
    out.push(b'N')?;
    out.extend_from_slice(&double_word_of(value).to_le_bytes())?;
    Ok(())
}

// Whether each unit is one byte.
fn is_narrow_of(text: &[u16]) -> bool
    ensures { result ≡ is_narrow text.now }
{
    text.iter().all(|unit| *unit < 256)
}

// Writes the units as pairs of bytes.
fn put_pairs(out: &mut Vec<u8>, text: &[u16]) -> Result<(), AllocError>
    ensures { OnOk result (out.new.items ≡ out.old.items ++ flat_map pair text.now) }
{
    for unit in text {
        out.push((*unit % 256) as u8)?;
        out.push((*unit / 256) as u8)?;
    }
    Ok(())
}

// Writes the units as bytes.
fn put_narrow(out: &mut Vec<u8>, text: &[u16]) -> Result<(), AllocError>
    requires { IsTrue (is_narrow text.now) }
    ensures { OnOk result (out.new.items ≡ out.old.items ++ text.now) }
{
    for unit in text {
        out.push((*unit % 256) as u8)?;
    }
    Ok(())
}

// Whether a count of so many bytes, behind a tag, would end at an odd place.
fn is_odd(at: usize, count: usize) -> bool
    ensures { result ≡ ((at + 1 + count) % 2 == 1) }
{
    (at % 2 + 1 + count % 2) % 2 == 1
}

// Writes a string with two bytes for each unit, which stand at an even place.
#[tactic(auto, unfolding(crate::specs::Spelling::string))]
fn put_wide(alloc: Global, out: &mut Vec<u8>, text: &[u16]) -> Result<(), AllocError>
    requires { length text.now ≤ 1_048_576 }
    ensures { OnOk result (out.new.items ≡ out.old.items ++ wide (length out.old.items) text.now) }
{
    let mut count = Vec::new(alloc);
    put_varint(&mut count, 2 * text.len())?;
    if is_odd(out.len(), count.len()) {
        out.push(0)?;
    }
    out.push(b'c')?;
    out.extend_from_slice(&count)?;
    put_pairs(out, text)?;
    Ok(())
}

/// Writes a string (V8's WriteString).
#[tactic(auto, unfolding(crate::specs::Spelling::string))]
pub(crate) fn put_string(alloc: Global, out: &mut Vec<u8>, text: &Units) -> Result<(), AllocError>
    ensures { OnOk result (out.new.items ≡ out.old.items ++ string (length out.old.items) text.now) }
{
    let units = text.as_slice();
    if is_narrow_of(units) {
        out.push(b'"')?;
        put_varint(out, units.len())?;
        put_narrow(out, units)?;
        return Ok(());
    }
    put_wide(alloc, out, units)?;
    Ok(())
}

/// Writes the key of a property: an array index as a number, another one as a string (V8's WriteJSObject).
#[tactic(auto, unfolding(crate::specs::Spelling::key))]
pub(crate) fn put_key(alloc: Global, out: &mut Vec<u8>, text: &Units) -> Result<(), AllocError>
    ensures { OnOk result (out.new.items ≡ out.old.items ++ key (length out.old.items) text.now) }
{
    match index_of(text) {
        Some(index) => put_number(out, i64::from(index))?,
        None => put_string(alloc, out, text)?,
    }
    Ok(())
}

// Writes the kind's byte of an error.
fn put_kind(out: &mut Vec<u8>, kind: ErrorKind) -> Result<(), AllocError>
    ensures { OnOk result (out.new.items ≡ out.old.items ++ kind_tag kind) }
{
    match kind {
        ErrorKind::Error => {}
        ErrorKind::EvalError => out.push(b'E')?,
        ErrorKind::RangeError => out.push(b'R')?,
        ErrorKind::ReferenceError => out.push(b'F')?,
        ErrorKind::SyntaxError => out.push(b'S')?,
        ErrorKind::TypeError => out.push(b'T')?,
        ErrorKind::URIError => out.push(b'U')?,
    }
    Ok(())
}

/// Writes an error (V8's WriteJSError).
#[tactic(auto, unfolding(crate::specs::Spelling::error))]
pub(crate) fn put_error(
    alloc: Global,
    out: &mut Vec<u8>,
    kind: ErrorKind,
    message: &Option<Units>,
) -> Result<(), AllocError>
    ensures { OnOk result (out.new.items ≡ error kind message.now out.old.items) }
{
    out.push(b'r')?;
    put_kind(out, kind)?;
    if let Some(message) = message {
        out.push(b'm')?;
        put_string(alloc, out, message)?;
    }
    out.push(b'.')?;
    Ok(())
}

/// Writes a buffer (V8's WriteJSArrayBuffer).
pub(crate) fn put_buffer_bytes(out: &mut Vec<u8>, contents: &[u8]) -> Result<(), AllocError>
    ensures { OnOk result (out.new.items ≡ out.old.items ++ buffer contents.now) }
{
    out.push(b'B')?;
    put_varint(out, contents.len())?;
    out.extend_from_slice(contents)?;
    Ok(())
}

/// Writes the number of a node that was met before.
pub(crate) fn put_reference(out: &mut Vec<u8>, node: usize) -> Result<(), AllocError>
    ensures { OnOk result (out.new.items ≡ out.old.items ++ reference node) }
{
    out.push(b'^')?;
    put_varint(out, node)?;
    Ok(())
}
