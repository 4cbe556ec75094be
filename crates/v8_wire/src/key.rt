//! Keys of properties, and counts.
ghost use Rattle.std.specs.Prelude.{◌≡◌, ◌+◌, ◌<◌, ◌≤◌, length, IfOk, OnOk, IsTrue};
ghost use Rattle.wl_text.specs.Number.{index_of};
ghost use Rattle.v8_wire.specs.Faults.{Gives};
ghost use Rattle.v8_wire.specs.Contents.{count_at, is_new, index_key, text_key, new_key, may_be_index, key_at};

use crate::fault::{Stop, fault_at};
use crate::kind::WireKind;
use crate::leaf::{is_number, is_text, refusal};
use crate::met::Met;
use crate::number::{number_of, varint_of};
use crate::properties::Properties;
use crate::text::string_of;
use std::alloc::Global;
use wl_text::{Units, index_of, number_text};

/// What follows a count behind an end tag, at which `left` bytes are left, that has to be this one.
#[tactic(auto, unfolding(crate::specs::Contents::count_at))]
pub(crate) fn count_of(count: usize, left: usize, bytes: &[u8]) -> Result<&[u8], Stop>
    ensures exact { Gives (λ x. x.now) result (count_at count left bytes.now) }
    ensures shorter { IfOk result (λ x. length x.now ≤ length bytes.now) }
{
    let (number, rest) = varint_of(bytes)?;
    if number as usize != count {
        return Err(fault_at(left, WireKind::Count));
    }
    Ok(rest)
}

// The key that a number is, and the least array index that may come after it.
#[tactic(auto, unfolding(crate::specs::Contents::index_key))]
fn index_key_of(
    alloc: Global,
    least: Option<u32>,
    left: usize,
    number: i64,
) -> Result<(Units, Option<u32>), Stop>
    ensures exact { Gives (λ x. x) result (index_key least left number) }
{
    let least = match least {
        None => return Err(fault_at(left, WireKind::Key)),
        Some(least) => least,
    };
    if number < i64::from(least) || 4_294_967_294 < number {
        return Err(fault_at(left, WireKind::Key));
    }
    let text = number_text(alloc, number)?;
    Ok((text, Some(number as u32 + 1)))
}

// The key that a string is. No array index may come after it.
#[tactic(auto, unfolding(crate::specs::Contents::text_key))]
fn text_key_of(left: usize, text: Units) -> Result<(Units, Option<u32>), Stop>
    ensures exact { Gives (λ x. x) result (text_key left text) }
{
    if index_of(&text).is_some() {
        return Err(fault_at(left, WireKind::Key));
    }
    Ok((text, None))
}

/// Counts the units of a key that is new among the properties.
#[tactic(auto, unfolding(crate::specs::Contents::new_key))]
pub(crate) fn new_key_of(
    properties: &Properties,
    met: &mut Met,
    left: usize,
    key: &Units,
) -> Result<(), Stop>
    ensures exact { Gives (λ _. met.new) result (new_key properties.now met.old left key.now) }
    ensures nodes { OnOk result (met.new.nodes ≡ met.old.nodes) }
    ensures new { OnOk result (IsTrue (is_new key.now properties.now)) }
{
    if !properties.lacks(key) {
        return Err(fault_at(left, WireKind::Key));
    }
    met.count_units(left, key.len())?;
    Ok(())
}

// Whether the tag is that of a number, where an array index may still come.
#[tactic(auto, unfolding(crate::specs::Contents::may_be_index))]
fn may_be_index_of(tag: u8, least: Option<u32>) -> bool
    ensures { result ≡ may_be_index tag least }
{
    is_number(tag) && least.is_some()
}

/// The key behind its tag, and the least array index that may come after it.
#[tactic(auto, unfolding(crate::specs::Contents::key_at))]
pub(crate) fn key_of<'a>(
    alloc: Global,
    least: Option<u32>,
    tag: u8,
    met: &mut Met,
    left: usize,
    bytes: &'a [u8],
) -> Result<((Units, Option<u32>), &'a [u8]), Stop>
    ensures exact { Gives (λ x. (x.0, x.1.now)) result (key_at least tag met.old left bytes.now) }
    ensures same { OnOk result (met.new ≡ met.old) }
    ensures shorter { IfOk result (λ x. length x.1.now ≤ length bytes.now) }
{
    if may_be_index_of(tag, least) {
        let (number, rest) = number_of(tag, left, bytes)?;
        let key = index_key_of(alloc, least, left, number)?;
        return Ok((key, rest));
    }
    if is_text(tag) {
        let (text, rest) = string_of(alloc, tag, left, bytes)?;
        let key = text_key_of(left, text)?;
        return Ok((key, rest));
    }
    Err(refusal(alloc, WireKind::Key, tag, met, left, bytes))
}
