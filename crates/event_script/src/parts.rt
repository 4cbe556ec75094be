//! The parts of a line.
ghost use Rattle.std.specs.Prelude.{◌≡◌, ◌≤◌, None, Some, length, MatchOption, IfOk, IfSome};
ghost use Rattle.std.specs.List.{list_all, before_first, after_first};
ghost use Rattle.wl_text.specs.Text.{units_of};
ghost use Rattle.event_script.specs.Allowed.{IsWindow, IsWorld, IsAllowed};
ghost use Rattle.event_script.specs.Lines.{cut, window, process, is_digit, count_from, count, world, is_space, is_name_byte, is_event_name, event, effect, is_silent, line_of};

use crate::line::LineKind;
use std::alloc::{AllocError, Global};
use std::str;
use wl_text::{TextFault, Units};
use world_kind::WorldKind;

// The parts before and after the first space.
#[tactic(auto, unfolding(crate::specs::Lines::cut))]
fn cut(text: &str) -> Option<(&str, &str)>
    ensures { MatchOption result (cut text.now ≡ None) (λ parts. (cut text.now ≡ Some (parts.0.now, parts.1.now))
        × (length parts.0.now ≤ length text.now) × (length parts.1.now ≤ length text.now)) }
{
    text.split_once(' ')
}

// The number of a window.
fn window(text: &[u8]) -> Option<u32>
    ensures value { result ≡ window text.now }
    ensures allowed { IfSome result IsWindow }
{
    match text {
        [digit] if b'1' <= *digit && *digit <= b'8' => Some(u32::from(*digit - b'0')),
        _ => None,
    }
}

// The number of a process.
#[tactic(auto, unfolding(crate::specs::Lines::process))]
fn process(text: &[u8]) -> Option<u32>
    ensures value { result ≡ process text.now }
    ensures allowed { IfSome result (λ number. number ≤ 8) }
{
    if text == b"main".as_slice() {
        Some(0)
    } else {
        window(text)
    }
}

fn is_digit(byte: u8) -> bool
    ensures { result ≡ is_digit byte }
{
    b'0' <= byte && byte <= b'9'
}

// A number that stays within 10,000.
fn count_of(text: &[u8]) -> Option<u32>
    ensures value { result ≡ count_from 0 text.now }
    ensures allowed { IfSome result (λ count. count ≤ 10000) }
{
    let mut count = 0;
    'digits: for digit in text {
        if !is_digit(*digit) {
            return None;
        }
        count = count * 10 + u32::from(*digit - b'0');
        if count > 10_000 {
            return None;
        }
    }
    Some(count)
}

// A number from 0 to 10,000 without leading zeros.
#[tactic(auto, unfolding(crate::specs::Lines::count))]
fn count(text: &[u8]) -> Option<u32>
    ensures value { result ≡ count text.now }
    ensures allowed { IfSome result (λ count. count ≤ 10000) }
{
    match text {
        [] | [b'0', _, ..] => None,
        _ => count_of(text),
    }
}

// A world, as its kind and its window.
#[tactic(auto, unfolding(crate::specs::Lines::world))]
fn world(text: &[u8]) -> Option<(WorldKind, u32)>
    ensures value { result ≡ world text.now }
    ensures allowed { IfSome result (λ at. IsWorld at.0 at.1) }
{
    if text == b"main".as_slice() {
        return Some((WorldKind::Main, 0));
    }
    if let Some(number) = text.strip_prefix(b"preload") {
        return Some((WorldKind::Preload, window(number)?));
    }
    let number = text.strip_prefix(b"page")?;
    Some((WorldKind::Page, window(number)?))
}

fn is_name_byte(byte: u8) -> bool
    ensures { result ≡ is_name_byte byte }
{
    (b'a' <= byte && byte <= b'z') || is_digit(byte) || byte == b'-'
}

fn are_name_bytes(name: &[u8]) -> bool
    ensures { result ≡ list_all is_name_byte name.now }
{
    name.iter().all(|byte| is_name_byte(*byte))
}

// Whether an event may have that name.
#[tactic(auto, unfolding(crate::specs::Lines::is_event_name))]
fn is_event_name(name: &[u8]) -> bool
    ensures { result ≡ is_event_name name.now }
{
    0 < name.len() && name.len() <= 32 && are_name_bytes(name) && name != b"message".as_slice()
}

// The units of a text that is short enough.
fn units(alloc: Global, text: &str) -> Result<Units, AllocError>
    requires { length text.now ≤ 1_048_576 }
    ensures { IfOk result (λ units. units ≡ units_of text.now) }
{
    match Units::of_text(alloc, text) {
        Ok(units) => Ok(units),
        Err(TextFault::Memory) => Err(AllocError),
        Err(TextFault::TooLong) => unreachable!(),
    }
}

// A name, and the text after it.
fn name_and_text(text: &str) -> (&str, &str)
    ensures name { result.0.now ≡ before_first is_space text.now }
    ensures text { result.1.now ≡ after_first is_space text.now }
    ensures name_length { length result.0.now ≤ length text.now }
    ensures text_length { length result.1.now ≤ length text.now }
{
    match text.split_once(' ') {
        Some(parts) => parts,
        None => (text, ""),
    }
}

// An event of a world.
#[tactic(auto, unfolding(crate::specs::Lines::event))]
fn event(alloc: Global, text: &str) -> Result<Option<LineKind>, AllocError>
    requires { length text.now ≤ 1_048_576 }
    ensures value { IfOk result (λ found. found ≡ event text.now) }
    ensures allowed { IfOk result (λ found. IfSome found IsAllowed) }
{
    let Some((place, rest)) = cut(text) else {
        return Ok(None);
    };
    let Some((kind, window)) = world(place.as_bytes()) else {
        return Ok(None);
    };
    let (name, text) = name_and_text(rest);
    if !is_event_name(name.as_bytes()) {
        return Ok(None);
    }
    let name = units(alloc, name)?;
    let text = units(alloc, text)?;
    Ok(Some(LineKind::Event {
        kind,
        window,
        name,
        text,
    }))
}

// What a line with an effect does.
#[tactic(auto, unfolding(crate::specs::Lines::effect))]
fn effect(alloc: Global, line: &str) -> Result<Option<LineKind>, AllocError>
    requires { length line.now ≤ 1_048_576 }
    ensures value { IfOk result (λ found. found ≡ effect line.now) }
    ensures allowed { IfOk result (λ found. IfSome found IsAllowed) }
{
    let Some((word, rest)) = cut(line) else {
        return Ok(None);
    };
    if word == "step" {
        return Ok(process(rest.as_bytes()).map(LineKind::Step));
    }
    if word == "drain" {
        return Ok(count(rest.as_bytes()).map(LineKind::Drain));
    }
    if word == "event" {
        let found = event(alloc, rest)?;
        return Ok(found);
    }
    if word == "reload" {
        return Ok(window(rest.as_bytes()).map(LineKind::Reload));
    }
    if word == "close" {
        return Ok(window(rest.as_bytes()).map(LineKind::Close));
    }
    Ok(None)
}

// Whether a line is empty or a comment.
fn is_silent(line: &[u8]) -> bool
    ensures { result ≡ is_silent line.now }
{
    matches!(line, [] | [b'#', ..])
}

/// What a line does: `None` for a wrong one, `Some(None)` for one without effect.
pub fn line_of(alloc: Global, line: &[u8]) -> Result<Option<Option<LineKind>>, AllocError>
    requires { length line.now ≤ 1_048_576 }
    ensures value { IfOk result (λ found. found ≡ line_of line.now) }
    ensures allowed { IfOk result (λ found. IfSome found (λ effect. IfSome effect IsAllowed)) }
{
    let Ok(line) = str::from_utf8(line) else {
        return Ok(None);
    };
    if is_silent(line.as_bytes()) {
        return Ok(Some(None));
    }
    match effect(alloc, line)? {
        Some(what) => Ok(Some(Some(what))),
        None => Ok(None),
    }
}
