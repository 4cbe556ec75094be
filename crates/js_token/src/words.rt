//! Names and reserved words (ECMA-262, 12.7).
ghost use Rattle.std.specs.Prelude.{◌≡◌, ◌+◌, ◌*◌, ◌<◌, ◌≤◌, ◌++◌, length, nat_eq, IfOk, IfSome, OnOk};
ghost use Rattle.std.specs.Option.{option_map};
ghost use Rattle.std.specs.Char.Utf16.{utf16_chars, is_high_surrogate, is_low_surrogate};
ghost use Rattle.std.specs.Char.Escape.{encode_utf16};
ghost use Rattle.std.specs.Cmp.Lexicographic.{pointwise};
ghost use Rattle.js_token.specs.Words.{starts_name, continues_name, is_word, name_at, character_at, continue_name, are_of_name, is_name};

use crate::characters::Placed;
use std::alloc::{AllocError, Global};
use wl_text::Units;

/// The reserved words of strict code, and `await`.
const WORDS: [&str; 46] = [
    "await",
    "break",
    "case",
    "catch",
    "class",
    "const",
    "continue",
    "debugger",
    "default",
    "delete",
    "do",
    "else",
    "enum",
    "export",
    "extends",
    "false",
    "finally",
    "for",
    "function",
    "if",
    "implements",
    "import",
    "in",
    "instanceof",
    "interface",
    "let",
    "new",
    "null",
    "package",
    "private",
    "protected",
    "public",
    "return",
    "static",
    "super",
    "switch",
    "this",
    "throw",
    "true",
    "try",
    "typeof",
    "var",
    "void",
    "while",
    "with",
    "yield",
];

/// Whether a name may begin with the character.
#[tactic(auto, unfolding(crate::specs::Words::starts_name))]
pub(crate) fn starts_name(c: char) -> bool
    ensures { result ≡ starts_name c }
{
    c == '$' || c == '_' || unicode_ident::is_xid_start(c)
}

/// Whether a name may go on with the character.
#[tactic(auto, unfolding(crate::specs::Words::continues_name))]
pub(crate) fn continues_name(c: char) -> bool
    ensures { result ≡ continues_name c }
{
    c == '$' || unicode_ident::is_xid_continue(c)
}

// Whether the units are those of the word.
fn is_spelled(word: &str, units: &[u16]) -> bool
    ensures { result ≡ pointwise nat_eq word.now units.now }
{
    let mut letters = word.as_bytes();
    let mut rest = units;
    'letters: while let Some((letter, more_letters)) = letters.split_first() {
        let Some((unit, more)) = rest.split_first() else {
            return false;
        };
        if u16::from(*letter) != *unit {
            return false;
        }
        letters = more_letters;
        rest = more;
    }
    rest.is_empty()
}

/// Whether the units are those of a reserved word.
#[tactic(auto, unfolding(crate::specs::Words::is_word))]
pub(crate) fn is_word(units: &[u16]) -> bool
    ensures { result ≡ is_word units.now }
{
    WORDS.iter().any(|word| is_spelled(word, units))
}

/// Puts the units of a code point at the end.
pub(crate) fn push_code(list: &mut Vec<u16>, code: u32) -> Result<(), AllocError>
    requires { code ≤ 0x10FFFF }
    ensures { OnOk result (list.new.items ≡ list.old.items ++ encode_utf16 code) }
{
    if code < 0x1_0000 {
        list.push(code as u16)?;
        return Ok(());
    }
    let above = code - 0x1_0000;
    list.push((0xD800 + above / 0x400) as u16)?;
    list.push((0xDC00 + above % 0x400) as u16)?;
    Ok(())
}

/// The units of the name that begins with this character, and what stands behind it.
pub(crate) fn name_at<'a>(
    alloc: Global,
    first: Placed,
    rest: &'a [Placed],
) -> Result<(Vec<u16>, &'a [Placed]), AllocError>
    ensures exact { IfOk result (λ x. (x.0.items, x.1.now) ≡ name_at first rest.now) }
    ensures size { IfOk result (λ x. length x.0.items + 2 * length x.1.now ≤ 2 + 2 * length rest.now) }
    ensures within { IfOk result (λ x. length x.1.now ≤ length rest.now) }
{
    let mut units = Vec::new(alloc);
    push_code(&mut units, first.symbol as u32)?;
    let mut left = rest;
    'name: while let Some((next, behind)) = left.split_first() {
        if !continues_name(next.symbol) {
            return Ok((units, left));
        }
        push_code(&mut units, next.symbol as u32)?;
        left = behind;
    }
    Ok((units, left))
}

// The character in front of UTF-16 units, if it is no surrogate without a partner, and the units behind it.
fn character_at(unit: u16, rest: &[u16]) -> Option<(char, &[u16])>
    ensures value { option_map (λ x. (x.0, x.1.now)) result ≡ character_at unit rest.now }
    ensures within { IfSome result (λ x. length x.1.now ≤ length rest.now) }
{
    if !is_high_surrogate(unit) {
        let c = char::from_u32(u32::from(unit))?;
        return Some((c, rest));
    }
    let (low, behind) = rest.split_first()?;
    if !is_low_surrogate(*low) {
        return None;
    }
    let code = 0x1_0000 + (u32::from(unit) - 0xD800) * 0x400 + (u32::from(*low) - 0xDC00);
    let c = char::from_u32(code)?;
    Some((c, behind))
}

// Whether the unit is the first of a pair.
fn is_high_surrogate(unit: u16) -> bool
    ensures { result ≡ is_high_surrogate unit }
{
    0xD800 <= unit && unit < 0xDC00
}

// Whether the unit is the second of a pair.
fn is_low_surrogate(unit: u16) -> bool
    ensures { result ≡ is_low_surrogate unit }
{
    0xDC00 <= unit && unit < 0xE000
}

// Whether a name may go on with the characters of these units.
fn continue_name(units: &[u16]) -> bool
    ensures { result ≡ continue_name (utf16_chars units.now) }
{
    let mut left = units;
    'name: while let Some((unit, rest)) = left.split_first() {
        let Some((c, behind)) = character_at(*unit, rest) else {
            return false;
        };
        if !continues_name(c) {
            return false;
        }
        left = behind;
    }
    true
}

// Whether the characters of these units are those of a name or a word.
fn are_of_name(units: &[u16]) -> bool
    ensures { result ≡ are_of_name (utf16_chars units.now) }
{
    let Some((unit, rest)) = units.split_first() else {
        return false;
    };
    let Some((c, behind)) = character_at(*unit, rest) else {
        return false;
    };
    starts_name(c) && continue_name(behind)
}

/// Whether the text is a name, and no reserved word (ECMA-262, 12.7). A surrogate without a partner stands in no name.
/// The cost is linear in the text; no memory is taken.
#[tactic(auto, unfolding(crate::specs::Words::is_name))]
pub fn is_name(text: &Units) -> bool
    ensures { result ≡ is_name text.now }
{
    let units = text.as_slice();
    are_of_name(units) && !is_word(units)
}
