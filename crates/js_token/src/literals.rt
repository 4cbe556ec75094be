//! The texts of strings and templates (ECMA-262, 12.9.4 and 12.9.6).
ghost use Rattle.std.specs.Prelude.{◌≡◌, ◌+◌, ◌*◌, ◌<◌, ◌≤◌, ◌++◌, length, OnOk, IfOk, IfSome, IsTrue};
ghost use Rattle.std.specs.Option.{option_map};
ghost use Rattle.js_token.specs.Reading.{Gives};
ghost use Rattle.js_token.specs.Literals.{after_feed, two_digits, four_digits, braced_code, unicode_code, single_escape, is_digit_next, escape_at, element_at, breaks_off, opens_part, unended, units_of_code, text_at};

use crate::characters::{Placed, is_digit, is_line_break, is_next};
use crate::numbers::{digits, is_hex_next};
use crate::token::{LexFault, LexKind};
use crate::words::push_code;
use std::alloc::{AllocError, Global};

// The greatest code point.
const LAST_CODE: u64 = 0x10FFFF;

// The characters behind a CR, without the LF that makes one line break with it.
fn after_feed(rest: &[Placed]) -> &[Placed]
    ensures value { result.now ≡ after_feed rest.now }
    ensures within { length result.now ≤ length rest.now }
{
    if is_next(rest, '\n') {
        &rest[1..]
    } else {
        rest
    }
}

// The value of two hexadecimal digits, and what stands behind them.
fn two_digits(chars: &[Placed]) -> Option<(u32, &[Placed])>
    ensures value { option_map (λ x. (x.0, x.1.now)) result ≡ two_digits chars.now }
    ensures within { IfSome result (λ x. (x.0 < 256) × (length x.1.now ≤ length chars.now)) }
{
    let (first, more) = chars.split_first()?;
    let (second, rest) = more.split_first()?;
    let high = first.symbol.to_digit(16)?;
    let low = second.symbol.to_digit(16)?;
    Some((high * 16 + low, rest))
}

// The value of four hexadecimal digits, and what stands behind them.
fn four_digits(chars: &[Placed]) -> Option<(u32, &[Placed])>
    ensures value { option_map (λ x. (x.0, x.1.now)) result ≡ four_digits chars.now }
    ensures within { IfSome result (λ x. (x.0 < 65536) × (length x.1.now ≤ length chars.now)) }
{
    let (high, more) = two_digits(chars)?;
    let (low, rest) = two_digits(more)?;
    Some((high * 256 + low, rest))
}

// A code point in braces, behind the opening one, and what stands behind them.
fn braced_code(chars: &[Placed]) -> Option<(u32, &[Placed])>
    ensures value { option_map (λ x. (x.0, x.1.now)) result ≡ braced_code chars.now }
    ensures within { IfSome result (λ x. (x.0 ≤ 0x10FFFF) × (length x.1.now ≤ length chars.now)) }
{
    if !is_hex_next(chars) {
        return None;
    }
    let (code, rest) = digits(16, 0, chars);
    if code > LAST_CODE || !is_next(rest, '}') {
        return None;
    }
    Some((code as u32, &rest[1..]))
}

// The code of an escape behind `\u`, and what stands behind it.
fn unicode_code(chars: &[Placed]) -> Option<(u32, &[Placed])>
    ensures value { option_map (λ x. (x.0, x.1.now)) result ≡ unicode_code chars.now }
    ensures within { IfSome result (λ x. (x.0 ≤ 0x10FFFF) × (length x.1.now ≤ length chars.now)) }
{
    if is_next(chars, '{') {
        return braced_code(&chars[1..]);
    }
    four_digits(chars)
}

// The character that stands for this one behind a `\`.
fn single_escape(c: char) -> char
    ensures { result ≡ single_escape c }
{
    match c {
        'n' => '\n',
        't' => '\t',
        'r' => '\r',
        'b' => '\u{8}',
        'f' => '\u{C}',
        'v' => '\u{B}',
        _ => c,
    }
}

// Whether the first character is a digit.
fn is_digit_next(chars: &[Placed]) -> bool
    ensures { result ≡ is_digit_next chars.now }
{
    match chars.split_first() {
        None => false,
        Some((first, _)) => is_digit(first.symbol),
    }
}

// The code point of the escape whose `\` stands at the place, if it gives one, and what stands behind it.
#[tactic(auto, unfolding(crate::specs::Literals::escape_at))]
fn escape_at(place: u32, chars: &[Placed]) -> Result<(Option<u32>, &[Placed]), LexFault>
    ensures exact { Gives (λ x. (x.0, x.1.now)) result (escape_at place chars.now) }
    ensures code { IfOk result (λ x. IfSome x.0 (λ code. code ≤ 0x10FFFF)) }
    ensures within { IfOk result (λ x. length x.1.now ≤ length chars.now) }
{
    let wrong = LexFault::At {
        place,
        kind: LexKind::Escape,
    };
    let Some((first, rest)) = chars.split_first() else {
        return Err(wrong);
    };
    let c = first.symbol;
    if c == 'x' {
        let (code, rest) = two_digits(rest).ok_or(wrong)?;
        return Ok((Some(code), rest));
    }
    if c == 'u' {
        let (code, rest) = unicode_code(rest).ok_or(wrong)?;
        return Ok((Some(code), rest));
    }
    if is_digit(c) {
        if c != '0' || is_digit_next(rest) {
            return Err(wrong);
        }
        return Ok((Some(0), rest));
    }
    if c == '\r' {
        return Ok((None, after_feed(rest)));
    }
    if is_line_break(c) {
        return Ok((None, rest));
    }
    Ok((Some(single_escape(c) as u32), rest))
}

// The code point of a character or an escape of a literal in such quotes, if it gives one, and what stands behind.
#[tactic(auto, unfolding(crate::specs::Literals::element_at))]
fn element_at<'a>(
    quote: char,
    first: Placed,
    rest: &'a [Placed],
) -> Result<(Option<u32>, &'a [Placed]), LexFault>
    ensures exact { Gives (λ x. (x.0, x.1.now)) result (element_at quote first rest.now) }
    ensures code { IfOk result (λ x. IfSome x.0 (λ code. code ≤ 0x10FFFF)) }
    ensures within { IfOk result (λ x. length x.1.now ≤ length rest.now) }
{
    if first.symbol == '\\' {
        return escape_at(first.place, rest);
    }
    if quote == '`' && first.symbol == '\r' {
        return Ok((Some('\n' as u32), after_feed(rest)));
    }
    Ok((Some(first.symbol as u32), rest))
}

// Whether a string, which is no template, breaks off at the character.
fn breaks_off(quote: char, c: char) -> bool
    ensures { result ≡ breaks_off quote c }
{
    quote != '`' && (c == '\n' || c == '\r')
}

// Whether a template's text ends here, at `${`.
fn opens_part(quote: char, c: char, rest: &[Placed]) -> bool
    ensures value { result ≡ opens_part quote c rest.now }
    ensures some { IsTrue result → 1 ≤ length rest.now }
{
    quote == '`' && c == '$' && is_next(rest, '{')
}

// The fault of a literal that is not ended.
fn unended(start: u32, quote: char) -> LexFault
    ensures { result ≡ unended start quote }
{
    let kind = if quote == '`' {
        LexKind::Template
    } else {
        LexKind::String
    };
    LexFault::At { place: start, kind }
}

// Puts the units of an element's code point at the end.
fn push_element(list: &mut Vec<u16>, code: Option<u32>) -> Result<(), AllocError>
    requires { IfSome code (λ code. code ≤ 0x10FFFF) }
    ensures { OnOk result (list.new.items ≡ list.old.items ++ units_of_code code) }
{
    if let Some(code) = code {
        push_code(list, code)?;
    }
    Ok(())
}

/// The text of a literal in such quotes behind its opening quote, or of a template behind the `}` of a part; whether
/// the closing quote ends it, as always in a string; and what stands behind. One that is not ended is at fault at
/// `start`, and a wrong escape at its `\`.
pub(crate) fn text_at<'a>(
    alloc: Global,
    start: u32,
    quote: char,
    chars: &'a [Placed],
) -> Result<(Vec<u16>, bool, &'a [Placed]), LexFault>
    ensures exact { Gives (λ x. (x.0.items, x.1, x.2.now)) result (text_at (length chars.now) start quote chars.now) }
    ensures within { IfOk result (λ x. length x.0.items + 2 * length x.2.now ≤ 2 * length chars.now) }
{
    let mut units = Vec::new(alloc);
    let mut left = chars;
    'text: while let Some((first, rest)) = left.split_first() {
        if first.symbol == quote {
            return Ok((units, true, rest));
        }
        if opens_part(quote, first.symbol, rest) {
            return Ok((units, false, &rest[1..]));
        }
        if breaks_off(quote, first.symbol) {
            return Err(unended(start, quote));
        }
        let (code, behind) = match element_at(quote, *first, rest) {
            Ok(found) => found,
            Err(fault) => return Err(fault),
        };
        push_element(&mut units, code)?;
        left = behind;
    }
    Err(unended(start, quote))
}
