//! The tokens of a script (ECMA-262, 12).
ghost use Rattle.std.specs.Prelude.{◌≡◌, ◌+◌, ◌*◌, ◌<◌, ◌≤◌, ◌∷◌, length, Ok, MatchResult, IfOk};
ghost use Rattle.js_token.specs.declared.token.LexFault.TheVariants.{Memory};
ghost use Rattle.js_token.specs.Reading.{Gives};
ghost use Rattle.js_token.specs.Nesting.{nest};
ghost use Rattle.js_token.specs.Tokens.{front, plain_at, piece_at, token_at, tokens_in, checked_text, tokens_of};

use crate::characters::{Placed, with_places};
use crate::gaps::gap_at;
use crate::literals::text_at;
use crate::mark;
use crate::marks::mark_at;
use crate::nesting::Nesting;
use crate::numbers::number_at;
use crate::token::{LexFault, LexKind, Token, TokenKind};
use crate::words::{is_word, name_at, starts_name};
use std::alloc::Global;
use wl_text::{TextFault, Units};

// The units as a text.
fn text_of(alloc: Global, units: Vec<u16>) -> Result<Units, LexFault>
    requires { length units.items ≤ 1_048_576 }
    ensures { MatchResult result (λ text. text ≡ units.items) (λ fault. fault ≡ Memory) }
{
    match Units::of_units(alloc, units.as_slice()) {
        Ok(text) => Ok(text),
        Err(TextFault::Memory) => Err(LexFault::Memory),
        Err(TextFault::TooLong) => unreachable!(),
    }
}

// A name, word, number, string or mark that begins with this character, and what stands behind it.
#[tactic(auto, unfolding(crate::specs::Tokens::plain_at))]
fn plain_at<'a>(
    alloc: Global,
    first: Placed,
    rest: &'a [Placed],
    chars: &'a [Placed],
) -> Result<(TokenKind, &'a [Placed]), LexFault>
    requires whole { chars.now ≡ first ∷ rest.now }
    requires size { length chars.now ≤ 262_144 }
    ensures exact { Gives (λ x. (x.0, x.1.now)) result (plain_at first rest.now) }
    ensures within { IfOk result (λ x. length x.1.now < length chars.now) }
{
    if starts_name(first.symbol) {
        let (units, behind) = name_at(alloc, first, rest)?;
        let word = is_word(units.as_slice());
        let text = text_of(alloc, units)?;
        let kind = if word {
            TokenKind::Word(text)
        } else {
            TokenKind::Name(text)
        };
        return Ok((kind, behind));
    }
    if let Some(digit) = first.symbol.to_digit(10) {
        let (value, behind) = number_at(first.place, digit, rest)?;
        return Ok((TokenKind::Number(value as i64), behind));
    }
    if first.symbol == '\'' || first.symbol == '"' {
        let (units, _, behind) = text_at(alloc, first.place, first.symbol, rest)?;
        let text = text_of(alloc, units)?;
        return Ok((TokenKind::Text(text), behind));
    }
    match mark_at(chars) {
        None => Err(LexFault::At {
            place: first.place,
            kind: LexKind::Char,
        }),
        Some((number, behind)) => Ok((TokenKind::Mark(number), behind)),
    }
}

// A stretch of the text of a template that starts at the place, and what stands behind it.
#[tactic(auto, unfolding(crate::specs::Tokens::piece_at))]
fn piece_at<'a>(
    alloc: Global,
    nesting: &mut Nesting,
    first: bool,
    start: u32,
    rest: &'a [Placed],
) -> Result<(TokenKind, &'a [Placed]), LexFault>
    requires size { length rest.now ≤ 262_144 }
    ensures exact { Gives (λ x. front x.0 (nest nesting.new) x.1.now) result (piece_at first start (nest nesting.old) rest.now) }
    ensures within { IfOk result (λ x. length x.1.now ≤ length rest.now) }
    ensures braces { nesting.new.braces ≡ nesting.old.braces }
{
    let outermost = nesting.outermost(start);
    let (units, last, behind) = text_at(alloc, outermost, '`', rest)?;
    let text = text_of(alloc, units)?;
    if !last {
        nesting.open_part(start)?;
    }
    Ok((TokenKind::Piece { text, first, last }, behind))
}

// The token that begins with this character, and what stands behind it.
#[tactic(auto, unfolding(crate::specs::Tokens::token_at))]
fn token_at<'a>(
    alloc: Global,
    nesting: &mut Nesting,
    first: Placed,
    rest: &'a [Placed],
    chars: &'a [Placed],
) -> Result<(TokenKind, &'a [Placed]), LexFault>
    requires whole { chars.now ≡ first ∷ rest.now }
    requires size { nesting.old.braces + length chars.now ≤ 262_144 }
    ensures exact { Gives (λ x. front x.0 (nest nesting.new) x.1.now) result (token_at (nest nesting.old) first rest.now) }
    ensures within { IfOk result (λ x. length x.1.now < length chars.now) }
    ensures braces { IfOk result (λ x. nesting.new.braces + length x.1.now ≤ nesting.old.braces + length chars.now) }
{
    if first.symbol == '`' {
        return piece_at(alloc, nesting, true, first.place, rest);
    }
    if first.symbol == '{' {
        nesting.open_brace();
        return Ok((TokenKind::Mark(mark::OPEN_BRACE), rest));
    }
    if first.symbol == '}' {
        return match nesting.close() {
            None => Ok((TokenKind::Mark(mark::CLOSE_BRACE), rest)),
            Some(start) => piece_at(alloc, nesting, false, start, rest),
        };
    }
    plain_at(alloc, first, rest, chars)
}

// The tokens of the characters, in a text that ends at the place.
#[tactic(auto, unfolding(crate::specs::Tokens::tokens_in))]
fn tokens_in(alloc: Global, end: u32, chars: &[Placed]) -> Result<Vec<Token>, LexFault>
    requires { length chars.now ≤ 262_144 }
    ensures { Gives (λ list. list.items) result (tokens_in end chars.now) }
{
    let mut list = Vec::new(alloc);
    let mut nesting = Nesting::new(alloc);
    let mut broken = false;
    let mut left = chars;
    'tokens: while let Some((first, rest)) = left.split_first() {
        let gap = match gap_at(left) {
            Ok(gap) => gap,
            Err(fault) => return Err(fault),
        };
        if let Some((breaks, behind)) = gap {
            broken |= breaks;
            left = behind;
            continue;
        }
        let (kind, behind) = match token_at(alloc, &mut nesting, *first, rest, left) {
            Ok(found) => found,
            Err(fault) => return Err(fault),
        };
        list.push(Token {
            place: first.place,
            broken,
            kind,
        })?;
        broken = false;
        left = behind;
    }
    if let Some(place) = nesting.open_template() {
        return Err(LexFault::At {
            place,
            kind: LexKind::Template,
        });
    }
    list.push(Token {
        place: end,
        broken,
        kind: TokenKind::End,
    })?;
    Ok(list)
}

// The text itself, where it is UTF-8 without a byte order mark.
#[tactic(auto, unfolding(crate::specs::Tokens::checked_text))]
fn checked_text(text: &[u8]) -> Result<&str, LexFault>
    requires { length text.now ≤ 262_144 }
    ensures exact { Gives (λ checked. checked.now) result (checked_text text.now) }
    ensures same { IfOk result (λ checked. checked.now ≡ text.now) }
{
    if text.starts_with(&[0xEF, 0xBB, 0xBF]) {
        return Err(LexFault::At {
            place: 0,
            kind: LexKind::Text,
        });
    }
    match str::from_utf8(text) {
        Ok(checked) => Ok(checked),
        Err(error) => Err(LexFault::At {
            place: error.valid_up_to() as u32,
            kind: LexKind::Text,
        }),
    }
}

/// The tokens of a script, or the first place at which it has none, from left to right as it is scanned (ECMA-262,
/// 12). The last token is the one `End`, at the length of the text. The cost is linear in the text.
///
/// The text has at most 262,144 bytes.
///
/// # Errors
///
/// `At` with the kind
/// - `Text` where the text is not UTF-8, at the length of its longest part in front that is, and at 0 for a byte order
///   mark;
/// - `Comment` for a block comment that is not ended, at its start;
/// - `Number` for a number above 2^53 - 1, or that a digit, a name's first character or `.` follows directly, at its
///   start;
/// - `Escape` for a wrong escape in a string or template, at its `\\`;
/// - `String` for a string that meets LF, CR or the end, at its start;
/// - `Template` for a template that is not ended, at the start of the outermost one;
/// - `Char` for any other character, at its place;
///
/// and `Memory` where memory runs out.
#[tactic(auto, unfolding(crate::specs::Tokens::tokens_of))]
pub fn tokens(alloc: Global, text: &[u8]) -> Result<Vec<Token>, LexFault>
    requires { length text.now ≤ 262_144 }
    ensures { Gives (λ list. list.items) result (tokens_of text.now) }
{
    let text = checked_text(text)?;
    let chars = with_places(alloc, text)?;
    tokens_in(alloc, text.len() as u32, chars.as_slice())
}
