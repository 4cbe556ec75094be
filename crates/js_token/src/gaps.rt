//! White space, line breaks and comments (ECMA-262, 12.2 to 12.4).
ghost use Rattle.std.specs.Prelude.{◌≡◌, ◌==◌, ◌&&◌, ◌<◌, ◌≤◌, length, IsTrue, IfOk, IfSome};
ghost use Rattle.js_token.specs.Characters.{is_next};
ghost use Rattle.std.specs.Option.{option_map};
ghost use Rattle.js_token.specs.Reading.{Gives};
ghost use Rattle.js_token.specs.Gaps.{after_line, after_block, gap_at};

use crate::characters::{Placed, is_blank, is_line_break, is_next};
use crate::token::{LexFault, LexKind};

// What is left of a line comment: the line break and what follows.
fn after_line(chars: &[Placed]) -> &[Placed]
    ensures value { result.now ≡ after_line chars.now }
    ensures within { length result.now ≤ length chars.now }
{
    let mut left = chars;
    'line: while let Some((first, rest)) = left.split_first() {
        if is_line_break(first.symbol) {
            return left;
        }
        left = rest;
    }
    left
}

// Whether a block comment ends with this character and the next.
fn is_block_end(first: Placed, rest: &[Placed]) -> bool
    ensures value { result ≡ ((first.symbol == 42) && is_next 47 rest.now) }
    ensures some { IsTrue result → 1 ≤ length rest.now }
{
    first.symbol == '*' && is_next(rest, '/')
}

// A block comment behind its opening: whether it holds a line break, and what stands behind it.
fn after_block(chars: &[Placed]) -> Option<(bool, &[Placed])>
    ensures value { option_map (λ x. (x.0, x.1.now)) result ≡ after_block chars.now }
    ensures within { IfSome result (λ x. length x.1.now ≤ length chars.now) }
{
    let mut breaks = false;
    let mut left = chars;
    'block: while let Some((first, rest)) = left.split_first() {
        if is_block_end(*first, rest) {
            return Some((breaks, &rest[1..]));
        }
        breaks |= is_line_break(first.symbol);
        left = rest;
    }
    None
}

/// What stands between tokens at the front, if anything does: a blank or a comment. Whether it holds a line break,
/// and what stands behind it. A block comment that is not ended is at fault.
#[tactic(auto, unfolding(crate::specs::Gaps::gap_at))]
pub(crate) fn gap_at(chars: &[Placed]) -> Result<Option<(bool, &[Placed])>, LexFault>
    ensures exact { Gives (λ gap. option_map (λ x. (x.0, x.1.now)) gap) result (gap_at chars.now) }
    ensures within { IfOk result (λ gap. IfSome gap (λ x. length x.1.now < length chars.now)) }
{
    let Some((first, rest)) = chars.split_first() else {
        return Ok(None);
    };
    if is_blank(first.symbol) {
        return Ok(Some((is_line_break(first.symbol), rest)));
    }
    if first.symbol != '/' {
        return Ok(None);
    }
    if is_next(rest, '/') {
        return Ok(Some((false, after_line(rest))));
    }
    if is_next(rest, '*') {
        return match after_block(&rest[1..]) {
            None => Err(LexFault::At {
                place: first.place,
                kind: LexKind::Comment,
            }),
            Some(found) => Ok(Some(found)),
        };
    }
    Ok(None)
}
