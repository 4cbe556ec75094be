//! Number literals (ECMA-262, 12.9.3), as far as scripts use them: whole numbers, decimal or hexadecimal.
ghost use Rattle.std.specs.Prelude.{◌≡◌, ◌<◌, ◌≤◌, length, min, IfOk};
ghost use Rattle.js_token.specs.Reading.{Gives};
ghost use Rattle.js_token.specs.Numbers.{digits, is_hex_next, is_number_going_on, value_at, number_at};

use crate::characters::{Placed, is_digit, is_hex_digit, is_next};
use crate::token::{LexFault, LexKind};
use crate::words::starts_name;

/// One more than the greatest number of a script, which is 2^53 - 1.
const TOO_LARGE: u64 = 9_007_199_254_740_992;

/// The value of the digits at the front in this base, behind digits of this value, or a number that is too large
/// where it is; and what stands behind them.
pub(crate) fn digits(base: u32, value: u64, chars: &[Placed]) -> (u64, &[Placed])
    requires low { 2 ≤ base }
    requires high { base ≤ 16 }
    requires small { value ≤ 9_007_199_254_740_992 }
    ensures value { result.0 ≡ min 9_007_199_254_740_992 (digits base value chars.now).0 }
    ensures rest { result.1.now ≡ (digits base value chars.now).1 }
    ensures within { length result.1.now ≤ length chars.now }
{
    let mut sum = value;
    let mut left = chars;
    'digits: while let Some((first, rest)) = left.split_first() {
        let Some(digit) = first.symbol.to_digit(base) else {
            return (sum, left);
        };
        sum = TOO_LARGE.min(sum * u64::from(base) + u64::from(digit));
        left = rest;
    }
    (sum, left)
}

/// Whether the first character is a hexadecimal digit.
pub(crate) fn is_hex_next(chars: &[Placed]) -> bool
    ensures { result ≡ is_hex_next chars.now }
{
    match chars.split_first() {
        None => false,
        Some((first, _)) => is_hex_digit(first.symbol),
    }
}

// Whether what stands behind a number is nothing that may not: a digit, a name's first character or `.`.
fn is_number_going_on(chars: &[Placed]) -> bool
    ensures { result ≡ is_number_going_on chars.now }
{
    match chars.split_first() {
        None => false,
        Some((first, _)) => {
            is_digit(first.symbol) || starts_name(first.symbol) || first.symbol == '.'
        }
    }
}

// The value of a number behind its first digit, or a number that is too large where it is; and what stands behind it.
fn value_at(digit: u32, rest: &[Placed]) -> (u64, &[Placed])
    requires { digit < 10 }
    ensures value { result.0 ≡ min 9_007_199_254_740_992 (value_at digit rest.now).0 }
    ensures rest { result.1.now ≡ (value_at digit rest.now).1 }
    ensures within { length result.1.now ≤ length rest.now }
{
    if digit != 0 {
        return digits(10, u64::from(digit), rest);
    }
    if is_next(rest, 'x') && is_hex_next(&rest[1..]) {
        return digits(16, 0, &rest[1..]);
    }
    (0, rest)
}

/// The number at the place behind its first digit, and what stands behind it. One that is larger than 2^53 - 1, or
/// that a digit, a name's first character or `.` follows directly, is at fault.
#[tactic(auto, unfolding(crate::specs::Numbers::number_at))]
pub(crate) fn number_at(
    place: u32,
    digit: u32,
    rest: &[Placed],
) -> Result<(u64, &[Placed]), LexFault>
    requires { digit < 10 }
    ensures exact { Gives (λ x. (x.0, x.1.now)) result (number_at place digit rest.now) }
    ensures range { IfOk result (λ x. x.0 ≤ 9_007_199_254_740_991) }
    ensures within { IfOk result (λ x. length x.1.now ≤ length rest.now) }
{
    let (value, behind) = value_at(digit, rest);
    if value == TOO_LARGE || is_number_going_on(behind) {
        return Err(LexFault::At {
            place,
            kind: LexKind::Number,
        });
    }
    Ok((value, behind))
}
