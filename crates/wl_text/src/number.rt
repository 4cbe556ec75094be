//! Numbers written as texts.
ghost use Rattle.std.specs.Prelude.{◌≡◌, ◌≤ℤ◌, ◌≤◌, ◌<◌, ◌^◌, pos, negsuc, IfOk, IfSome, length};
ghost use Rattle.std.specs.Fmt.{signed_decimal};
ghost use Rattle.wl_text.specs.Number.{natural_of, number_of, index_of, leads_with_zero, IsIndexOf};

use crate::units::Units;
use std::alloc::{AllocError, Global};

/// The greatest whole number of a script, 2^53 - 1; the least is its negative (ECMA-262, 21.1.2.6).
const GREATEST: u64 = 9_007_199_254_740_991;

/// The greatest array index, 2^32 - 2 (ECMA-262, 6.1.7).
const GREATEST_INDEX: u64 = 4_294_967_294;

/// The decimal text of a number from -(2^53 - 1) to 2^53 - 1.
pub fn number_text(alloc: Global, n: i64) -> Result<Units, AllocError>
    requires low { negsuc 9_007_199_254_740_990 ≤ℤ n }
    requires high { n ≤ℤ pos 9_007_199_254_740_991 }
    ensures { IfOk result (λ text. text ≡ signed_decimal n) }
{
    let digits = n.to_string(alloc)?;
    let mut list = Vec::new(alloc);
    for byte in digits.as_bytes() {
        list.push(u16::from(*byte))?;
    }
    Units::from_short(alloc, list)
}

/// The number that the text is: an optional `-` and one or more decimal digits, leading zeros allowed. None exactly
/// where the text isn't of this form, or its value isn't from -(2^53 - 1) to 2^53 - 1.
#[tactic(auto, unfolding(crate::specs::Number::number_of))]
pub fn read_number(text: &Units) -> Option<i64>
    ensures { result ≡ number_of text.now }
{
    let units = text.as_slice();
    let (first, digits) = units.split_first()?;
    if *first == 45 {
        return match natural(digits, GREATEST) {
            Some(n) => Some(-(n as i64)),
            None => None,
        };
    }
    match natural(units, GREATEST) {
        Some(n) => Some(n as i64),
        None => None,
    }
}

/// The array index that the text is: the number n exactly where the text is the decimal text of n, without leading
/// zeros, and n is at most 2^32 - 2 (ECMA-262, 6.1.7).
pub fn index_of(text: &Units) -> Option<u32>
    ensures value { result ≡ index_of text.now }
    ensures law { IsIndexOf text.now result }
{
    let digits = text.as_slice();
    if is_zero_led(digits) {
        return None;
    }
    match natural(digits, GREATEST_INDEX) {
        Some(n) => Some(n as u32),
        None => None,
    }
}

// Whether a `0` has more behind it.
fn is_zero_led(digits: &[u16]) -> bool
    ensures { result ≡ leads_with_zero digits.now }
{
    match digits {
        [48, _, ..] => true,
        _ => false,
    }
}

// The number that one digit or more spell, up to a greatest one.
#[tactic(auto, using(crate::proofs::Numbers::natural_of_empty, crate::proofs::Numbers::natural_of_large, crate::proofs::Numbers::natural_of_not_digits, crate::proofs::Numbers::natural_of_digits))]
fn natural(digits: &[u16], most: u64) -> Option<u64>
    requires { most < 2 ^ 53 }
    ensures value { result ≡ natural_of most digits.now }
    ensures within { IfSome result (λ n. n ≤ most) }
{
    if digits.is_empty() {
        return None;
    }
    let mut value = 0u64;
    for digit in digits {
        if *digit < 48 || 57 < *digit {
            return None;
        }
        value = value * 10 + u64::from(*digit - 48);
        if most < value {
            return None;
        }
    }
    Some(value)
}
