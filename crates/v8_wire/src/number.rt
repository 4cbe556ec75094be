//! Numbers, as they stand in the bytes.
ghost use Rattle.std.specs.Prelude.{◌≡◌, ◌+◌, ◌*◌, ◌/◌, ◌%◌, ◌^◌, ◌<◌, ◌≤◌, ◌≤ℤ◌, pos, negsuc, length, IfOk, IfSome};
ghost use Rattle.v8_wire.specs.Faults.{Gives};
ghost use Rattle.v8_wire.specs.Number.{groups_at, varint_at, unzigzag, magnitude_of, whole_of, double_at, number_at, bound};

use crate::fault::{Fault, Stop};
use crate::kind::WireKind;

// The groups of a number. At its first byte `left` bytes were left, and so many groups may follow the one in front.
#[tactic(auto, unfolding(crate::specs::Number::groups_at, crate::specs::Number::bound))]
fn groups_of(left: usize, more: u32, bytes: &[u8]) -> Result<(u32, &[u8]), Stop>
    requires { more ≤ 4 }
    ensures exact { Gives (λ x. (x.0, x.1.now)) result (groups_at left more bytes.now) }
    ensures small { IfOk result (λ x. x.0 < bound more) }
    ensures shorter { IfOk result (λ x. length x.1.now < length bytes.now) }
{
    let (byte, rest) = match bytes.split_first() {
        None => {
            return Err(Stop::At(Fault {
                left: 0,
                kind: WireKind::Cut,
            }));
        }
        Some(split) => split,
    };
    if more == 0 {
        if *byte < 16 {
            return Ok((u32::from(*byte), rest));
        }
        return Err(Stop::At(Fault {
            left,
            kind: WireKind::Varint,
        }));
    }
    if *byte < 128 {
        return Ok((u32::from(*byte), rest));
    }
    let (high, rest) = groups_of(left, more - 1, rest)?;
    Ok((u32::from(*byte) - 128 + 128 * high, rest))
}

/// The number of at most five bytes in front (V8's ReadVarint).
#[tactic(auto, unfolding(crate::specs::Number::varint_at))]
pub(crate) fn varint_of(bytes: &[u8]) -> Result<(u32, &[u8]), Stop>
    ensures exact { Gives (λ x. (x.0, x.1.now)) result (varint_at bytes.now) }
    ensures shorter { IfOk result (λ x. length x.1.now < length bytes.now) }
{
    let (number, rest) = groups_of(bytes.len(), 4, bytes)?;
    Ok((number, rest))
}

// The signed number of 32 bits that a zigzag number stands for.
fn unzigzag_of(n: u32) -> i64
    ensures { result ≡ unzigzag n }
{
    if n % 2 == 0 {
        i64::from(n / 2)
    } else {
        -1 - i64::from(n / 2)
    }
}

// The whole number of a double without its sign.
#[tactic(auto, unfolding(crate::specs::Number::magnitude_of))]
fn magnitude(word: u64) -> Option<u64>
    requires { word < 2 ^ 63 }
    ensures exact { result ≡ magnitude_of word }
    ensures small { IfSome result (λ n. n < 2 ^ 53) }
{
    if word == 0 {
        return Some(0);
    }
    let exponent = word / 4_503_599_627_370_496;
    if exponent < 1023 || 1075 < exponent {
        return None;
    }
    let significand = word % 4_503_599_627_370_496 + 4_503_599_627_370_496;
    let unit = 1u64 << (1075 - exponent);
    if significand % unit != 0 {
        return None;
    }
    Some(significand / unit)
}

// The whole number of a double.
#[tactic(auto, unfolding(crate::specs::Number::whole_of))]
fn whole(word: u64) -> Option<i64>
    ensures exact { result ≡ whole_of word }
{
    match magnitude(word % 9_223_372_036_854_775_808) {
        None => None,
        Some(magnitude) => {
            let magnitude = magnitude as i64;
            if word < 9_223_372_036_854_775_808 {
                Some(magnitude)
            } else {
                Some(-magnitude)
            }
        }
    }
}

// The whole number of the double in front, whose tag has `left` bytes.
#[tactic(auto, unfolding(crate::specs::Number::double_at))]
fn double_of(left: usize, bytes: &[u8]) -> Result<(i64, &[u8]), Stop>
    ensures exact { Gives (λ x. (x.0, x.1.now)) result (double_at left bytes.now) }
    ensures shorter { IfOk result (λ x. length x.1.now < length bytes.now) }
{
    if bytes.len() < 8 {
        return Err(Stop::At(Fault {
            left: 0,
            kind: WireKind::Cut,
        }));
    }
    let (front, rest) = bytes.split_at(8);
    let word = u64::from_le_bytes([
        front[0], front[1], front[2], front[3], front[4], front[5], front[6], front[7],
    ]);
    match whole(word) {
        None => Err(Stop::At(Fault {
            left,
            kind: WireKind::Number,
        })),
        Some(number) => Ok((number, rest)),
    }
}

/// The number behind its tag, at which `left` bytes are left.
#[tactic(auto, unfolding(crate::specs::Number::number_at))]
pub(crate) fn number_of(tag: u8, left: usize, bytes: &[u8]) -> Result<(i64, &[u8]), Stop>
    ensures exact { Gives (λ x. (x.0, x.1.now)) result (number_at tag left bytes.now) }
    ensures shorter { IfOk result (λ x. length x.1.now < length bytes.now) }
{
    if tag == b'I' {
        let (number, rest) = varint_of(bytes)?;
        return Ok((unzigzag_of(number), rest));
    }
    if tag == b'U' {
        let (number, rest) = varint_of(bytes)?;
        return Ok((i64::from(number), rest));
    }
    let (number, rest) = double_of(left, bytes)?;
    Ok((number, rest))
}
