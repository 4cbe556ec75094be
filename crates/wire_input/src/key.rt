//! The classes of keys, by which array indices stand in ascending order before the names.
ghost use Rattle.std.specs.Prelude.{◌≡◌, ◌<◌, ◌≤◌, ◌^◌, is_some, IfSome};
ghost use Rattle.wl_text.specs.Number.{index_of, leads_with_zero, natural_of};
ghost use Rattle.wire_input.specs.Input.{class_of};

/// The greatest array index (ECMA-262, 6.1.7).
const GREATEST_INDEX: u64 = 4_294_967_294;

/// The class of the keys that are no array indices.
pub(crate) const NAMES: usize = 11;

/// The class of a key: the length of an array index, 11 of a name.
pub(crate) fn class_of(key: &[u8]) -> usize
    ensures { result ≡ class_of key.now }
{
    if is_index(key) {
        return key.len();
    }
    NAMES
}

// Whether the key is an array index.
#[tactic(auto, unfolding(wl_text::specs::Number::index_of))]
fn is_index(key: &[u8]) -> bool
    ensures { result ≡ is_some (index_of key.now) }
{
    if is_zero_led(key) {
        return false;
    }
    natural(key, GREATEST_INDEX).is_some()
}

// Whether a `0` has more behind it.
fn is_zero_led(digits: &[u8]) -> bool
    ensures { result ≡ leads_with_zero digits.now }
{
    match digits {
        [48, _, ..] => true,
        _ => false,
    }
}

// The number that one digit or more spell, up to a greatest one.
#[tactic(auto, using(wl_text::proofs::Numbers::natural_of_empty, wl_text::proofs::Numbers::natural_of_large, wl_text::proofs::Numbers::natural_of_not_digits, wl_text::proofs::Numbers::natural_of_digits))]
fn natural(digits: &[u8], most: u64) -> Option<u64>
    requires { most < 2 ^ 53 }
    ensures value { result ≡ natural_of most digits.now }
    ensures within { IfSome result (λ n. n ≤ most) }
{
    if digits.is_empty() {
        return None;
    }
    let mut value = 0u64;
    for digit in digits {
        if *digit < 48 || 57 < *digit {
            return None;
        }
        value = value * 10 + u64::from(*digit - 48);
        if most < value {
            return None;
        }
    }
    Some(value)
}
