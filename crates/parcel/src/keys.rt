//! Property keys in their order (ECMA-262, 10.1.11 OrdinaryOwnPropertyKeys).
ghost use Rattle.std.specs.Prelude.{◌≡◌, ◌<◌, ◌≤◌, true, map, nat_eq, IfSome, IsTrue};
ghost use Rattle.std.specs.Cmp.Lexicographic.{pointwise};
ghost use Rattle.std.specs.List.{list_any};
ghost use Rattle.parcel.specs.Keys.{index_after, may_come, are_in_order, are_distinct, are_keys};

use crate::parcel::Item;
use wl_text::{Units, index_of};

/// Whether the properties' keys are distinct and in the order of properties.
///
/// The names among the keys are compared in pairs: memory is not taken, so the cost grows with the square of their number.
pub(crate) fn are_keys(properties: &[(Units, Item)]) -> bool
    ensures { result ≡ are_keys (map (λ property. property.0) properties.now) }
{
    are_in_order(properties) && are_distinct(properties)
}

// Whether array indices come first, ascending.
#[tactic(auto, unfolding(crate::specs::Keys::are_in_order))]
fn are_in_order(properties: &[(Units, Item)]) -> bool
    ensures { result ≡ are_in_order (Some 0) (map (λ property. property.0) properties.now) }
{
    let mut least = Some(0);
    'keys: for (key, _) in properties {
        let index = index_of(key);
        if !may_come(least, index) {
            return false;
        }
        least = index_after(index);
    }
    true
}

// Whether a key may come, where an index may not be below the least one.
fn may_come(least: Option<u32>, index: Option<u32>) -> bool
    ensures { result ≡ may_come least index }
{
    match (least, index) {
        (_, None) => true,
        (None, Some(_)) => false,
        (Some(least), Some(index)) => least <= index,
    }
}

// The least index that may come behind a key.
fn index_after(index: Option<u32>) -> Option<u32>
    requires { IfSome index (λ index. index ≤ 4_294_967_294) }
    ensures { result ≡ index_after index }
{
    match index {
        None => None,
        Some(index) => Some(index + 1),
    }
}

// Whether no key stands twice.
#[tactic(auto, unfolding(crate::specs::Keys::are_distinct))]
fn are_distinct(properties: &[(Units, Item)]) -> bool
    ensures { result ≡ are_distinct (map (λ property. property.0) properties.now) }
{
    let mut rest = properties;
    'keys: while let Some(((key, _), more)) = rest.split_first() {
        if stands_in(key, more) {
            return false;
        }
        rest = more;
    }
    true
}

// Whether the key is one of the properties' keys.
fn stands_in(key: &Units, properties: &[(Units, Item)]) -> bool
    ensures { result ≡ list_any (pointwise nat_eq key.now) (map (λ property. property.0) properties.now) }
{
    'keys: for (other, _) in properties {
        if key == other {
            return true;
        }
    }
    false
}
