//! Own properties of a cell (ECMA-262, 10.1.5, 10.4.2 and 10.4.5).
ghost use Rattle.std.specs.Prelude.{◌≡◌, codes, nat_eq};
ghost use Rattle.std.specs.Cmp.Lexicographic.{pointwise};
ghost use Rattle.proto_props.specs.Own.{is_length, onward, look};

use wl_text::{Units, index_of};
use world_heap::{Cell, Loc, body};

/// What is seen at one object of a chain of prototypes: the property is its own; or the search ends there without one,
/// at an index past the end of a view, or since there is no prototype; or it goes on with the prototype.
#[derive(Debug, Drop, Clone, Copy)]
pub enum Look<L = Loc> {
    Own,
    Past,
    End,
    Next(L),
}

// The search goes on with the prototype, where there is one.
fn with_proto(proto: Option<Loc>) -> Look
    ensures { result ≡ onward proto }
{
    match proto {
        Some(proto) => Look::Next(proto),
        None => Look::End,
    }
}

// The text `length`.
const LENGTH: [u16; 6] = [108, 101, 110, 103, 116, 104];

/// Whether the key is `length`.
pub fn names_length(key: &Units) -> bool
    ensures { result ≡ is_length key.now }
{
    key.as_slice() == LENGTH.as_slice()
}

/// What is seen of the key at a cell.
pub fn seen(cell: &Cell, key: &Units) -> Look
    ensures { result ≡ look cell.now key.now }
{
    match cell {
        Cell::Array { proto, items, .. } => {
            if names_length(key) {
                return Look::Own;
            }
            match index_of(key) {
                Some(index) if (index as usize) < items.len() => Look::Own,
                _ => with_proto(*proto),
            }
        }
        Cell::View { body, length, .. } => match index_of(key) {
            Some(index) if index < *length => Look::Own,
            Some(_) => Look::Past,
            None if body.properties.get(key).is_some() => Look::Own,
            None => with_proto(body.proto),
        },
        other => match body(other) {
            Some(body) if body.properties.get(key).is_some() => Look::Own,
            Some(body) => with_proto(body.proto),
            None => Look::End,
        },
    }
}
