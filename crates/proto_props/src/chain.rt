//! The search along a chain of prototypes (ECMA-262, 10.1.7 and 10.1.8).
ghost use Rattle.std.specs.Prelude.{◌≡◌, length, nat_eq};
ghost use Rattle.world_heap.specs.Heaps.{IsCell};
ghost use Rattle.proto_props.specs.Chains.{search, holder};
ghost use Rattle.proto_props.specs.Standing.{ReachStands};

use crate::own::{Look, seen};
use wl_text::Units;
use world_heap::{Heap, Loc};

/// Where a search along a chain of prototypes ends: at an object that has the property, at an index past the end of a
/// view, or with the chain.
#[derive(Debug, Drop, Clone, Copy)]
pub enum Reach<L = Loc> {
    Has(L),
    Past,
    Nowhere,
}

/// Where the search for a key from a location on ends. It takes no memory.
pub fn search_from(heap: &Heap, loc: Loc, key: &Units) -> Reach
    requires { IsCell nat_eq heap.now.cells loc }
    ensures is { result ≡ search nat_eq heap.now.cells key.now (length heap.now.cells) loc }
    ensures stands { ReachStands heap.now.cells result }
{
    let mut at = loc;
    let mut left = heap.len();
    'objects: while left > 0 {
        left -= 1;
        match seen(heap.cell(at), key) {
            Look::Own => return Reach::Has(at),
            Look::Past => return Reach::Past,
            Look::End => return Reach::Nowhere,
            Look::Next(proto) => at = proto,
        }
    }
    Reach::Nowhere
}

/// The first object of the chain of prototypes from a location on that has the key as its own. It takes no memory, and
/// its cost is linear in the chain.
pub fn find(heap: &Heap, loc: Loc, key: &Units) -> Option<Loc>
    requires { IsCell nat_eq heap.now.cells loc }
    ensures { result ≡ holder (search nat_eq heap.now.cells key.now (length heap.now.cells) loc) }
{
    match search_from(heap, loc, key) {
        Reach::Has(at) => Some(at),
        Reach::Past | Reach::Nowhere => None,
    }
}
