//! Objects and symbols at locations (ECMA-262, 6.1.5 and 6.1.7).
ghost use Rattle.std.specs.Prelude.{◌≡◌, ℕ, nat_eq, Some};
ghost use Rattle.world_heap.specs.Maps.{find};
ghost use Rattle.js_semantics.specs.World.{World, over};
ghost use Rattle.js_semantics.specs.Properties.{is_symbol, object_of};

use world_heap::{Cell, Heap, Loc, Value};

/// Whether a cell is a symbol, which is no object.
pub fn is_symbol(cell: &Cell) -> bool
    ensures { result ≡ is_symbol (Some cell.now) }
{
    matches!(cell, Cell::Symbol { .. })
}

/// Whether a symbol stands at a location.
pub fn is_symbol_at(heap: &Heap, loc: Loc) -> bool
    ensures { result ≡ is_symbol (find nat_eq heap.now.cells loc) }
{
    match heap.get(loc) {
        Some(cell) => is_symbol(cell),
        None => false,
    }
}

/// The location of the object that a value is; a symbol is none.
pub fn object_of(heap: &Heap, value: &Value) -> Option<Loc>
    ensures { (w : World ℕ) → result ≡ object_of value.now (over heap.now w) }
{
    match value {
        Value::Ref(loc) => {
            if is_symbol_at(heap, *loc) {
                None
            } else {
                Some(*loc)
            }
        }
        _ => None,
    }
}
