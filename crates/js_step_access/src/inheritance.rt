//! Which objects are on a chain of prototypes (ECMA-262, 7.3.22: OrdinaryHasInstance).
ghost use Rattle.std.specs.Prelude.{◌≡◌, ℕ, length, nat_eq, Some};
ghost use Rattle.std.specs.Option.{option_and_then};
ghost use Rattle.world_heap.specs.Heaps.{proto_of};
ghost use Rattle.world_heap.specs.Maps.{find};
ghost use Rattle.js_semantics.specs.World.{World, over};
ghost use Rattle.js_semantics.specs.Properties.{object_of};
ghost use Rattle.js_semantics.specs.Expressions.{inherits, is_above};
ghost use Rattle.js_step_access.specs.Instances.{instance_in};

use js_machine::object_of;
use world_heap::{Cell, Heap, Loc, Value};

// The prototype of a cell.
fn cell_prototype(cell: &Cell) -> Option<Loc>
    ensures { result ≡ proto_of cell.now }
{
    match cell {
        Cell::Object { body } => body.proto,
        Cell::Array { proto, .. } => *proto,
        Cell::Closure { body, .. } => body.proto,
        Cell::Native { body, .. } => body.proto,
        Cell::Far { body, .. } => body.proto,
        Cell::Error { body, .. } => body.proto,
        Cell::Map { body, .. } => body.proto,
        Cell::Set { body, .. } => body.proto,
        Cell::Promise { body, .. } => body.proto,
        Cell::Port { body, .. } => body.proto,
        Cell::Buffer { body, .. } => body.proto,
        Cell::View { body, .. } => body.proto,
        Cell::Symbol { .. } => None,
        Cell::Env { .. } => None,
    }
}

// The prototype of what stands at a location.
fn prototype_at(heap: &Heap, loc: Loc) -> Option<Loc>
    ensures { result ≡ option_and_then proto_of (find nat_eq heap.now.cells loc) }
{
    match heap.get(loc) {
        Some(cell) => cell_prototype(cell),
        None => None,
    }
}

// Whether an object is on the chain of prototypes above another.
fn is_above(heap: &Heap, target: Loc, loc: Loc) -> bool
    ensures { (w : World ℕ) → result ≡ is_above (length heap.now.cells) target loc (over heap.now w) }
{
    let mut at = loc;
    let mut left = heap.len();
    'objects: while left > 0 {
        left -= 1;
        match prototype_at(heap, at) {
            Some(proto) => {
                if proto == target {
                    return true;
                }
                at = proto;
            }
            None => return false,
        }
    }
    false
}

// Whether an object is on the chain of prototypes above a value.
fn inherits(heap: &Heap, value: &Value, target: Loc) -> bool
    ensures { (w : World ℕ) → result ≡ inherits (object_of value.now (over heap.now w)) target (over heap.now w) }
{
    match object_of(heap, value) {
        Some(loc) => is_above(heap, target, loc),
        None => false,
    }
}

/// Whether the `prototype` of the right side of `instanceof` is on the chain of prototypes above the left one; `None` where
/// it is no object. It takes no memory, and its cost is linear in the chain.
pub fn instance_in(heap: &Heap, left: &Value, prototype: &Value) -> Option<bool>
    ensures { (w : World ℕ) → result ≡ instance_in left.now prototype.now (over heap.now w) }
{
    match object_of(heap, prototype) {
        Some(target) => Some(inherits(heap, left, target)),
        None => None,
    }
}
