//! The realm of a world, and its first state.
ghost use Rattle.std.specs.Prelude.{◌≡◌, ◌^◌, ◌-◌, ◌<◌, ◌≤◌, ℕ, IfOk, List, length, nat_eq};
ghost use Rattle.js_tree.specs.declared.node.Node as tree_node;
ghost use Rattle.world_heap.specs.Bounded.{bounds_of};
ghost use Rattle.world_heap.specs.Heaps.{IsWell};
ghost use Rattle.world_heap.specs.Starting.{empty_heap, with_built_in};
ghost use Rattle.js_semantics.specs.Alone.{alone_by};
ghost use Rattle.js_semantics.specs.Run.{Arrival};
ghost use Rattle.js_machine.specs.Closed.{HasRealm, IsClosed};
ghost use Rattle.js_machine.specs.Does.{Follows, IsFresh, IsRealm, to_come};

use crate::bare::bare_realm;
use crate::filling::fill_realm;
use crate::places::{cell_places, with_distinct_places};
use js_machine::State;
use std::alloc::{AllocError, Global};
use world_heap::{Heap, Limits, Pool};
use world_kind::WorldKind;

/// A new heap in the pool, under the next unused owner number, with the built-in cells of a kind of world alone
/// (ECMA-262, 9.3.1: CreateRealm; 9.3.2: CreateIntrinsics). Its counts are 0. Where memory runs out the pool is gone.
///
/// Fewer than 2^32-1 owner numbers were given out, and at most 31 heaps stand in the pool.
///
/// # Errors
/// `AllocError` where memory runs out.
pub fn new_realm(
    alloc: Global,
    limits: Limits,
    kind: WorldKind,
    pool: Pool,
) -> Result<Heap, AllocError>
    requires given { pool.given < 2 ^ 32 - 1 }
    requires room { length pool.maps ≤ 31 }
    ensures realm { IfOk result (λ heap. (supply : ℕ → ℕ) → Follows supply 0 heap.cells → IsRealm supply kind heap) }
    ensures rest { IfOk result (λ heap. heap ≡ with_built_in (empty_heap (bounds_of limits) pool) heap.cells) }
    ensures well { IfOk result (λ heap. IsWell nat_eq heap.cells) }
    ensures stands { IfOk result (λ heap. HasRealm kind heap.cells) }
{
    let mut heap = with_distinct_places(bare_realm(alloc, limits, kind, pool)?);
    let places = cell_places(alloc, &heap)?;
    fill_realm(alloc, &mut heap, &places, kind)?;
    Ok(heap)
}

/// The state of a world of a kind in which nothing has happened: over its realm, in a pool. Whatever script it loads,
/// what is to come is what such a world makes alone. All that the state holds fits its heap, whatever nodes the script has.
/// Where memory runs out the pool is gone.
///
/// Fewer than 2^32-1 owner numbers were given out, and at most 31 heaps stand in the pool.
///
/// # Errors
/// `AllocError` where memory runs out.
pub fn first_state(
    alloc: Global,
    limits: Limits,
    kind: WorldKind,
    pool: Pool,
) -> Result<State, AllocError>
    requires given { pool.given < 2 ^ 32 - 1 }
    requires room { length pool.maps ≤ 31 }
    ensures fresh { IfOk result (λ state. IsFresh kind (with_built_in (empty_heap (bounds_of limits) pool) state.heap.cells) state) }
    ensures traces { (nodes : List tree_node.Node) (supply : ℕ → ℕ) (ds : List Arrival) → IfOk result (λ state. Follows supply 0 state.heap.cells
        → to_come nodes supply state ds ≡ alone_by supply (record { kind = kind; limits = bounds_of limits; tree = nodes }) ds) }
    ensures closed { (nodes : List tree_node.Node) → IfOk result (λ state. IsClosed nodes state) }
{
    let heap = new_realm(alloc, limits, kind, pool)?;
    Ok(State::new(alloc, heap, kind))
}
