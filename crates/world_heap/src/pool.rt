//! The cells of all worlds in one pool, and a heap away from it.
ghost use Rattle.std.specs.Prelude.{◌≡◌, ℕ, [], length, sum_by};
ghost use Rattle.world_heap.specs.Maps.{keys};
ghost use Rattle.world_heap.specs.Shelf.{values_of};
ghost use Rattle.world_heap.specs.Stored.{IsDistinct};
ghost use Rattle.world_heap.specs.Views.{PoolView, SeatView};

use crate::cell::Cell;
use crate::limits::{Counts, Limits};
use crate::store::Store;
use std::alloc::Global;
use std::marker::Model;

/// The heaps of all worlds, seen as the list of the owner numbers, each with its cells, and as the count of owner
/// numbers that were given out. No location stands in two of them.
#[derive(Drop)]
pub struct Pool {
    pub(crate) store: Store<Cell>,
    pub(crate) given: u32,
}

impl Model for Pool {
    ghost use Rattle.world_heap.specs.Views.{PoolView, IsPooled};

    ghost Value = { PoolView };

    ghost view = { λ pool. record { maps = pool.store; given = pool.given } };

    ghost invariant = { λ pool. IsPooled pool.store pool.given };
}

impl Pool {
    /// A pool without heaps. It takes no memory.
    pub fn new(alloc: Global) -> Pool
        ensures { result ≡ record { maps = []; given = 0 } }
    {
        Pool {
            store: Store::new(alloc),
            given: 0,
        }
    }

    /// How many slots are filled: the cells of all heaps.
    pub fn filled(&self) -> u64
        ensures { result ≡ sum_by (λ m. length m.1) self.now.maps }
    {
        self.store.filled() as u64
    }

    /// No two cells of a heap have one location: a law. It does nothing.
    pub fn distinct(&self)
        ensures { (owner : ℕ) → IsDistinct (keys (values_of self.now.maps owner)) }
    {
        self.store.distinct();
    }
}

/// A heap without its pool: its owner number, and its counts, limits and number of built-in cells.
#[derive(Drop)]
pub struct Seat {
    pub(crate) owner: u32,
    pub(crate) limits: Limits,
    pub(crate) counts: Counts,
    pub(crate) base: u64,
}

impl Model for Seat {
    ghost use Rattle.world_heap.specs.Views.{SeatView, IsCounted};
    ghost use Rattle.world_heap.specs.Bounded.{bounds_of};

    ghost Value = { SeatView };

    ghost view = { λ seat. record { owner = seat.owner; counts = seat.counts; limits = bounds_of seat.limits; base = seat.base } };

    ghost invariant = { λ seat. IsCounted seat.counts (bounds_of seat.limits) seat.base };
}
