//! The heap of a world, over a pool.
ghost use Rattle.std.specs.Prelude.{◌≡◌, ℕ, ◌+◌, ◌-◌, ◌^◌, ◌<◌, ◌≤◌, ◌∷◌, [], List, Some, None, false, MatchOption, OnOk, OnErr, IfOk, IfSome, length, slice_get, nat_eq};
ghost use Rattle.world_heap.specs.Maps.{keys, find, put, without, stands, Stands};
ghost use Rattle.world_heap.specs.Shelf.{values_of};
ghost use Rattle.world_heap.specs.Over.{OptionOver, ValueOver};
ghost use Rattle.world_heap.specs.Heaps.{IsNoEnv, IsCell, Fits, IsWell};
ghost use Rattle.world_heap.specs.BuiltIns.{plain_object, objects, place_of};
ghost use Rattle.world_heap.specs.Views.{IsCounted, IsOwned};
ghost use Rattle.std.specs.Option.{option_and_then};
ghost use Rattle.world_heap.specs.Bodies.{body_of, HasBody, bound_at, rebodied, rewritten};
ghost use Rattle.world_heap.specs.Growth.{grown, first_passed, Adds, Grows};
ghost use Rattle.world_heap.specs.Bounded.{bounds_of};
ghost use Rattle.world_heap.specs.Starting.{IsNew, empty_heap, with_built_in};

use crate::builtin::{BuiltIn, place_number};
use crate::cell::{Binding, Body, Cell};
use crate::limits::{Counts, Full, HeapFault, Limits};
use crate::pool::{Pool, Seat};
use crate::size::{place_count, unit_count};
use crate::store::{Store, discard};
use crate::table::Table;
use crate::value::Loc;
use std::alloc::{AllocError, Global};
use std::marker::Model;
use world_kind::WorldKind;

/// The heap of a world, seen as the list of its cells in the order in which they were made, each with its location,
/// beside the heaps of the others in its pool, its counts and limits.
///
/// Each location in a cell is that of a cell of this heap, and no value and no prototype is an environment. Each number
/// is in range, no chain of prototypes comes back to a cell in it, an error's kind is below 7, a buffer has at most
/// 1,048,576 bytes, and a view lies within its buffer.
#[derive(Drop)]
pub struct Heap {
    store: Store<Cell>,
    given: u32,
    owner: u32,
    limits: Limits,
    counts: Counts,
    base: u64,
}

impl Model for Heap {
    ghost use Rattle.std.specs.Prelude.{nat_eq};
    ghost use Rattle.world_heap.specs.Maps.{without};
    ghost use Rattle.world_heap.specs.Shelf.{values_of};
    ghost use Rattle.world_heap.specs.Views.{HeapView, IsPooled, IsOwned, IsCounted};
    ghost use Rattle.world_heap.specs.Bounded.{bounds_of};

    ghost Value = { HeapView };

    ghost view = { λ heap. record {
      owner = heap.owner;
      cells = values_of heap.store heap.owner;
      others = without nat_eq heap.store heap.owner;
      counts = heap.counts;
      limits = bounds_of heap.limits;
      base = heap.base;
      given = heap.given;
    } };

    ghost invariant = { λ heap. IsPooled heap.store heap.given × IsOwned heap.store heap.owner heap.counts heap.base
        × IsCounted heap.counts (bounds_of heap.limits) heap.base };
}

impl Heap {
    /// A new heap in the pool, under the next unused owner number. It has the built-in cells alone, and its counts are
    /// 0. Where memory runs out the pool is gone.
    ///
    /// Fewer than 2^32-1 owner numbers were given out, and at most 31 heaps stand in the pool. So far the built-in
    /// cells are the same for all kinds of world.
    pub fn new(
        alloc: Global,
        limits: Limits,
        _kind: WorldKind,
        pool: Pool,
    ) -> Result<Heap, AllocError>
        requires given { pool.given < 2 ^ 32 - 1 }
        requires room { length pool.maps ≤ 31 }
        ensures { IfOk result (λ heap. IsNew (bounds_of limits) pool heap) }
    {
        let mut heap = Heap::empty(alloc, limits, pool)?;
        let root = heap.add_object(alloc, None)?;
        let error = heap.add_object(alloc, Some(root))?;
        heap.add_objects(alloc, error, 6)?;
        heap.add_objects(alloc, root, 9)?;
        Ok(heap)
    }

    // A heap without cells in the pool.
    fn empty(alloc: Global, limits: Limits, pool: Pool) -> Result<Heap, AllocError>
        requires { pool.given < 2 ^ 32 - 1 }
        ensures { IfOk result (λ heap. heap ≡ empty_heap (bounds_of limits) pool) }
    {
        let Pool { mut store, given } = pool;
        store.open(alloc, given)?;
        Ok(Heap {
            store,
            given: given + 1,
            owner: given,
            limits,
            counts: Counts {
                cells: 0,
                places: 0,
                units: 0,
            },
            base: 0,
        })
    }

    /// Adds a built-in cell behind the others, which isn't counted. Where memory runs out the heap stays as it was.
    ///
    /// Fewer than 1,024 cells are built in, and the cell's locations stand. The cost is constant on average.
    pub fn add_built_in(&mut self, cell: Cell) -> Result<Loc, AllocError>
        requires room { self.old.base < 1024 }
        requires fits { Fits nat_eq self.old.cells cell }
        ensures added { IfOk result (λ loc. self.new ≡ with_built_in self.old ((loc, cell) ∷ [])) }
        ensures fresh { IfOk result (λ loc. stands nat_eq (keys self.old.cells) loc ≡ false) }
        ensures stands { IfOk result (λ loc. find nat_eq self.new.cells loc ≡ Some cell) }
        ensures kept { (loc : ℕ) → IsNoEnv nat_eq self.old.cells loc → IsNoEnv nat_eq self.new.cells loc }
        ensures err { OnErr result (self.new ≡ self.old) }
    {
        let number = self.store.add(self.owner, cell)?;
        self.base += 1;
        Ok(Loc::of(number))
    }

    // One built-in object more.
    fn add_object(&mut self, alloc: Global, proto: Option<Loc>) -> Result<Loc, AllocError>
        requires room { self.old.base < 1024 }
        requires proto { OptionOver (IsNoEnv nat_eq self.old.cells) proto }
        ensures added { IfOk result (λ loc. self.new ≡ with_built_in self.old ((loc, plain_object proto) ∷ [])) }
        ensures stands { IfOk result (λ loc. IsNoEnv nat_eq self.new.cells loc) }
        ensures kept { (loc : ℕ) → IsNoEnv nat_eq self.old.cells loc → IsNoEnv nat_eq self.new.cells loc }
    {
        let loc = self.add_built_in(Cell::Object {
            body: Body {
                proto,
                properties: Table::new(alloc),
                extensible: true,
            },
        })?;
        Ok(loc)
    }

    // So many built-in objects more, with one prototype.
    fn add_objects(&mut self, alloc: Global, proto: Loc, count: u64) -> Result<(), AllocError>
        requires room { self.old.base + count ≤ 1024 }
        requires proto { IsNoEnv nat_eq self.old.cells proto }
        ensures added { OnOk result ((locs : List ℕ) × (length locs ≡ count) × (self.new ≡ with_built_in self.old (objects proto locs))) }
        ensures kept { (loc : ℕ) → IsNoEnv nat_eq self.old.cells loc → IsNoEnv nat_eq self.new.cells loc }
    {
        'objects: for _done in 0..count {
            self.add_object(alloc, Some(proto))?;
        }
        Ok(())
    }

    /// The location of the cell at a place, in the order in which cells were added; none past the last one. It takes no
    /// memory, and constant time.
    pub fn location(&self, place: usize) -> Option<Loc>
        ensures { result ≡ slice_get (keys self.now.cells) place }
    {
        self.store.location(self.owner, place).map(Loc::of)
    }

    /// The location of a built-in cell. It takes no memory, and constant time.
    pub fn built_in(&self, built_in: BuiltIn) -> Option<Loc>
        ensures { result ≡ slice_get (keys self.now.cells) (place_of built_in) }
    {
        self.location(place_number(built_in))
    }

    /// Adds a cell, and counts it and its places and units.
    ///
    /// The cell's locations stand. Where a count would pass its limit that is told, of cells, places and units the
    /// first, and where memory runs out, memory; the heap is then as it was. The cost is constant on average.
    pub fn add(&mut self, cell: Cell) -> Result<Loc, HeapFault>
        requires { Fits nat_eq self.old.cells cell }
        ensures { Adds self.old cell result self.new }
    {
        let places = place_count(&cell);
        let units = unit_count(&cell);
        if self.counts.cells >= self.limits.cells {
            discard(cell);
            return Err(HeapFault::Cells);
        }
        if places > self.limits.places - self.counts.places {
            discard(cell);
            return Err(HeapFault::Places);
        }
        if units > self.limits.units - self.counts.units {
            discard(cell);
            return Err(HeapFault::Units);
        }
        let number = match self.store.add(self.owner, cell) {
            Ok(number) => number,
            Err(_) => return Err(HeapFault::Memory),
        };
        self.counts = Counts {
            cells: self.counts.cells + 1,
            places: self.counts.places + places,
            units: self.counts.units + units,
        };
        Ok(Loc::of(number))
    }

    /// The count that would pass its limit with so many places and units more: of places and units the first, or none.
    /// It takes no memory.
    pub fn would_pass(&self, places: u64, units: u64) -> Option<Full>
        ensures { result ≡ first_passed self.now.limits (grown self.now.counts 0 places units) }
    {
        if places > self.limits.places - self.counts.places {
            return Some(Full::Places);
        }
        if units > self.limits.units - self.counts.units {
            return Some(Full::Units);
        }
        None
    }

    /// Counts places and units, where none would pass its limit. It takes no memory.
    pub fn grow(&mut self, places: u64, units: u64) -> Result<(), Full>
        ensures { Grows self.old places units result self.new }
    {
        if places > self.limits.places - self.counts.places {
            return Err(Full::Places);
        }
        if units > self.limits.units - self.counts.units {
            return Err(Full::Units);
        }
        self.counts.places += places;
        self.counts.units += units;
        Ok(())
    }

    /// The cell at a location. It takes no memory, and its cost is constant.
    pub fn cell(&self, loc: Loc) -> &Cell
        requires { IsCell nat_eq self.now.cells loc }
        ensures found { find nat_eq self.now.cells loc ≡ Some result.now }
        ensures fits { Fits nat_eq self.now.cells result.now }
        ensures well { IsWell nat_eq self.now.cells }
    {
        self.store.value(loc.number())
    }

    /// The cell at a location, where there is one. It takes no memory, and its cost is constant.
    pub fn get(&self, loc: Loc) -> Option<&Cell>
        ensures found { MatchOption result (find nat_eq self.now.cells loc ≡ None) (λ cell. find nat_eq self.now.cells loc ≡ Some cell.now) }
        ensures fits { IfSome result (λ cell. Fits nat_eq self.now.cells cell.now) }
        ensures well { IsWell nat_eq self.now.cells }
    {
        self.store.get(self.owner, loc.number())
    }

    /// Puts a cell in the place of another, and gives that one back. The heap with the new cell is well. It takes no
    /// memory, counts nothing, and its cost is constant.
    pub fn replace(&mut self, loc: Loc, cell: Cell) -> Cell
        requires stands { IsCell nat_eq self.old.cells loc }
        requires keeps { IsWell nat_eq self.old.cells → IsWell nat_eq (put nat_eq self.old.cells loc cell) }
        ensures was { find nat_eq self.old.cells loc ≡ Some result }
        ensures is { self.new ≡ record self.old { cells = put nat_eq self.old.cells loc cell } }
    {
        self.store.replace(loc.number(), cell)
    }

    /// Puts a body in the place of another, and gives that one back. The heap with the new body is well. It takes no
    /// memory, counts nothing, and its cost is constant.
    pub fn replace_body(&mut self, loc: Loc, body: Body) -> Body
        requires stands { HasBody self.old.cells loc }
        requires keeps { IsWell nat_eq self.old.cells → IsWell nat_eq (rebodied self.old.cells loc body) }
        ensures was { option_and_then body_of (find nat_eq self.old.cells loc) ≡ Some result }
        ensures is { self.new ≡ record self.old { cells = rebodied self.old.cells loc body } }
    {
        match self.store.replace_body(loc.number(), body) {
            Some(was) => was,
            None => unreachable!(),
        }
    }

    /// Puts a byte at a place of a buffer, where it has one; another cell stays as it is. It takes no memory, counts
    /// nothing, and its cost is constant.
    pub fn write_byte(&mut self, loc: Loc, at: usize, byte: u8)
        requires { IsCell nat_eq self.old.cells loc }
        ensures { self.new ≡ record self.old { cells = rewritten self.old.cells loc at byte } }
    {
        self.store.write_byte(loc.number(), at, byte);
    }

    /// Puts a binding in the place of another of an environment, where it has one there; another cell stays as it is. It
    /// takes no memory, counts nothing, and its cost is constant.
    pub fn set_binding(&mut self, env: Loc, place: usize, binding: Binding)
        requires stands { IsCell nat_eq self.old.cells env }
        requires fits { OptionOver (ValueOver (IsNoEnv nat_eq self.old.cells)) binding.value }
        ensures { self.new ≡ record self.old { cells = bound_at self.old.cells env place binding } }
    {
        self.store.set_binding(env.number(), place, binding);
    }

    /// How many cells there are, those that are built in among them.
    pub fn len(&self) -> u64
        ensures { result ≡ length self.now.cells }
    {
        self.base + self.counts.cells
    }

    /// How many cells, places and units were made: none more than its limit.
    pub fn count(&self) -> Counts
        ensures is { result ≡ self.now.counts }
        ensures within { IsCounted result self.now.limits self.now.base }
    {
        self.counts
    }

    /// What the world of the heap may use.
    pub fn limits(&self) -> Limits
        ensures { bounds_of result ≡ self.now.limits }
    {
        self.limits
    }

    /// How many cells are built in: at most 1,024.
    pub fn base(&self) -> u64
        ensures is { result ≡ self.now.base }
        ensures bound { result ≤ 1024 }
        ensures cells { length self.now.cells ≡ self.now.base + self.now.counts.cells }
    {
        self.base
    }

    /// The heap and its pool apart, which take no memory: the pool has the heap's cells under its owner number, beside
    /// those of the others.
    pub fn part(self) -> (Seat, Pool)
        ensures seat { result.0 ≡ record { owner = self.owner; counts = self.counts; limits = self.limits; base = self.base } }
        ensures own { find nat_eq result.1.maps self.owner ≡ Some self.cells }
        ensures others { without nat_eq result.1.maps self.owner ≡ self.others }
        ensures given { result.1.given ≡ self.given }
        ensures count { length result.1.maps ≡ length self.others + 1 }
        ensures owned { IsOwned result.1.maps self.owner self.counts self.base }
    {
        let Heap {
            store,
            given,
            owner,
            limits,
            counts,
            base,
        } = self;
        (
            Seat {
                owner,
                limits,
                counts,
                base,
            },
            Pool { store, given },
        )
    }

    /// A heap in its pool again, which takes no memory. The pool has the heap's cells under its owner number.
    pub fn join(seat: Seat, pool: Pool) -> Heap
        requires { IsOwned pool.maps seat.owner seat.counts seat.base }
        ensures { result ≡ record {
          owner = seat.owner;
          cells = values_of pool.maps seat.owner;
          others = without nat_eq pool.maps seat.owner;
          counts = seat.counts;
          limits = seat.limits;
          base = seat.base;
          given = pool.given;
        } }
    {
        let Seat {
            owner,
            limits,
            counts,
            base,
        } = seat;
        let Pool { store, given } = pool;
        Heap {
            store,
            given,
            owner,
            limits,
            counts,
            base,
        }
    }

    /// Ends the heap: what is left is the pool of the others. Every slot of the heap is vacant. It takes no memory, and
    /// its cost is linear in the heap's own cells.
    pub fn end(self) -> Pool
        ensures { result ≡ record { maps = self.others; given = self.given } }
    {
        let Heap {
            mut store,
            given,
            owner,
            ..
        } = self;
        store.close(owner);
        Pool { store, given }
    }
}
