//! A world over the pool of all worlds.
ghost use Rattle.std.specs.Prelude.{◌≡◌, ◌^◌, ◌-◌, ◌<◌, ◌≤◌, ◌++◌, ◌∷◌, [], ℕ, List, length, true, IfOk, IsSome};
ghost use Rattle.world_heap.specs.Bounded.{bounds_of};
ghost use Rattle.world_heap.specs.Views.{PoolView};
ghost use Rattle.world_log.specs.declared.entry.Entry as log_entry;
ghost use Rattle.world_log.specs.declared.entry.Entry.TheVariants as entry;
ghost use Rattle.world_log.specs.declared.entry.Product as made_by;
ghost use Rattle.js_names.specs.Patterns.{nodes_of};
ghost use Rattle.js_semantics.specs.Alone.{alone};
ghost use Rattle.js_semantics.specs.Run.{Arrival};
ghost use Rattle.alone_laws.specs.Sizes.{alone_cells};
ghost use Rattle.world_machine.specs.World.{GoesOn, IsBegun, IsComing, IsEnded, IsIn, IsPut, IsRunning, IsTaken, Resumes, Takes, is_awaited, turns_left};

use crate::fault::out_of_memory;
use crate::machine::{Machine, part};
use crate::yielding::{Yield, last_yield};
use js_machine::{State, discard};
use js_realm::first_state;
use js_step::{advance, begin, resume};
use js_tree::Tree;
use std::alloc::{AllocError, Global};
use world_heap::{Limits, Pool};
use world_kind::WorldKind;
use world_log::{Delivery, Product};

/// A world without the pool of all worlds: its script, and where it stands. After a fault it stands nowhere.
#[derive(Drop)]
pub struct World {
    script: Tree,
    machine: Option<Machine>,
}

// Ends the heap of a state.
fn end_heap(state: State) -> Pool
    ensures { result ≡ record { maps = state.heap.others; given = state.heap.given } }
{
    let State {
        heap,
        frames,
        control,
        ..
    } = state;
    discard(frames);
    discard(control);
    heap.end()
}

impl World {
    /// A new world of a kind in the pool, with its limits and its script, in which nothing has happened. What is to come
    /// from it is what such a world makes alone. Where memory runs out the pool is gone.
    ///
    /// Fewer than 2^32-1 worlds were made in the pool, and at most 31 stand there.
    ///
    /// # Errors
    /// `AllocError` where memory runs out.
    pub fn new(
        alloc: Global,
        kind: WorldKind,
        limits: Limits,
        script: Tree,
        pool: Pool,
    ) -> Result<(World, Pool), AllocError>
        requires given { pool.given < 2 ^ 32 - 1 }
        requires room { length pool.maps ≤ 31 }
        ensures { IfOk result (λ r. IsBegun (alone (record { kind = kind; limits = bounds_of limits; tree = nodes_of script })) (alone_cells (record { kind = kind; limits = bounds_of limits; tree = nodes_of script })) pool r.0 r.1) }
    {
        let state = first_state(alloc, limits, kind, pool)?;
        let (machine, pool) = part(state);
        Ok((
            World {
                script,
                machine: Some(machine),
            },
            pool,
        ))
    }

    /// Whether a delivery may come now. It takes no memory, and constant time.
    pub fn awaits(&self, what: Delivery) -> bool
        ensures is { result ≡ is_awaited self.now what }
        ensures exact { (pool : PoolView) (coming : List Arrival → List log_entry.Entry) (fresh : _) (ds : List Arrival) → IsIn self.now pool → IsComing self.now pool coming
            → Takes result (entry.Delivery fresh what) (coming (record { fresh = fresh; what = what } ∷ ds)) }
    {
        match &self.machine {
            Some(machine) => machine.awaits(what),
            None => false,
        }
    }

    /// Takes a delivery, `fresh` where it is the first to the world in its task and fills its steps, and runs up to the
    /// yield (ECMA-262, 9.5 and 16.1.6). What the world makes is put behind the products in `out`. The cost is that of
    /// its steps. Moving the pool copies no cell.
    ///
    /// The world stands in the pool, and the delivery is awaited.
    ///
    /// # Errors
    /// `AllocError` where memory runs out. The pool is then gone.
    pub fn resume(
        &mut self,
        pool: Pool,
        fresh: bool,
        delivery: Delivery,
        out: &mut Vec<Product>,
    ) -> Result<(Yield, Pool), AllocError>
        requires stands { IsIn self.old pool }
        requires awaited { is_awaited self.old delivery ≡ true }
        ensures { IfOk result (λ r. (made : List made_by.Product) × (out.new.items ≡ out.old.items ++ made)
            × Resumes (record { fresh = fresh; what = delivery }) self.old pool made r.0 self.new r.1) }
    {
        let mut state = self.take_state(pool);
        match resume(&mut state, &self.script, fresh, delivery, out) {
            Ok(()) => {}
            Err(fault) => return Err(out_of_memory(fault)),
        }
        let pool = self.put_state(state);
        Ok((last_yield(out.as_slice()), pool))
    }

    /// Takes a delivery, `fresh` where it is the first to the world in its task and fills its steps, and runs up to the
    /// first product, or up to where the world rests (ECMA-262, 9.5 and 16.1.6). `advance` then makes the others. The
    /// cost is that of the steps. Moving the pool takes constant time.
    ///
    /// The world stands in the pool, and the delivery is awaited.
    ///
    /// # Errors
    /// `AllocError` where memory runs out. The pool is then gone.
    pub fn begin(
        &mut self,
        pool: Pool,
        fresh: bool,
        delivery: Delivery,
    ) -> Result<(Option<Product>, Pool), AllocError>
        requires stands { IsIn self.old pool }
        requires awaited { is_awaited self.old delivery ≡ true }
        ensures { IfOk result (λ r. GoesOn (record { fresh = fresh; what = delivery } ∷ []) (entry.Delivery fresh delivery ∷ []) self.old pool r.0 self.new r.1) }
    {
        let mut state = self.take_state(pool);
        let first = match begin(&mut state, &self.script, fresh, delivery) {
            Ok(first) => first,
            Err(fault) => return Err(out_of_memory(fault)),
        };
        let pool = self.put_state(state);
        Ok((first, pool))
    }

    /// Runs up to the next product, or up to where the world rests or has stopped. Where a product was made, fewer turns
    /// are left. The cost is that of the steps. Moving the pool takes constant time.
    ///
    /// The world stands in the pool.
    ///
    /// # Errors
    /// `AllocError` where memory runs out. The pool is then gone.
    pub fn advance(&mut self, pool: Pool) -> Result<(Option<Product>, Pool), AllocError>
        requires { IsRunning self.old pool }
        ensures goes { IfOk result (λ r. GoesOn [] [] self.old pool r.0 self.new r.1) }
        ensures falls { IfOk result (λ r. IsSome r.0 → turns_left self.new < turns_left self.old) }
    {
        let mut state = self.take_state(pool);
        let next = match advance(&mut state, &self.script) {
            Ok(next) => next,
            Err(fault) => return Err(out_of_memory(fault)),
        };
        let pool = self.put_state(state);
        Ok((next, pool))
    }

    // The state of the world over its pool, which leaves the world empty.
    fn take_state(&mut self, pool: Pool) -> State
        requires { IsRunning self.old pool }
        ensures { IsTaken self.old pool result self.new }
    {
        match self.machine.take() {
            Some(machine) => machine.join(pool),
            None => unreachable!(),
        }
    }

    // Puts a state into the world, and gives its pool back.
    fn put_state(&mut self, state: State) -> Pool
        ensures { IsPut state self.old self.new result }
    {
        let (machine, pool) = part(state);
        discard(self.machine.replace(machine));
        pool
    }

    /// Ends the world: what is left is the pool of the others, with every slot of the world vacant. It takes no memory,
    /// and its cost is linear in the world's own cells.
    ///
    /// The world stands in the pool.
    pub fn end(mut self, pool: Pool) -> Pool
        requires { IsIn self pool }
        ensures { IsEnded self pool result }
    {
        let state = self.take_state(pool);
        discard(self);
        end_heap(state)
    }
}
