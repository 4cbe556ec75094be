//! A world runs a task, and its lines are written as they are made.
ghost use Rattle.std.specs.Prelude.{◌≡◌, ◌≤◌, ◌∷◌, [], List, true, ◌||◌, IfErr, IfOk, OnOk};
ghost use Rattle.std.specs.List.{list_any};
ghost use Rattle.wl_causes.specs.Causes.{Rose};
ghost use Rattle.wl_causes.specs.Taking.{with_more, TakesFront};
ghost use Rattle.world_log.specs.declared.entry.Entry as log_entry;
ghost use Rattle.world_log.specs.declared.entry.Entry.TheVariants as entry;
ghost use Rattle.js_semantics.specs.Run.{Arrival};
ghost use Rattle.world_machine.specs.World.{IsComing, IsIn, Passes, Rests, is_awaited};
ghost use Rattle.app_engine.specs.Log.{is_stop};
ghost use Rattle.app_engine.specs.Machines.{HasCause, lines_of};

use crate::player::PlayFault;
use crate::writing::write_entry;
use std::alloc::Global;
use wl_causes::Sink;
use world_heap::Pool;
use world_log::{Delivery, Entry, Product, WorldName};
use world_machine::World;

/// Where a world is at the end of its task: the pool that it rests in, and whether it has stopped.
#[derive(Drop)]
pub(crate) struct Rested {
    pub pool: Pool,
    pub stopped: bool,
}

// Whether a world has stopped behind a product.
fn stops_after(stopped: bool, product: &Product) -> bool
    ensures { result ≡ (stopped || is_stop (entry.Product product.now)) }
{
    match product {
        Product::Stopped(_) => true,
        _ => stopped,
    }
}

// A world takes a delivery and runs up to where it rests. The line of the delivery is written first, and then that of
// each product as soon as it is made: no other product stands in memory.
pub(crate) fn run_task<K: Sink>(
    alloc: Global,
    name: WorldName,
    world: &mut World,
    pool: Pool,
    fresh: bool,
    what: Delivery,
    sink: &mut K,
) -> Result<Rested, PlayFault>
    requires stands { IsIn world.old pool }
    requires awaited { is_awaited world.old what ≡ true }
    ensures ran { IfOk result (λ r. (made : List log_entry.Entry) × Passes (record { fresh = fresh; what = what } ∷ []) made world.old pool world.new r.pool × Rests world.new r.pool) }
    ensures ok { OnOk result ((coming : List Arrival → List log_entry.Entry) → IsComing world.old pool coming → K.taken sink.new ≡ with_more (lines_of name (coming (record { fresh = fresh; what = what } ∷ []))) (K.taken sink.old)) }
    ensures stopped { IfOk result (λ r. (coming : List Arrival → List log_entry.Entry) → IsComing world.old pool coming → r.stopped ≡ list_any is_stop (coming (record { fresh = fresh; what = what } ∷ []))) }
    ensures front { (coming : List Arrival → List log_entry.Entry) → IsComing world.old pool coming → TakesFront (lines_of name (coming (record { fresh = fresh; what = what } ∷ []))) (K.taken sink.old) (K.taken sink.new) }
    ensures err { IfErr result (HasCause (Rose (K.faults sink.old) (K.faults sink.new))) }
    ensures later { K.faults sink.old ≤ K.faults sink.new }
{
    match write_entry(alloc, name, Entry::Delivery { fresh, what }, sink) {
        Ok(()) => {}
        Err(fault) => return Err(fault),
    }
    let (first, begun) = match world.begin(pool, fresh, what) {
        Ok(begun) => begun,
        Err(_) => return Err(PlayFault::Memory),
    };
    let mut made = first;
    let mut now = begun;
    let mut stopped = false;
    'lines: while let Some(product) = made {
        stopped = stops_after(stopped, &product);
        match write_entry(alloc, name, Entry::Product(product), sink) {
            Ok(()) => {}
            Err(fault) => return Err(fault),
        }
        let (next, after) = match world.advance(now) {
            Ok(went) => went,
            Err(_) => return Err(PlayFault::Memory),
        };
        made = next;
        now = after;
    }
    Ok(Rested { pool: now, stopped })
}
