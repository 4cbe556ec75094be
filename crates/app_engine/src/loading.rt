//! A new world takes its load.
ghost use Rattle.std.specs.Prelude.{◌≡◌, ◌≤◌, ◌<◌, ◌-◌, ◌^◌, length, IfErr, IfOk, OnOk};
ghost use Rattle.std.specs.List.{list_any};
ghost use Rattle.wl_causes.specs.Causes.{Rose};
ghost use Rattle.wl_causes.specs.Taking.{with_more, TakesFront};
ghost use Rattle.js_semantics.specs.Alone.{alone};
ghost use Rattle.app_engine.specs.Log.{first_load, is_stop};
ghost use Rattle.app_engine.specs.Live.{Joins, behind_load};
ghost use Rattle.app_engine.specs.Machines.{HasCause, lines_of, world_setting};

use crate::player::PlayFault;
use crate::running::{Rested, run_task};
use js_tree::Tree;
use std::alloc::Global;
use wl_causes::Sink;
use world_heap::{Limits, Pool};
use world_log::{Delivery, WorldName};
use world_machine::World;

/// A world that took its load: the pool that it rests in, and whether it has stopped.
#[derive(Drop)]
pub(crate) struct Loaded {
    pub world: World,
    pub pool: Pool,
    pub stopped: bool,
}

// A new world in the pool takes its load, and its lines are written as they are made.
pub(crate) fn load_world<K: Sink>(
    alloc: Global,
    name: WorldName,
    limits: Limits,
    script: Tree,
    pool: Pool,
    sink: &mut K,
) -> Result<Loaded, PlayFault>
    requires given { pool.given < 2 ^ 32 - 1 }
    requires room { length pool.maps ≤ 31 }
    ensures joins { IfOk result (λ r. Joins (behind_load (world_setting name.kind limits script)) pool r.world r.pool) }
    ensures ok { OnOk result (K.taken sink.new ≡ with_more (lines_of name (alone (world_setting name.kind limits script) first_load)) (K.taken sink.old)) }
    ensures stopped { IfOk result (λ r. r.stopped ≡ list_any is_stop (alone (world_setting name.kind limits script) first_load)) }
    ensures front { TakesFront (lines_of name (alone (world_setting name.kind limits script) first_load)) (K.taken sink.old) (K.taken sink.new) }
    ensures err { IfErr result (HasCause (Rose (K.faults sink.old) (K.faults sink.new))) }
    ensures later { K.faults sink.old ≤ K.faults sink.new }
{
    let (mut world, pool) = match World::new(alloc, name.kind, limits, script, pool) {
        Ok(begun) => begun,
        Err(_) => return Err(PlayFault::Memory),
    };
    let Rested { pool, stopped } = match run_task(
        alloc,
        name,
        &mut world,
        pool,
        true,
        Delivery::Load,
        sink,
    ) {
        Ok(rested) => rested,
        Err(fault) => return Err(fault),
    };
    Ok(Loaded {
        world,
        pool,
        stopped,
    })
}
