//! What is kept of an application: the worlds that live, and the pool of their cells.
ghost use Rattle.std.specs.Prelude.{◌≡◌, ◌≤◌, ◌<◌, ◌-◌, ◌+◌, ◌^◌, ◌++◌, ◌∷◌, [], List, length, IfErr, IfOk, OnOk};
ghost use Rattle.std.specs.List.{list_any};
ghost use Rattle.wl_causes.specs.Causes.{Rose};
ghost use Rattle.wl_causes.specs.Taking.{with_more, TakesFront};
ghost use Rattle.js_semantics.specs.Alone.{alone};
ghost use Rattle.app_engine.specs.Log.{first_load, is_stop};
ghost use Rattle.app_engine.specs.Live.{Keeps, Owed, behind_load};
ghost use Rattle.app_engine.specs.Machines.{HasCause, lines_of, world_setting};

use crate::loading::{Loaded, load_world};
use crate::player::PlayFault;
use js_tree::Tree;
use sqlite_items::Items;
use std::alloc::Global;
use std::mem;
use wl_causes::Sink;
use world_heap::{Limits, Pool};
use world_log::WorldName;
use world_machine::World;

/// A world that lives, and its name.
#[derive(Drop)]
pub struct LiveWorld {
    pub name: WorldName,
    pub world: World,
}

/// The worlds that live, in the order of their loads, and the pool of their cells.
#[derive(Drop)]
pub struct Kept {
    pub live: Items<LiveWorld>,
    pub pool: Pool,
}

impl Kept {
    // Before any world was loaded.
    pub(crate) fn new(alloc: Global) -> Kept
        ensures live { result.live ≡ [] }
        ensures pool { result.pool ≡ record { maps = []; given = 0 } }
    {
        Kept {
            live: Items::new(alloc),
            pool: Pool::new(alloc),
        }
    }

    // A new world takes its load, and its lines are written as they are made. Says whether it has stopped.
    pub(crate) fn load<K: Sink>(
        &mut self,
        alloc: Global,
        name: WorldName,
        limits: Limits,
        script: &Tree,
        sink: &mut K,
    ) -> Result<bool, PlayFault>
        requires given { self.old.pool.given < 2 ^ 32 - 1 }
        requires room { length self.old.pool.maps ≤ 31 }
        ensures ok { OnOk result (K.taken sink.new ≡ with_more (lines_of name (alone (world_setting name.kind limits script.now) first_load)) (K.taken sink.old)) }
        ensures stopped { IfOk result (λ stopped. stopped ≡ list_any is_stop (alone (world_setting name.kind limits script.now) first_load)) }
        ensures keeps { OnOk result ((owed : List Owed) → Keeps owed self.old → Keeps (owed ++ (name, behind_load (world_setting name.kind limits script.now)) ∷ []) self.new) }
        ensures given { OnOk result (self.new.pool.given ≡ self.old.pool.given + 1) }
        ensures count { OnOk result (length self.new.pool.maps ≡ length self.old.pool.maps + 1) }
        ensures front { TakesFront (lines_of name (alone (world_setting name.kind limits script.now) first_load)) (K.taken sink.old) (K.taken sink.new) }
        ensures err { IfErr result (HasCause (Rose (K.faults sink.old) (K.faults sink.new))) }
        ensures later { K.faults sink.old ≤ K.faults sink.new }
    {
        let script = match script.copy(alloc) {
            Ok(script) => script,
            Err(_) => return Err(PlayFault::Memory),
        };
        let pool = mem::replace(&mut self.pool, Pool::new(alloc));
        let Loaded {
            world,
            pool,
            stopped,
        } = match load_world(alloc, name, limits, script, pool, sink) {
            Ok(loaded) => loaded,
            Err(fault) => return Err(fault),
        };
        self.pool = pool;
        match self.live.push(LiveWorld { name, world }) {
            Ok(()) => {}
            Err(_) => return Err(PlayFault::Memory),
        }
        Ok(stopped)
    }

    // Ends the world that was loaded last.
    pub(crate) fn end_last(&mut self, alloc: Global)
        requires { (owed : List Owed) × (last : Owed) × Keeps (owed ++ last ∷ []) self.old }
        ensures keeps { (owed : List Owed) (last : Owed) → Keeps (owed ++ last ∷ []) self.old → Keeps owed self.new }
        ensures given { self.new.pool.given ≡ self.old.pool.given }
        ensures count { length self.old.pool.maps ≡ length self.new.pool.maps + 1 }
    {
        let pool = mem::replace(&mut self.pool, Pool::new(alloc));
        match self.live.pop() {
            Some(last) => self.pool = last.world.end(pool),
            None => unreachable!(),
        }
    }
}
