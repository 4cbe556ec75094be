//! The log, written as it is made.
ghost use Rattle.std.specs.Prelude.{◌≡◌, ◌≤◌, IfErr, OnOk};
ghost use Rattle.wl_causes.specs.Causes.{Rose};
ghost use Rattle.wl_causes.specs.Taking.{with_more, TakesFront};
ghost use Rattle.world_log.specs.Print.{printed};
ghost use Rattle.world_log.specs.declared.entry.LogItem.TheVariants.{World};
ghost use Rattle.app_engine.specs.Machines.{HasCause};

use crate::player::PlayFault;
use std::alloc::Global;
use wl_causes::{Sink, write_whole};
use world_log::{Entry, LogItem, WorldName, print};

/// Writes the line of an item.
pub fn write_item<K: Sink>(alloc: Global, item: &LogItem, sink: &mut K) -> Result<(), PlayFault>
    ensures ok { OnOk result (K.taken sink.new ≡ with_more (printed item.now) (K.taken sink.old)) }
    ensures front { TakesFront (printed item.now) (K.taken sink.old) (K.taken sink.new) }
    ensures err { IfErr result (HasCause (Rose (K.faults sink.old) (K.faults sink.new))) }
    ensures later { K.faults sink.old ≤ K.faults sink.new }
{
    let line = match print(alloc, item) {
        Ok(line) => line,
        Err(_) => return Err(PlayFault::Memory),
    };
    match write_whole(sink, line.as_slice()) {
        Ok(()) => {}
        Err(_) => return Err(PlayFault::Sink),
    }
    Ok(())
}

/// Writes the line of an entry of a world.
pub fn write_entry<K: Sink>(
    alloc: Global,
    name: WorldName,
    entry: Entry,
    sink: &mut K,
) -> Result<(), PlayFault>
    ensures ok { OnOk result (K.taken sink.new ≡ with_more (printed (World name entry)) (K.taken sink.old)) }
    ensures front { TakesFront (printed (World name entry)) (K.taken sink.old) (K.taken sink.new) }
    ensures err { IfErr result (HasCause (Rose (K.faults sink.old) (K.faults sink.new))) }
    ensures later { K.faults sink.old ≤ K.faults sink.new }
{
    let item = LogItem::World(name, entry);
    match write_item(alloc, &item, sink) {
        Ok(()) => {}
        Err(fault) => return Err(fault),
    }
    Ok(())
}
