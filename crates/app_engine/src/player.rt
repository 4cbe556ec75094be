//! An application played.
ghost use Rattle.std.specs.Prelude.{◌≡◌, ◌≤◌, ◌+◌, ◌++◌, List, length, IfErr, IfOk, OnOk};
ghost use Rattle.wl_causes.specs.Causes.{Rose};
ghost use Rattle.wl_causes.specs.Taking.{with_more, TakesFront};
ghost use Rattle.world_log.specs.Print.{main_name, printed_log};
ghost use Rattle.world_log.specs.declared.entry.LogItem.{LogItem};
ghost use Rattle.app_engine.specs.Log.{Lawful, log_of, page_name, preload_name};
ghost use Rattle.app_engine.specs.Live.{Keeps, Owed, main_owed, owed_in, window_owed, windows_owed};
ghost use Rattle.app_engine.specs.Machines.{HasCause};
ghost use Rattle.app_engine.specs.Applications.{application_of, main_lines, window_lines, windows_lines};

use crate::kept::Kept;
use app_manifest::{App, WindowApp};
use js_tree::Tree;
use std::alloc::Global;
use wl_causes::Sink;
use world_heap::Limits;
use world_kind::WorldKind;
use world_log::WorldName;

/// Why playing ends before the log does.
#[derive(Debug, Drop, Clone, Copy, PartialEq, Eq)]
pub enum PlayFault {
    /// Memory ran out.
    Memory,
    /// The sink failed.
    Sink,
}

/// Plays an application: loads its main script, and then for each window, ascending, its preload script and its page's.
/// A world that stops ends its process, so a page whose preload script's world stopped isn't loaded, and a page's stop
/// ends its preload script's world. Writes the printed log, each line as soon as its item is made, so that no more
/// than one product stands in memory. After a fault a front of it was taken; a fault of the sink comes only where the
/// sink's count rose.
///
/// What is kept are the worlds whose process hasn't ended in the log, in the order of their loads. From each is still to
/// come what it makes alone behind its part of the log, for every list of further deliveries; the pool has no cells but
/// theirs.
pub fn play<K: Sink>(alloc: Global, app: &App, sink: &mut K) -> Result<Kept, PlayFault>
    ensures ok { OnOk result (K.taken sink.new ≡ with_more (printed_log (log_of (application_of app.now))) (K.taken sink.old)) }
    ensures lawful { OnOk result ((log : List LogItem) → Lawful (application_of app.now) log → K.taken sink.new ≡ with_more (printed_log log) (K.taken sink.old)) }
    ensures kept { IfOk result (λ kept. Keeps (owed_in (application_of app.now) (log_of (application_of app.now))) kept) }
    ensures front { TakesFront (printed_log (log_of (application_of app.now))) (K.taken sink.old) (K.taken sink.new) }
    ensures err { IfErr result (HasCause (Rose (K.faults sink.old) (K.faults sink.new))) }
    ensures later { K.faults sink.old ≤ K.faults sink.new }
{
    let mut kept = Kept::new(alloc);
    match play_main(alloc, app.limits, &app.main.tree, &mut kept, sink) {
        Ok(()) => {}
        Err(fault) => return Err(fault),
    }
    match play_windows(alloc, app.limits, app.windows.as_slice(), &mut kept, sink) {
        Ok(()) => {}
        Err(fault) => return Err(fault),
    }
    Ok(kept)
}

// The main script. Where its world stops it ends.
fn play_main<K: Sink>(
    alloc: Global,
    limits: Limits,
    script: &Tree,
    kept: &mut Kept,
    sink: &mut K,
) -> Result<(), PlayFault>
    requires given { kept.old.pool.given ≤ 16 }
    requires room { length kept.old.pool.maps ≤ 16 }
    requires keeps { (owed : List Owed) × Keeps owed kept.old }
    ensures ok { OnOk result (K.taken sink.new ≡ with_more (main_lines limits script.now) (K.taken sink.old)) }
    ensures keeps { OnOk result ((owed : List Owed) → Keeps owed kept.old → Keeps (owed ++ main_owed limits script.now) kept.new) }
    ensures given { OnOk result (kept.new.pool.given ≤ kept.old.pool.given + 1) }
    ensures room { OnOk result (length kept.new.pool.maps ≤ length kept.old.pool.maps + 1) }
    ensures front { TakesFront (main_lines limits script.now) (K.taken sink.old) (K.taken sink.new) }
    ensures err { IfErr result (HasCause (Rose (K.faults sink.old) (K.faults sink.new))) }
    ensures later { K.faults sink.old ≤ K.faults sink.new }
{
    let main = main_of();
    let stopped = match kept.load(alloc, main, limits, script, sink) {
        Ok(stopped) => stopped,
        Err(fault) => return Err(fault),
    };
    if stopped {
        kept.end_last(alloc);
        return Ok(());
    }
    Ok(())
}

// The windows, ascending.
fn play_windows<K: Sink>(
    alloc: Global,
    limits: Limits,
    windows: &[WindowApp],
    kept: &mut Kept,
    sink: &mut K,
) -> Result<(), PlayFault>
    requires few { length windows.now ≤ 8 }
    requires given { kept.old.pool.given ≤ 1 }
    requires room { length kept.old.pool.maps ≤ 1 }
    requires keeps { (owed : List Owed) × Keeps owed kept.old }
    ensures ok { OnOk result (K.taken sink.new ≡ with_more (windows_lines limits 1 windows.now) (K.taken sink.old)) }
    ensures keeps { OnOk result ((owed : List Owed) → Keeps owed kept.old → Keeps (owed ++ windows_owed limits 1 windows.now) kept.new) }
    ensures front { TakesFront (windows_lines limits 1 windows.now) (K.taken sink.old) (K.taken sink.new) }
    ensures err { IfErr result (HasCause (Rose (K.faults sink.old) (K.faults sink.new))) }
    ensures later { K.faults sink.old ≤ K.faults sink.new }
{
    let mut number = 1;
    'windows: for window in windows {
        match play_window(alloc, number, limits, window, kept, sink) {
            Ok(()) => {}
            Err(fault) => return Err(fault),
        }
        number += 1;
    }
    Ok(())
}

// A window's preload script, and then its page's unless the preload script's world has stopped.
fn play_window<K: Sink>(
    alloc: Global,
    number: u32,
    limits: Limits,
    window: &WindowApp,
    kept: &mut Kept,
    sink: &mut K,
) -> Result<(), PlayFault>
    requires given { kept.old.pool.given ≤ 16 }
    requires room { length kept.old.pool.maps ≤ 16 }
    requires keeps { (owed : List Owed) × Keeps owed kept.old }
    ensures ok { OnOk result (K.taken sink.new ≡ with_more (window_lines limits number window.now) (K.taken sink.old)) }
    ensures keeps { OnOk result ((owed : List Owed) → Keeps owed kept.old → Keeps (owed ++ window_owed limits number window.now) kept.new) }
    ensures given { OnOk result (kept.new.pool.given ≤ kept.old.pool.given + 2) }
    ensures room { OnOk result (length kept.new.pool.maps ≤ length kept.old.pool.maps + 2) }
    ensures front { TakesFront (window_lines limits number window.now) (K.taken sink.old) (K.taken sink.new) }
    ensures err { IfErr result (HasCause (Rose (K.faults sink.old) (K.faults sink.new))) }
    ensures later { K.faults sink.old ≤ K.faults sink.new }
{
    let preload = preload_of(number);
    let preload_stopped = match kept.load(alloc, preload, limits, &window.preload.tree, sink) {
        Ok(stopped) => stopped,
        Err(fault) => return Err(fault),
    };
    if preload_stopped {
        kept.end_last(alloc);
        return Ok(());
    }
    let page = page_of(number);
    let page_stopped = match kept.load(alloc, page, limits, &window.page.tree, sink) {
        Ok(stopped) => stopped,
        Err(fault) => return Err(fault),
    };
    if page_stopped {
        kept.end_last(alloc);
        kept.end_last(alloc);
        return Ok(());
    }
    Ok(())
}

// The name of the main world.
fn main_of() -> WorldName
    ensures { result ≡ main_name }
{
    WorldName::MAIN
}

// The name of a window's preload script's world.
fn preload_of(number: u32) -> WorldName
    ensures { result ≡ preload_name number }
{
    WorldName {
        kind: WorldKind::Preload,
        window: number,
        generation: 1,
    }
}

// The name of a window's page's world.
fn page_of(number: u32) -> WorldName
    ensures { result ≡ page_name number }
{
    WorldName {
        kind: WorldKind::Page,
        window: number,
        generation: 1,
    }
}
