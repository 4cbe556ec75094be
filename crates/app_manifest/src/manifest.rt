//! The manifest.
ghost use Rattle.std.specs.Prelude.{◌≡◌, ◌≤◌, Some, true, codes, length, IfOk};
ghost use Rattle.std.specs.Option.{unwrap_or};
ghost use Rattle.serde_json.specs.Find.{get};
ghost use Rattle.serde_json.specs.View.{view, items_view};
ghost use Rattle.app_manifest.specs.Manifest.{all_objects, are_windows, window_broken, window_said, windows_broken, windows_broken_in, windows_said, each_window_broken, each_window_said, limits_broken, limits_said, each_limit_broken, each_limit_said, default_limits, first_broken_key, object_broken, object_said, said_of, said_in_value, said_by_none};
ghost use Rattle.app_manifest.specs.Answer.{Says, PlanAnswers, itself, said_by};
ghost use Rattle.world_heap.specs.Bounded.{bounds_of};

use crate::keys::{broken, limit, optional_name, refuse_unknown, required_name};
use crate::name::FileName;
use crate::plan::{ManifestFault, Place, Plan, WindowPlan};
use serde_json::Value;
use sqlite_items::Items;
use std::alloc::{AllocError, Global};
use world_heap::Limits;

/// The greatest number of windows of an application.
const WINDOWS: usize = 8;

/// The greatest limits, which stand where a manifest names none.
#[tactic(auto, unfolding(crate::specs::Manifest::default_limits))]
pub fn default_limits() -> Limits
    ensures { bounds_of result ≡ default_limits }
{
    Limits {
        steps: 1_000_000,
        cells: 250_000,
        places: 1_000_000,
        units: 16_777_216,
        depth: 1_000,
    }
}

// A window: its preload script may be left out, its page script must be there.
#[tactic(auto, unfolding(crate::specs::Manifest::window_broken, crate::specs::Manifest::window_said))]
fn window_of(alloc: Global, at: usize, window: &Value) -> Result<WindowPlan, ManifestFault>
    ensures { Says itself result (window_broken at (view window.now)) (window_said (view window.now)) }
{
    let place = Place::Window(at);
    let preload = match optional_name(alloc, place, "preload", window) {
        Ok(preload) => preload,
        Err(fault) => return Err(fault),
    };
    let page = match required_name(alloc, place, "page", window) {
        Ok(page) => page,
        Err(fault) => return Err(fault),
    };
    match refuse_unknown(alloc, place, window) {
        Ok(()) => {}
        Err(fault) => return Err(fault),
    }
    Ok(WindowPlan { preload, page })
}

// Whether all values are objects.
fn all_objects(values: &[Value]) -> bool
    ensures { result ≡ all_objects (items_view values.now) }
{
    'values: for value in values {
        if !value.is_object() {
            return false;
        }
    }
    true
}

// The windows of a list of objects.
fn each_window_of(alloc: Global, windows: &[Value]) -> Result<Items<WindowPlan>, ManifestFault>
    ensures exact { Says itself result (each_window_broken 0 (items_view windows.now)) (each_window_said (items_view windows.now)) }
    ensures many { IfOk result (λ plans. length plans ≡ length windows.now) }
{
    let mut plans = Items::new(alloc);
    'windows: for window in windows {
        match window_of(alloc, plans.len(), window) {
            Ok(plan) => plans.push(plan)?,
            Err(fault) => return Err(fault),
        }
    }
    Ok(plans)
}

// Whether there are at most eight windows, all objects.
#[tactic(auto, unfolding(crate::specs::Manifest::are_windows), using(crate::proofs::Walking::count_is))]
fn are_windows(windows: &[Value]) -> bool
    ensures many { result ≡ are_windows (items_view windows.now) }
    ensures few { result ≡ true → length windows.now ≤ 8 }
{
    windows.len() <= WINDOWS && all_objects(windows)
}

// The windows of a list.
#[tactic(auto, unfolding(crate::specs::Manifest::windows_broken_in, crate::specs::Manifest::key_in))]
fn listed_windows(alloc: Global, windows: &[Value]) -> Result<Items<WindowPlan>, ManifestFault>
    ensures exact { Says itself result (windows_broken_in (Some (items_view windows.now))) (each_window_said (items_view windows.now)) }
    ensures few { IfOk result (λ plans. length plans ≤ 8) }
{
    if !are_windows(windows) {
        return Err(broken(alloc, Place::Top, "windows"));
    }
    match each_window_of(alloc, windows) {
        Ok(plans) => Ok(plans),
        Err(fault) => Err(fault),
    }
}

// The windows of a manifest, none where it names none.
#[tactic(auto, unfolding(crate::specs::Manifest::windows_broken, crate::specs::Manifest::windows_said, crate::specs::Manifest::windows_broken_in, crate::specs::Manifest::key_in))]
fn windows_of(alloc: Global, manifest: &Value) -> Result<Items<WindowPlan>, ManifestFault>
    ensures exact { Says itself result (windows_broken (get (codes "windows") (view manifest.now))) (windows_said (get (codes "windows") (view manifest.now))) }
    ensures few { IfOk result (λ plans. length plans ≤ 8) }
{
    let Some(value) = manifest.get("windows") else {
        return Ok(Items::new(alloc));
    };
    let Some(windows) = value.as_array() else {
        return Err(broken(alloc, Place::Top, "windows"));
    };
    match listed_windows(alloc, windows.as_slice()) {
        Ok(plans) => Ok(plans),
        Err(fault) => Err(fault),
    }
}

// The limits of an object.
#[tactic(auto, unfolding(crate::specs::Manifest::each_limit_broken, crate::specs::Manifest::each_limit_said))]
fn each_limit_of(alloc: Global, limits: &Value) -> Result<Limits, ManifestFault>
    ensures { Says bounds_of result (each_limit_broken (view limits.now)) (each_limit_said (view limits.now)) }
{
    let steps = match limit(alloc, "steps", 1_000_000, limits) {
        Ok(steps) => steps,
        Err(fault) => return Err(fault),
    };
    let cells = match limit(alloc, "cells", 250_000, limits) {
        Ok(cells) => cells,
        Err(fault) => return Err(fault),
    };
    let places = match limit(alloc, "places", 1_000_000, limits) {
        Ok(places) => places,
        Err(fault) => return Err(fault),
    };
    let units = match limit(alloc, "units", 16_777_216, limits) {
        Ok(units) => units,
        Err(fault) => return Err(fault),
    };
    let depth = match limit(alloc, "depth", 1_000, limits) {
        Ok(depth) => depth as u32,
        Err(fault) => return Err(fault),
    };
    match refuse_unknown(alloc, Place::Limit, limits) {
        Ok(()) => {}
        Err(fault) => return Err(fault),
    }
    Ok(Limits {
        steps,
        cells,
        places,
        units,
        depth,
    })
}

// The limits of a manifest, the defaults where it names none.
#[tactic(auto, unfolding(crate::specs::Manifest::limits_broken, crate::specs::Manifest::limits_said, crate::specs::Manifest::key_in))]
fn limits_of(alloc: Global, manifest: &Value) -> Result<Limits, ManifestFault>
    ensures { Says bounds_of result (limits_broken (get (codes "limits") (view manifest.now))) (limits_said (get (codes "limits") (view manifest.now))) }
{
    let Some(value) = manifest.get("limits") else {
        return Ok(default_limits());
    };
    if !value.is_object() {
        return Err(broken(alloc, Place::Top, "limits"));
    }
    match each_limit_of(alloc, value) {
        Ok(limits) => Ok(limits),
        Err(fault) => Err(fault),
    }
}

// The name of the main script.
#[tactic(auto, unfolding(crate::specs::Names::is_file_name))]
fn main_or_default(alloc: Global, main: Option<FileName>) -> Result<FileName, AllocError>
    ensures { IfOk result (λ name. name ≡ unwrap_or main (codes "main.js")) }
{
    match main {
        Some(name) => Ok(name),
        None => match FileName::of_text(alloc, "main.js")? {
            Some(name) => Ok(name),
            None => unreachable!(),
        },
    }
}

// What an object says.
#[tactic(auto, unfolding(crate::specs::Manifest::object_broken, crate::specs::Manifest::object_said))]
fn object_of(alloc: Global, manifest: &Value) -> Result<Plan, ManifestFault>
    ensures { Says said_by result (object_broken (view manifest.now)) (object_said (view manifest.now)) }
{
    let main = match optional_name(alloc, Place::Top, "main", manifest) {
        Ok(main) => main,
        Err(fault) => return Err(fault),
    };
    let windows = match windows_of(alloc, manifest) {
        Ok(windows) => windows,
        Err(fault) => return Err(fault),
    };
    let limits = match limits_of(alloc, manifest) {
        Ok(limits) => limits,
        Err(fault) => return Err(fault),
    };
    match refuse_unknown(alloc, Place::Top, manifest) {
        Ok(()) => {}
        Err(fault) => return Err(fault),
    }
    let main = match main_or_default(alloc, main) {
        Ok(main) => main,
        Err(_) => return Err(ManifestFault::Memory),
    };
    Ok(Plan {
        main,
        windows,
        limits,
    })
}

// What a value says.
#[tactic(auto, unfolding(crate::specs::Manifest::said_in_value, crate::specs::Manifest::first_broken_key, crate::specs::Manifest::key_in))]
fn plan_of_value(alloc: Global, value: &Value) -> Result<Plan, ManifestFault>
    ensures { PlanAnswers result (said_in_value (view value.now)) }
{
    if !value.is_object() {
        return Err(broken(alloc, Place::Top, "."));
    }
    match object_of(alloc, value) {
        Ok(plan) => Ok(plan),
        Err(fault) => Err(fault),
    }
}

/// The plan where there is no manifest.
#[tactic(auto, unfolding(crate::specs::Manifest::said_by_none))]
pub fn default_plan(alloc: Global) -> Result<Plan, AllocError>
    ensures { IfOk result (λ plan. said_by plan ≡ said_by_none) }
{
    let main = main_or_default(alloc, None)?;
    Ok(Plan {
        main,
        windows: Items::new(alloc),
        limits: default_limits(),
    })
}

/// What the bytes of a manifest say: the script files of an application, each a file name, and its limits. It takes
/// time linear in the bytes, and a logarithm more for the order of keys.
///
/// # Errors
/// `Json` exactly where the bytes aren't UTF-8 or `serde_json` doesn't read them for another cause than memory; else
/// `Shape` with the first broken key, exactly where a key is broken; `Memory` where memory ran out.
pub fn plan_of_manifest(alloc: Global, bytes: &[u8]) -> Result<Plan, ManifestFault>
    ensures { PlanAnswers result (said_of bytes.now) }
{
    match Value::from_slice(alloc, bytes) {
        Ok(value) => plan_of_value(alloc, &value),
        Err(error) => {
            if error.is_memory() {
                return Err(ManifestFault::Memory);
            }
            Err(ManifestFault::Json)
        }
    }
}
