//! The files of an application: read, or refused.
ghost use Rattle.std.specs.Prelude.{◌≡◌, ◌≤◌, [], ◌∷◌, List, ℕ, Option, Some, None, Ok, Err, length, map, flat_map, option_map, IfOk, IfErr, IfSome, MatchResult, string_bytes};
ghost use Rattle.std.specs.Option.{option_map_or};
ghost use Rattle.js_source.specs.Source.{source_of};
ghost use Rattle.wl_causes.specs.Causes.{Rose};
ghost use Rattle.app_manifest.specs.Answer.{said_by};
ghost use Rattle.app_manifest.specs.App.{app_of, app_said, app_checks, bytes_at, file_of, manifest_name, manifest_refusal, required, said_or_default, said_refusal, script_checks, script_refusal, source_refusal, preload_scripts, window_scripts, window_texts};
ghost use Rattle.app_manifest.specs.Clauses.{IsOrMemory, Reads, Refuses, Stops, StopsAt, StopsReading, texts_of, window_read};
ghost use Rattle.app_manifest.specs.Manifest.{said_of};
ghost use Rattle.app_manifest.specs.declared.app.AppFault.{AppFault};
ghost use Rattle.app_manifest.specs.declared.app.AppFault.TheVariants.{Absent, Memory};

use crate::app::{App, AppFault, Script, WindowApp};
use crate::manifest::{default_plan, plan_of_manifest};
use crate::name::FileName;
use crate::plan::{ManifestFault, Plan, WindowPlan};
use js_source::{SourceFault, read_source};
use sqlite_items::Items;
use std::alloc::{AllocError, Global};
use wl_causes::{Folder, FolderFault};

/// The greatest number of bytes of a manifest.
const MANIFEST_LIMIT: u32 = 1_048_576;

/// The greatest number of bytes of a script.
const SCRIPT_LIMIT: u32 = 262_144;

/// Reads the application in the folder `name`: its manifest `name/worlds.json`, then its main script, and then for each
/// window its preload script and its page script, each a file `name/FILE`. Without a manifest the application is
/// `main.js`, with no windows and the default limits.
///
/// It takes time linear in the files, but for the grammar of scripts (see `read_source`) and the order of a manifest's
/// keys.
///
/// # Errors
/// The first refusal in this order of files. Of one file, `Folder` comes first, only where the folder's count of faults
/// rose in this call; then `Absent`, exactly where there is no such file (a manifest may be absent); then `TooLong`,
/// exactly where a manifest has more than 1,048,576 bytes or a script more than 262,144; then what the file holds:
/// `Json` exactly where the manifest isn't JSON, `Shape` exactly where a key of it is broken, `Script` exactly where a
/// script has a fault. `Memory` where memory ran out.
pub fn read_app<F: Folder>(alloc: Global, folder: &mut F, name: &str) -> Result<App, AppFault>
    ensures files { F.files folder.new ≡ F.files folder.old }
    ensures later { F.faults folder.old ≤ F.faults folder.new }
    ensures ok { IfOk result (λ app. IfSome (F.files folder.old) (λ files. app_of files name.now ≡ Ok (texts_of app))) }
    ensures err { IfErr result (Stops name.now (F.files folder.old) (λ files. app_checks files name.now)
        (Rose (F.faults folder.old) (F.faults folder.new))) }
{
    let plan = match read_plan(alloc, folder, name) {
        Ok(plan) => plan,
        Err(fault) => return Err(fault),
    };
    let main = match read_script(alloc, folder, name, &plan.main) {
        Ok(main) => main,
        Err(fault) => return Err(fault),
    };
    let windows = match read_windows(alloc, folder, name, plan.windows.as_slice()) {
        Ok(windows) => windows,
        Err(fault) => return Err(fault),
    };
    Ok(App {
        limits: plan.limits,
        name: plan.main,
        main,
        windows,
    })
}

// What the manifest says.
fn read_plan<F: Folder>(alloc: Global, folder: &mut F, app: &str) -> Result<Plan, AppFault>
    ensures files { F.files folder.new ≡ F.files folder.old }
    ensures later { F.faults folder.old ≤ F.faults folder.new }
    ensures ok { IfOk result (λ plan. IfSome (F.files folder.old) (λ files. (manifest_refusal files (file_of app.now manifest_name) ≡ None)
        × (app_said files app.now ≡ Ok (said_by plan)))) }
    ensures err { IfErr result (StopsAt (F.files folder.old) (λ files. manifest_refusal files (file_of app.now manifest_name))
        (file_of app.now manifest_name) (Rose (F.faults folder.old) (F.faults folder.new))) }
{
    let file = match file_of(alloc, app, "worlds.json") {
        Ok(file) => file,
        Err(_) => return Err(AppFault::Memory),
    };
    match read_plan_of(alloc, folder, file.as_str()) {
        Ok(plan) => Ok(plan),
        Err(fault) => Err(fault),
    }
}

// What the file says as a manifest.
#[tactic(auto, unfolding(crate::specs::App::manifest_refusal, crate::specs::App::optional))]
fn read_plan_of<F: Folder>(alloc: Global, folder: &mut F, file: &str) -> Result<Plan, AppFault>
    ensures files { F.files folder.new ≡ F.files folder.old }
    ensures later { F.faults folder.old ≤ F.faults folder.new }
    ensures ok { IfOk result (λ plan. IfSome (F.files folder.old) (λ files. (manifest_refusal files file.now ≡ None)
        × (said_or_default (files file.now) ≡ Ok (said_by plan)))) }
    ensures err { IfErr result (StopsAt (F.files folder.old) (λ files. manifest_refusal files file.now) file.now
        (Rose (F.faults folder.old) (F.faults folder.new))) }
{
    match read_named(alloc, folder, file, MANIFEST_LIMIT) {
        Ok(None) => match default_plan(alloc) {
            Ok(plan) => Ok(plan),
            Err(_) => Err(AppFault::Memory),
        },
        Ok(Some(bytes)) => match plan_of(alloc, file, bytes.as_slice()) {
            Ok(plan) => Ok(plan),
            Err(fault) => Err(fault),
        },
        Err(fault) => Err(fault),
    }
}

// What the bytes of a manifest say.
fn plan_of(alloc: Global, file: &str, bytes: &[u8]) -> Result<Plan, AppFault>
    ensures { MatchResult result (λ plan. said_of bytes.now ≡ Ok (said_by plan)) (Refuses (said_refusal file.now (said_of bytes.now))) }
{
    match plan_of_manifest(alloc, bytes) {
        Ok(plan) => Ok(plan),
        Err(fault) => Err(refusal_of_manifest(alloc, file, fault)),
    }
}

// Why a manifest is refused.
fn refusal_of_manifest(alloc: Global, file: &str, fault: ManifestFault) -> AppFault
    ensures { Refuses (said_refusal file.now (Err fault)) result }
{
    let Ok(file) = Items::from_slice(alloc, file.as_bytes()) else {
        return AppFault::Memory;
    };
    match fault {
        ManifestFault::Json => AppFault::Json { file },
        ManifestFault::Shape(key) => AppFault::Shape { file, key },
        ManifestFault::Memory => AppFault::Memory,
    }
}

// The scripts of windows.
fn read_windows<F: Folder>(
    alloc: Global,
    folder: &mut F,
    app: &str,
    plans: &[WindowPlan],
) -> Result<Items<WindowApp>, AppFault>
    ensures files { F.files folder.new ≡ F.files folder.old }
    ensures later { F.faults folder.old ≤ F.faults folder.new }
    ensures many { IfOk result (λ windows. length windows ≡ length plans.now) }
    ensures ok { IfOk result (λ windows. Reads (F.files folder.old) app.now (flat_map window_scripts plans.now)
        (λ files. map (window_texts files app.now) plans.now) (map window_read windows)) }
    ensures err { IfErr result (Stops app.now (F.files folder.old) (λ files. script_checks files app.now (flat_map window_scripts plans.now))
        (Rose (F.faults folder.old) (F.faults folder.new))) }
{
    let mut windows = Items::new(alloc);
    'plans: for plan in plans {
        match read_window(alloc, folder, app, plan) {
            Ok(window) => windows.push(window)?,
            Err(fault) => return Err(fault),
        }
    }
    Ok(windows)
}

// The scripts of a window.
fn read_window<F: Folder>(
    alloc: Global,
    folder: &mut F,
    app: &str,
    plan: &WindowPlan,
) -> Result<WindowApp, AppFault>
    ensures files { F.files folder.new ≡ F.files folder.old }
    ensures later { F.faults folder.old ≤ F.faults folder.new }
    ensures ok { IfOk result (λ window. Reads (F.files folder.old) app.now (window_scripts plan.now)
        (λ files. window_texts files app.now plan.now) (window_read window)) }
    ensures err { IfErr result (Stops app.now (F.files folder.old) (λ files. script_checks files app.now (window_scripts plan.now))
        (Rose (F.faults folder.old) (F.faults folder.new))) }
{
    let preload = match read_preload(alloc, folder, app, &plan.preload) {
        Ok(preload) => preload,
        Err(fault) => return Err(fault),
    };
    let page = match read_script(alloc, folder, app, &plan.page) {
        Ok(page) => page,
        Err(fault) => return Err(fault),
    };
    Ok(WindowApp { preload, page })
}

// A preload script, which is empty where none is named.
fn read_preload<F: Folder>(
    alloc: Global,
    folder: &mut F,
    app: &str,
    preload: &Option<FileName>,
) -> Result<Script, AppFault>
    ensures files { F.files folder.new ≡ F.files folder.old }
    ensures later { F.faults folder.old ≤ F.faults folder.new }
    ensures ok { IfOk result (λ script. Reads (F.files folder.old) app.now (preload_scripts preload.now)
        (λ files. option_map_or (bytes_at files app.now) preload.now []) script.bytes) }
    ensures err { IfErr result (Stops app.now (F.files folder.old) (λ files. script_checks files app.now (preload_scripts preload.now))
        (Rose (F.faults folder.old) (F.faults folder.new))) }
{
    match preload {
        Some(name) => match read_script(alloc, folder, app, name) {
            Ok(script) => Ok(script),
            Err(fault) => Err(fault),
        },
        None => match empty_script(alloc) {
            Ok(script) => Ok(script),
            Err(_) => Err(AppFault::Memory),
        },
    }
}

// The script without text.
#[tactic(auto, using(crate::proofs::Empty::empty_source))]
fn empty_script(alloc: Global) -> Result<Script, AllocError>
    ensures { IfOk result (λ script. script.bytes ≡ []) }
{
    match read_source(alloc, &[]) {
        Ok(source) => Ok(Script {
            bytes: Items::new(alloc),
            tree: source.tree,
        }),
        Err(SourceFault::At { .. }) => unreachable!(),
        Err(SourceFault::Memory) => Err(AllocError),
    }
}

// A script by its name.
fn read_script<F: Folder>(
    alloc: Global,
    folder: &mut F,
    app: &str,
    name: &FileName,
) -> Result<Script, AppFault>
    ensures files { F.files folder.new ≡ F.files folder.old }
    ensures later { F.faults folder.old ≤ F.faults folder.new }
    ensures ok { IfOk result (λ script. Reads (F.files folder.old) app.now (name.now ∷ []) (λ files. bytes_at files app.now name.now) script.bytes) }
    ensures err { IfErr result (Stops app.now (F.files folder.old) (λ files. script_checks files app.now (name.now ∷ []))
        (Rose (F.faults folder.old) (F.faults folder.new))) }
{
    let file = match file_of(alloc, app, name.as_str()) {
        Ok(file) => file,
        Err(_) => return Err(AppFault::Memory),
    };
    match read_script_of(alloc, folder, file.as_str()) {
        Ok(script) => Ok(script),
        Err(fault) => Err(fault),
    }
}

// The script of a file.
#[tactic(auto, unfolding(crate::specs::App::script_refusal))]
fn read_script_of<F: Folder>(alloc: Global, folder: &mut F, file: &str) -> Result<Script, AppFault>
    ensures files { F.files folder.new ≡ F.files folder.old }
    ensures later { F.faults folder.old ≤ F.faults folder.new }
    ensures ok { IfOk result (λ script. IfSome (F.files folder.old) (λ files. (script_refusal files file.now ≡ None)
        × (files file.now ≡ Some script.bytes))) }
    ensures err { IfErr result (StopsAt (F.files folder.old) (λ files. script_refusal files file.now) file.now
        (Rose (F.faults folder.old) (F.faults folder.new))) }
{
    let bytes = match read_required(alloc, folder, file, SCRIPT_LIMIT) {
        Ok(bytes) => bytes,
        Err(fault) => return Err(fault),
    };
    match script_of(alloc, file, bytes) {
        Ok(script) => Ok(script),
        Err(fault) => Err(fault),
    }
}

// The script that the bytes are.
fn script_of(alloc: Global, file: &str, bytes: Vec<u8>) -> Result<Script, AppFault>
    requires { length bytes.items ≤ 262_144 }
    ensures ok { IfOk result (λ script. script.bytes ≡ bytes.items) }
    ensures read { IfOk result (λ script. source_refusal file.now (source_of bytes.items) ≡ None) }
    ensures err { IfErr result (Refuses (source_refusal file.now (source_of bytes.items))) }
{
    match read_source(alloc, bytes.as_slice()) {
        Ok(source) => Ok(Script {
            bytes: Items::from_vec(bytes),
            tree: source.tree,
        }),
        Err(fault) => Err(refusal_of_source(alloc, file, fault)),
    }
}

// Why a script is refused.
fn refusal_of_source(alloc: Global, file: &str, fault: SourceFault) -> AppFault
    ensures { Refuses (source_refusal file.now (Err fault)) result }
{
    match fault {
        SourceFault::Memory => AppFault::Memory,
        SourceFault::At { place, kind } => match Items::from_slice(alloc, file.as_bytes()) {
            Ok(file) => AppFault::Script { file, place, kind },
            Err(_) => AppFault::Memory,
        },
    }
}

// A file that must be there, of at most `limit` bytes, whatever is asked of what it holds.
#[tactic(auto, unfolding(crate::specs::App::required))]
fn read_required<F: Folder>(
    alloc: Global,
    folder: &mut F,
    file: &str,
    limit: u32,
) -> Result<Vec<u8>, AppFault>
    ensures files { F.files folder.new ≡ F.files folder.old }
    ensures later { F.faults folder.old ≤ F.faults folder.new }
    ensures short { IfOk result (λ bytes. length bytes.items ≤ limit) }
    ensures found { IfOk result (λ bytes. IfSome (F.files folder.old) (λ files. files file.now ≡ Some bytes.items)) }
    ensures err { IfErr result (λ fault. (contents : List ℕ → Option AppFault)
        → StopsAt (F.files folder.old) (λ files. required file.now limit contents (files file.now)) file.now
        (Rose (F.faults folder.old) (F.faults folder.new)) fault) }
{
    match read_named(alloc, folder, file, limit) {
        Ok(Some(bytes)) => Ok(bytes),
        Ok(None) => Err(absent(alloc, file)),
        Err(fault) => Err(fault),
    }
}

// A file, where there is one.
fn read_named<F: Folder>(
    alloc: Global,
    folder: &mut F,
    name: &str,
    limit: u32,
) -> Result<Option<Vec<u8>>, AppFault>
    ensures files { F.files folder.new ≡ F.files folder.old }
    ensures later { F.faults folder.old ≤ F.faults folder.new }
    ensures found { IfOk result (λ found. IfSome (F.files folder.old) (λ files. files name.now ≡ option_map (λ bytes. bytes.items) found)) }
    ensures short { IfOk result (λ found. IfSome found (λ bytes. length bytes.items ≤ limit)) }
    ensures err { IfErr result (StopsReading (F.files folder.old) name.now limit (Rose (F.faults folder.old) (F.faults folder.new))) }
{
    match folder.read(alloc, name, limit) {
        Ok(found) => Ok(found),
        Err(FolderFault::Failed) => {
            let file = Items::from_slice(alloc, name.as_bytes())?;
            Err(AppFault::Folder { file })
        }
        Err(FolderFault::TooLong) => {
            let file = Items::from_slice(alloc, name.as_bytes())?;
            Err(AppFault::TooLong { file, limit })
        }
        Err(FolderFault::Memory) => Err(AppFault::Memory),
    }
}

// A file that isn't there.
fn absent(alloc: Global, name: &str) -> AppFault
    ensures { IsOrMemory result (Absent name.now) }
{
    match Items::from_slice(alloc, name.as_bytes()) {
        Ok(file) => AppFault::Absent { file },
        Err(_) => AppFault::Memory,
    }
}

// The name of a file of an application.
#[tactic(auto, unfolding(crate::specs::App::file_of))]
fn file_of(alloc: Global, app: &str, name: &str) -> Result<String, AllocError>
    ensures { IfOk result (λ file. string_bytes file ≡ file_of app.now name.now) }
{
    let file = format!(in alloc; "{app}/{name}")?;
    Ok(file)
}
