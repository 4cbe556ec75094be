//! The files of a command: read, or refused.
ghost use Rattle.std.specs.Prelude.{◌≡◌, ◌≤◌, ◌<◌, List, ℕ, Option, Some, None, Ok, Err, length, option_map, IfOk, IfErr, IfSome, OnOk, string_bytes};
ghost use Rattle.app_engine.specs.Log.{log_of};
ghost use Rattle.app_engine.specs.Scripts.{application_spelled};
ghost use Rattle.app_manifest.specs.Clauses.{texts_of};
ghost use Rattle.event_script.specs.Script.{script};
ghost use Rattle.wl_causes.specs.Causes.{Rose};
ghost use Rattle.world_log.specs.Print.{printed_log};
ghost use Rattle.worlds_cli.specs.Answer.{answer_to, required, events_refusal, line_refusal, has_lines, is_eventful, fault_status};
ghost use Rattle.worlds_cli.specs.Clauses.{Stops, StopsAt};
ghost use Rattle.worlds_cli.specs.Command.{run};
ghost use Rattle.worlds_cli.specs.Reading.{StopsReading, IsOrMemory, IsWrongLine};
ghost use Rattle.worlds_cli.specs.declared.status.Status.{Status};
ghost use Rattle.worlds_cli.specs.declared.status.Status.TheVariants.{Absent, Script};
ghost use Rattle.worlds_cli.specs.declared.status.ScriptKind.TheVariants.{NotBuilt};

use crate::status::{ScriptKind, Status};
use app_manifest::{App, AppFault, read_app};
use event_script::{LineFault, read_script};
use sqlite_items::Items;
use std::alloc::Global;
use wl_causes::{Folder, FolderFault};

/// The greatest number of bytes of an event script.
const FILE_LIMIT: u32 = 1_048_576;

/// The application that `run` plays, or the first refusal of its files: those of the application in their order, the event
/// script, and then the event script where it has a line with an effect.
pub fn read_run<F: Folder>(
    alloc: Global,
    folder: &mut F,
    app: &str,
    script: &str,
) -> Result<App, Status>
    ensures later { F.faults folder.old ≤ F.faults folder.new }
    ensures ok { IfOk result (λ read. IfSome (F.files folder.old)
        (λ files. answer_to files (run app.now script.now) ≡ Ok (printed_log (log_of (application_spelled (texts_of read)))))) }
    ensures err { IfErr result (Stops (F.files folder.old) (run app.now script.now) (Rose (F.faults folder.old) (F.faults folder.new))) }
{
    let read = match read_app(alloc, folder, app) {
        Ok(read) => read,
        Err(fault) => return Err(status_of(fault)),
    };
    let eventful = match read_events(alloc, folder, script) {
        Ok(eventful) => eventful,
        Err(status) => return Err(status),
    };
    if eventful {
        return Err(not_built(alloc, script));
    }
    Ok(read)
}

// The refusal of an application, as a status.
fn status_of(fault: AppFault) -> Status
    ensures { result ≡ fault_status fault }
{
    match fault {
        AppFault::Folder { file } => Status::FolderFault { file },
        AppFault::Absent { file } => Status::Absent { file },
        AppFault::TooLong { file, limit } => Status::TooLong { file, limit },
        AppFault::Json { file } => Status::Json { file },
        AppFault::Shape { file, key } => Status::Shape { file, key },
        AppFault::Script { file, place, kind } => Status::Script {
            file,
            place,
            kind: ScriptKind::Source(kind),
        },
        AppFault::Memory => Status::Memory,
    }
}

// Whether a line of the event script has an effect.
#[tactic(auto, unfolding(crate::specs::Answer::events_refusal))]
fn read_events<F: Folder>(alloc: Global, folder: &mut F, name: &str) -> Result<bool, Status>
    ensures files { F.files folder.new ≡ F.files folder.old }
    ensures later { F.faults folder.old ≤ F.faults folder.new }
    ensures ok { IfOk result (λ eventful. IfSome (F.files folder.old) (λ files. (events_refusal files name.now ≡ None)
        × (is_eventful files name.now ≡ eventful))) }
    ensures err { IfErr result (StopsAt (option_map (λ files. events_refusal files name.now) (F.files folder.old)) name.now
        (Rose (F.faults folder.old) (F.faults folder.new))) }
{
    let bytes = match read_required(alloc, folder, name, FILE_LIMIT) {
        Ok(bytes) => bytes,
        Err(status) => return Err(status),
    };
    match has_lines(alloc, name, bytes.as_slice()) {
        Ok(eventful) => Ok(eventful),
        Err(status) => Err(status),
    }
}

// Whether a line of these bytes has an effect.
fn has_lines(alloc: Global, name: &str, bytes: &[u8]) -> Result<bool, Status>
    requires { length bytes.now ≤ 1_048_576 }
    ensures none { IfOk result (λ eventful. line_refusal name.now (script bytes.now) ≡ None) }
    ensures some { IfOk result (λ eventful. has_lines (script bytes.now) ≡ eventful) }
    ensures err { IfErr result (IsWrongLine (script bytes.now) name.now) }
{
    let lines = match read_script(alloc, bytes) {
        Ok(lines) => lines,
        Err(LineFault::At { number }) => return Err(wrong_line(alloc, name, number)),
        Err(LineFault::Memory) => return Err(Status::Memory),
    };
    Ok(!lines.is_empty())
}

// A wrong line.
fn wrong_line(alloc: Global, name: &str, number: u32) -> Status
    ensures { IsWrongLine (Err number) name.now result }
{
    match Items::from_slice(alloc, name.as_bytes()) {
        Ok(file) => Status::Line { file, number },
        Err(_) => Status::Memory,
    }
}

/// A file that must be there, of at most `limit` bytes, whatever is asked of what it holds.
#[tactic(auto, unfolding(crate::specs::Answer::required))]
pub fn read_required<F: Folder>(
    alloc: Global,
    folder: &mut F,
    name: &str,
    limit: u32,
) -> Result<Vec<u8>, Status>
    ensures files { F.files folder.new ≡ F.files folder.old }
    ensures later { F.faults folder.old ≤ F.faults folder.new }
    ensures short { IfOk result (λ bytes. length bytes.items ≤ limit) }
    ensures found { IfOk result (λ bytes. IfSome (F.files folder.old) (λ files. files name.now ≡ Some bytes.items)) }
    ensures err { IfErr result (λ status. (contents : List ℕ → Option Status)
        → StopsAt (option_map (λ files. required name.now limit contents (files name.now)) (F.files folder.old)) name.now
        (Rose (F.faults folder.old) (F.faults folder.new)) status) }
{
    match read_named(alloc, folder, name, limit) {
        Ok(Some(bytes)) => Ok(bytes),
        Ok(None) => Err(absent(alloc, name)),
        Err(status) => Err(status),
    }
}

// A file, where there is one.
fn read_named<F: Folder>(
    alloc: Global,
    folder: &mut F,
    name: &str,
    limit: u32,
) -> Result<Option<Vec<u8>>, Status>
    ensures files { F.files folder.new ≡ F.files folder.old }
    ensures later { F.faults folder.old ≤ F.faults folder.new }
    ensures found { IfOk result (λ found. IfSome (F.files folder.old) (λ files. files name.now ≡ option_map (λ bytes. bytes.items) found)) }
    ensures short { IfOk result (λ found. IfSome found (λ bytes. length bytes.items ≤ limit)) }
    ensures err { IfErr result (StopsReading (F.files folder.old) name.now limit (Rose (F.faults folder.old) (F.faults folder.new))) }
{
    match folder.read(alloc, name, limit) {
        Ok(found) => Ok(found),
        Err(FolderFault::Failed) => {
            let file = Items::from_slice(alloc, name.as_bytes())?;
            Err(Status::FolderFault { file })
        }
        Err(FolderFault::TooLong) => {
            let file = Items::from_slice(alloc, name.as_bytes())?;
            Err(Status::TooLong { file, limit })
        }
        Err(FolderFault::Memory) => Err(Status::Memory),
    }
}

// A file that can't be played yet.
fn not_built(alloc: Global, name: &str) -> Status
    ensures { IsOrMemory result (Script name.now 0 NotBuilt) }
{
    match Items::from_slice(alloc, name.as_bytes()) {
        Ok(file) => Status::Script {
            file,
            place: 0,
            kind: ScriptKind::NotBuilt,
        },
        Err(_) => Status::Memory,
    }
}

// A file that isn't there.
fn absent(alloc: Global, name: &str) -> Status
    ensures { IsOrMemory result (Absent name.now) }
{
    match Items::from_slice(alloc, name.as_bytes()) {
        Ok(file) => Status::Absent { file },
        Err(_) => Status::Memory,
    }
}
