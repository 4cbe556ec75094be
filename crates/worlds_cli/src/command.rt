//! The top call.
ghost use Rattle.std.specs.Prelude.{◌≡◌, ◌⊎◌, ◌≤◌, List, ℕ, Some, None, Ok, Err, IfSome};
ghost use Rattle.wl_causes.specs.Causes.{Rose};
ghost use Rattle.wl_causes.specs.Taking.{with_more, TakesFront};
ghost use Rattle.worlds_cli.specs.Answer.{answer, text_of, status_of};
ghost use Rattle.worlds_cli.specs.Clauses.{Ends, IsReachedBy, TakesPart, TellsAnswer, Refuses};
ghost use Rattle.worlds_cli.specs.Command.{Command, command_of, spelled, run, convert};
ghost use Rattle.worlds_cli.specs.Text.{told};
ghost use Rattle.worlds_cli.specs.declared.status.ScriptKind.{ScriptKind};
ghost use Rattle.worlds_cli.specs.declared.status.Status.TheVariants.{Done, Memory, Words, FolderFault, Absent, Json, Shape, Script, Line, SinkFault, Wire, TooLong};
ghost use Rattle.v8_wire.specs.declared.kind.WireKind.{WireKind};

use crate::converting::read_converted;
use crate::reading::read_run;
use crate::status::Status;
use crate::words::{Asked, Conversion, asked_of};
use crate::writing::{tell, write_line, write_log};
use std::alloc::Global;
use wl_causes::{Folder, Sink};

/// Does what the words of a command line ask: `run APP SCRIPT` plays the application of the folder `APP` over the event
/// script `SCRIPT`, and writes the printed log; `wire FILE` writes the bytes of V8's message of a JSON value in
/// hexadecimal digits; `unwire FILE` writes what the bytes of such a message spell. A refusal is told by one line and by its status. Where folder and sink
/// tell nothing, as the real ones, the clauses speak of causes alone. It takes time and memory linear in the files and
/// in the log; each line of the log is written as it is made.
pub fn worlds<F: Folder, K: Sink>(
    alloc: Global,
    words: &[String],
    folder: &mut F,
    sink: &mut K,
) -> Status
    // With status 0 the bytes taken are the text of the answer: of `run` the printed log, of `wire` the hexadecimal text
    // of the spelling of the value's parcel, of `unwire` the text of the parcel that the bytes spell.
    ensures done { result ≡ Done → IfSome (F.files folder.old) (λ files. (text : List ℕ)
        × (answer files (spelled words.now) ≡ Ok text) × (K.taken sink.new ≡ with_more text (K.taken sink.old))) }

    // Each refusal comes exactly where it is the answer's, in the order of refusals.
    ensures words { result ≡ Words → command_of (spelled words.now) ≡ None }
    ensures json { (file : List ℕ) → result ≡ Json file
        → IfSome (F.files folder.old) (λ files. answer files (spelled words.now) ≡ Err (Json file)) }
    ensures shape { (file key : List ℕ) → result ≡ Shape file key
        → IfSome (F.files folder.old) (λ files. answer files (spelled words.now) ≡ Err (Shape file key)) }
    ensures wire { (place : ℕ) (kind : WireKind) → result ≡ Wire place kind
        → IfSome (F.files folder.old) (λ files. answer files (spelled words.now) ≡ Err (Wire place kind)) }
    ensures absent { (file : List ℕ) → result ≡ Absent file
        → IfSome (F.files folder.old) (λ files. answer files (spelled words.now) ≡ Err (Absent file)) }
    ensures script { (file : List ℕ) (place : ℕ) (kind : ScriptKind) → result ≡ Script file place kind
        → IfSome (F.files folder.old) (λ files. answer files (spelled words.now) ≡ Err (Script file place kind)) }
    ensures line { (file : List ℕ) (number : ℕ) → result ≡ Line file number
        → IfSome (F.files folder.old) (λ files. answer files (spelled words.now) ≡ Err (Line file number)) }
    ensures long { (file : List ℕ) (limit : ℕ) → result ≡ TooLong file limit
        → IfSome (F.files folder.old) (λ files. answer files (spelled words.now) ≡ Err (TooLong file limit)) }

    // The folder or the sink failed in this call; no file before the named one is refused.
    ensures folder { (file : List ℕ) → result ≡ FolderFault file → Rose (F.faults folder.old) (F.faults folder.new)
        × IsReachedBy (F.files folder.old) (spelled words.now) file }
    ensures sink { result ≡ SinkFault → Rose (K.faults sink.old) (K.faults sink.new) }

    // After want of memory or a fault of the sink a front of the text was taken.
    ensures part_memory { result ≡ Memory → TakesPart (F.files folder.old) (spelled words.now)
        (Rose (F.faults folder.old) (F.faults folder.new)) (K.taken sink.old) (K.taken sink.new) }
    ensures part_sink { result ≡ SinkFault → TakesPart (F.files folder.old) (spelled words.now)
        (Rose (F.faults folder.old) (F.faults folder.new)) (K.taken sink.old) (K.taken sink.new) }

    // With every other status what was taken is the line that tells it.
    ensures told { TellsAnswer result (K.taken sink.old) (K.taken sink.new) }

    // Where neither count rises, the status is the answer's, or memory ran out.
    ensures complete { IfSome (F.files folder.old) (λ files. (Rose (F.faults folder.old) (F.faults folder.new) → ⊥)
        → (Rose (K.faults sink.old) (K.faults sink.new) → ⊥)
        → (result ≡ status_of (answer files (spelled words.now))) ⊎ (result ≡ Memory)) }
{
    answer_words(alloc, words, folder, sink)
}

// The same, with all that is said of an ending in one fact.
fn answer_words<F: Folder, K: Sink>(
    alloc: Global,
    words: &[String],
    folder: &mut F,
    sink: &mut K,
) -> Status
    ensures { Ends (F.files folder.old) (spelled words.now) (Rose (F.faults folder.old) (F.faults folder.new))
        (Rose (K.faults sink.old) (K.faults sink.new)) result (K.taken sink.old) (K.taken sink.new) }
{
    match asked_of(words) {
        Asked::Run(app, script) => return play(alloc, app, script, folder, sink),
        Asked::Convert(conversion, file) => {
            return convert_file(alloc, conversion, file, folder, sink);
        }
        Asked::Nothing => {}
    }
    match tell(alloc, &Status::Words, sink) {
        Ok(()) => {}
        Err(status) => return status,
    }
    Status::Words
}

// Plays an application over an event script.
fn play<F: Folder, K: Sink>(
    alloc: Global,
    app: &str,
    script: &str,
    folder: &mut F,
    sink: &mut K,
) -> Status
    ensures { (words : List (List ℕ)) → command_of words ≡ Some (run app.now script.now)
        → Ends (F.files folder.old) words (Rose (F.faults folder.old) (F.faults folder.new))
        (Rose (K.faults sink.old) (K.faults sink.new)) result (K.taken sink.old) (K.taken sink.new) }
{
    let read = match read_run(alloc, folder, app, script) {
        Ok(read) => read,
        Err(refusal) => return refuse(alloc, refusal, sink),
    };
    match write_log(alloc, &read, sink) {
        Ok(()) => {}
        Err(status) => return status,
    }
    Status::Done
}

// Writes the text of a file's conversion.
fn convert_file<F: Folder, K: Sink>(
    alloc: Global,
    conversion: Conversion,
    file: &str,
    folder: &mut F,
    sink: &mut K,
) -> Status
    ensures { (words : List (List ℕ)) → command_of words ≡ Some (convert conversion file.now)
        → Ends (F.files folder.old) words (Rose (F.faults folder.old) (F.faults folder.new))
        (Rose (K.faults sink.old) (K.faults sink.new)) result (K.taken sink.old) (K.taken sink.new) }
{
    let line = match read_converted(alloc, folder, conversion, file) {
        Ok(line) => line,
        Err(refusal) => return refuse(alloc, refusal, sink),
    };
    match write_line(sink, line.as_slice()) {
        Ok(()) => {}
        Err(status) => return status,
    }
    Status::Done
}

// Tells a refusal.
fn refuse<K: Sink>(alloc: Global, refusal: Status, sink: &mut K) -> Status
    ensures { Refuses refusal (Rose (K.faults sink.old) (K.faults sink.new)) result (K.taken sink.old) (K.taken sink.new) }
{
    match tell(alloc, &refusal, sink) {
        Ok(()) => {}
        Err(status) => return status,
    }
    refusal
}
