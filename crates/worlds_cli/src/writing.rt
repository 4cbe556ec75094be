//! The output of a command: written whole, or a front of it.
ghost use Rattle.std.specs.Prelude.{◌≡◌, ◌≤◌, ◌++◌, ◌∷◌, [], codes, IfErr, IfOk, OnOk};
ghost use Rattle.wl_causes.specs.Causes.{Rose};
ghost use Rattle.wl_causes.specs.Taking.{with_more, TakesFront};
ghost use Rattle.app_engine.specs.Log.{log_of};
ghost use Rattle.app_engine.specs.Scripts.{application_spelled};
ghost use Rattle.app_manifest.specs.Clauses.{texts_of};
ghost use Rattle.world_log.specs.Print.{printed_log};
ghost use Rattle.worlds_cli.specs.Clauses.{IsOfWriting};
ghost use Rattle.worlds_cli.specs.Text.{told, kind_word, wire_word};

use crate::status::{ScriptKind, Status};
use app_engine::{PlayFault, play};
use app_manifest::App;
use sqlite_items::Items;
use std::alloc::{AllocError, Global};
use v8_wire::WireKind;
use wl_causes::{Sink, write_whole};

/// Plays an application, and writes its printed log, each line as soon as its item is made. What is kept of the
/// application is let go.
#[tactic(auto, using(crate::proofs::Playing::all_played, crate::proofs::Playing::front_played))]
pub fn write_log<K: Sink>(alloc: Global, app: &App, sink: &mut K) -> Result<(), Status>
    ensures ok { OnOk result (K.taken sink.new ≡ with_more (printed_log (log_of (application_spelled (texts_of app.now)))) (K.taken sink.old)) }
    ensures front { TakesFront (printed_log (log_of (application_spelled (texts_of app.now)))) (K.taken sink.old) (K.taken sink.new) }
    ensures err { IfErr result (IsOfWriting (Rose (K.faults sink.old) (K.faults sink.new))) }
    ensures later { K.faults sink.old ≤ K.faults sink.new }
{
    match play(alloc, app, sink) {
        Ok(_) => {}
        Err(PlayFault::Memory) => return Err(Status::Memory),
        Err(PlayFault::Sink) => return Err(Status::SinkFault),
    }
    Ok(())
}

/// Writes the line that tells a refusal.
#[tactic(auto, unfolding(crate::specs::Text::told))]
pub fn tell<K: Sink>(alloc: Global, status: &Status, sink: &mut K) -> Result<(), Status>
    ensures ok { OnOk result (K.taken sink.new ≡ with_more (told status.now) (K.taken sink.old)) }
    ensures front { TakesFront (told status.now) (K.taken sink.old) (K.taken sink.new) }
    ensures err { IfErr result (IsOfWriting (Rose (K.faults sink.old) (K.faults sink.new))) }
{
    let line = match told_line(alloc, status) {
        Ok(line) => line,
        Err(_) => return Err(Status::Memory),
    };
    match write_line(sink, line.as_slice()) {
        Ok(()) => {}
        Err(status) => return Err(status),
    }
    Ok(())
}

// The line that tells a refusal.
#[tactic(auto, unfolding(crate::specs::Text::told))]
fn told_line(alloc: Global, status: &Status) -> Result<Vec<u8>, AllocError>
    ensures { IfOk result (λ line. line.items ≡ told status.now) }
{
    let mut line = Vec::new(alloc);
    match status {
        Status::Done | Status::Memory | Status::SinkFault => {}
        Status::Words => line.extend_from_slice(b"! words\n")?,
        Status::FolderFault { file } => push_file(&mut line, b"! read ", file, b"\n")?,
        Status::Absent { file } => push_file(&mut line, b"! absent ", file, b"\n")?,
        Status::Script { file, place, kind } => {
            let place = *place;
            let word = word_of(*kind);
            let rest = format!(in alloc; " {place} {word}\n")?;
            push_file(&mut line, b"! script ", file, rest.as_bytes())?;
        }
        Status::Line { file, number } => {
            let number = *number;
            let rest = format!(in alloc; " {number}\n")?;
            push_file(&mut line, b"! line ", file, rest.as_bytes())?;
        }
        Status::Json { file } => push_file(&mut line, b"! json ", file, b"\n")?,
        Status::Shape { file, key } => push_shape(&mut line, file, key)?,
        Status::Wire { place, kind } => {
            let place = *place;
            let word = wire_word_of(*kind);
            let rest = format!(in alloc; "! wire {place} {word}\n")?;
            line.extend_from_slice(rest.as_bytes())?;
        }
        Status::TooLong { file, limit } => {
            let limit = *limit;
            let rest = format!(in alloc; " {limit}\n")?;
            push_file(&mut line, b"! long ", file, rest.as_bytes())?;
        }
    }
    Ok(line)
}

// A file's name between two texts.
fn push_file(
    line: &mut Vec<u8>,
    front: &[u8],
    file: &Items<u8>,
    back: &[u8],
) -> Result<(), AllocError>
    ensures { OnOk result (line.new.items ≡ line.old.items ++ (front.now ++ (file.now ++ back.now))) }
{
    line.extend_from_slice(front)?;
    line.extend_from_slice(file.as_slice())?;
    line.extend_from_slice(back)?;
    Ok(())
}

// The line of a broken key.
fn push_shape(line: &mut Vec<u8>, file: &Items<u8>, key: &Items<u8>) -> Result<(), AllocError>
    ensures { OnOk result (line.new.items ≡ line.old.items ++ (codes "! shape " ++ (file.now ++ (32 ∷ key.now ++ 10 ∷ [])))) }
{
    push_file(line, b"! shape ", file, b" ")?;
    line.extend_from_slice(key.as_slice())?;
    line.push(b'\n')?;
    Ok(())
}

// The word of a reason.
fn word_of(kind: ScriptKind) -> &'static str
    ensures { result.now ≡ kind_word kind }
{
    match kind {
        ScriptKind::NotBuilt => "notbuilt",
        ScriptKind::Source(kind) => kind.word(),
    }
}

// The word of what is wrong with the bytes of a message.
#[tactic(auto, unfolding(crate::specs::Text::wire_word))]
fn wire_word_of(kind: WireKind) -> &'static str
    ensures { result.now ≡ wire_word kind }
{
    match kind {
        WireKind::Header => "header",
        WireKind::Version => "version",
        WireKind::Cut => "cut",
        WireKind::Tag => "tag",
        WireKind::Varint => "varint",
        WireKind::Reference => "reference",
        WireKind::Count => "count",
        WireKind::Number => "number",
        WireKind::Text => "text",
        WireKind::Hole => "hole",
        WireKind::Key => "key",
        WireKind::Trailing => "trailing",
        WireKind::TooLarge => "toolarge",
        WireKind::View => "view",
    }
}

/// A line, written whole or a front of it.
pub fn write_line<K: Sink>(sink: &mut K, line: &[u8]) -> Result<(), Status>
    ensures ok { OnOk result (K.taken sink.new ≡ with_more line.now (K.taken sink.old)) }
    ensures front { TakesFront line.now (K.taken sink.old) (K.taken sink.new) }
    ensures err { IfErr result (IsOfWriting (Rose (K.faults sink.old) (K.faults sink.new))) }
    ensures later { K.faults sink.old ≤ K.faults sink.new }
{
    match write_whole(sink, line) {
        Ok(()) => {}
        Err(_) => return Err(Status::SinkFault),
    }
    Ok(())
}
