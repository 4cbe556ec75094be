//! Reads a script from the file that the one word names, and prints `ok` and the number of nodes of its tree, or the
//! place and the kind of its first fault. It is what the speed of reading is measured with.
#![tactic(auto)]

mod failure;
mod line;

use failure::Failure;
use line::line_of;
use std::alloc::Global;
use std::env;
use std::io::ErrorKind;
use std::process::ExitCode;
use wl_causes::{DiskFolder, Folder, Sink, StdSink, write_whole};

/// The words behind the program's name. Words that aren't UTF-8 are as none.
fn words_of(rt: HostRuntime) -> Result<Vec<String>, Failure> {
    match env::args(&rt) {
        Ok(words) => Ok(words.skip(1).collect::<Vec<String>>(rt.alloc())?),
        Err(error) if error.kind() == ErrorKind::OutOfMemory => Err(Failure::Memory),
        Err(_) => Ok(Vec::new(rt.alloc())),
    }
}

/// Reads the file that the words name, and writes its line.
fn tell<F: Folder, K: Sink>(
    alloc: Global,
    words: &[String],
    folder: &mut F,
    sink: &mut K,
) -> Result<(), Failure> {
    let [file] = words else {
        return Err(Failure::Words);
    };
    let Some(bytes) = folder.read(alloc, file, 262_144)? else {
        return Err(Failure::Absent);
    };
    let line = line_of(alloc, bytes.as_slice())?;
    write_whole(sink, line.as_bytes())?;
    Ok(())
}

fn main(rt: HostRuntime) -> ExitCode {
    let words = match words_of(rt) {
        Ok(words) => words,
        Err(failure) => return ExitCode::from(failure.code()),
    };
    let mut folder = DiskFolder::new(rt);
    let mut sink = StdSink::new(rt);
    match tell(rt.alloc(), words.as_slice(), &mut folder, &mut sink) {
        Ok(()) => ExitCode::from(0),
        Err(failure) => ExitCode::from(failure.code()),
    }
}
