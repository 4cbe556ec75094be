//! Does one kind of work on heaps, so many times, and prints `ok` and a number. It is what the speed of heaps and
//! properties is measured with.
#![tactic(auto)]

mod asked;
mod failure;
mod line;
mod work;

use asked::asked_by;
use failure::Failure;
use line::line_of;
use std::alloc::Global;
use std::env;
use std::io::ErrorKind;
use std::process::ExitCode;
use wl_causes::{Sink, StdSink, write_whole};
use work::work;

/// The words behind the program's name. Words that aren't UTF-8 are as none.
fn words_of(rt: HostRuntime) -> Result<Vec<String>, Failure> {
    match env::args(&rt) {
        Ok(words) => Ok(words.skip(1).collect::<Vec<String>>(rt.alloc())?),
        Err(error) if error.kind() == ErrorKind::OutOfMemory => Err(Failure::Memory),
        Err(_) => Ok(Vec::new(rt.alloc())),
    }
}

/// Does the work that the words ask for, and writes its line.
fn tell<K: Sink>(alloc: Global, words: &[String], sink: &mut K) -> Result<(), Failure> {
    let Some(asked) = asked_by(words) else {
        return Err(Failure::Words);
    };
    let number = work(alloc, asked)?;
    let line = line_of(alloc, number)?;
    write_whole(sink, line.as_bytes())?;
    Ok(())
}

fn main(rt: HostRuntime) -> ExitCode {
    let words = match words_of(rt) {
        Ok(words) => words,
        Err(failure) => return ExitCode::from(failure.code()),
    };
    let mut sink = StdSink::new(rt);
    match tell(rt.alloc(), words.as_slice(), &mut sink) {
        Ok(()) => ExitCode::from(0),
        Err(failure) => ExitCode::from(failure.code()),
    }
}
