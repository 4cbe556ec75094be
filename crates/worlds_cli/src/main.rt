//! Plays an Electron application without its graphics, and prints each world's console lines and messages in order.
#![tactic(auto)]

mod command;
#[cfg(test)]
mod conversion_tests;
mod converting;
#[cfg(test)]
mod log_tests;
mod reading;
mod status;
#[cfg(test)]
mod tests;
mod words;
mod writing;

use std::env;
use std::io::ErrorKind;
use std::process::ExitCode;
use wl_causes::{DiskFolder, StdSink};

/// The words behind the program's name. Words that aren't UTF-8 are no command, as no words are.
fn words_of(rt: HostRuntime) -> Option<Vec<String>> {
    match env::args(&rt) {
        Ok(words) => words.skip(1).collect::<Vec<String>>(rt.alloc()).ok(),
        Err(error) if error.kind() == ErrorKind::OutOfMemory => None,
        Err(_) => Some(Vec::new(rt.alloc())),
    }
}

fn main(rt: HostRuntime) -> ExitCode {
    let Some(words) = words_of(rt) else {
        return ExitCode::from(1);
    };
    let mut folder = DiskFolder::new(rt);
    let mut sink = StdSink::new(rt);
    let status = command::worlds(rt.alloc(), words.as_slice(), &mut folder, &mut sink);
    ExitCode::from(status.code())
}
