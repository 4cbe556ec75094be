//! Event scripts, line by line.
ghost use Rattle.std.specs.Prelude.{◌≡◌, ◌+◌, ◌<◌, ◌≤◌, [], ◌∷◌, ◌==◌, All, Ok, length, position, IfOk, MatchOption, MatchResult};
ghost use Rattle.std.specs.Str.Lines.{lines, strip_carriage_return};
ghost use Rattle.event_script.specs.Allowed.{IsAllowed};
ghost use Rattle.event_script.specs.Script.{script, IsFault};

use crate::line::{Line, LineFault};
use crate::parts::line_of;
use std::alloc::Global;

// A line without the one carriage return before its end.
fn without_return(line: &[u8]) -> &[u8]
    ensures { result.now ≡ strip_carriage_return line.now }
{
    match line {
        [front @ .., b'\r'] => front,
        _ => line,
    }
}

// The place of the first LF.
fn newline(bytes: &[u8]) -> Option<usize>
    ensures { result ≡ position (λ b. b == 10) bytes.now }
{
    bytes.iter().position(|byte| *byte == b'\n')
}

// The first line, and what is left after its end.
fn next_line(bytes: &[u8]) -> Option<(&[u8], &[u8])>
    ensures { MatchOption result (lines bytes.now ≡ []) (λ cut. (lines bytes.now ≡ cut.0.now ∷ lines cut.1.now)
        × (length cut.0.now + length cut.1.now ≤ length bytes.now) × (length cut.1.now < length bytes.now)) }
{
    if bytes.is_empty() {
        return None;
    }
    match newline(bytes) {
        Some(at) => Some((without_return(&bytes[..at]), &bytes[at + 1..])),
        None => Some((bytes, &[])),
    }
}

/// Reads an event script: UTF-8 text whose lines end with LF or at its end, one CR before an LF left out. Empty lines
/// and lines that begin with `#` have no effect. Values are separated by one space, and numbers have no leading
/// zeros. A line with an effect is one of
///
/// - `step main`, `step N`: the process takes its oldest task;
/// - `drain K`, K from 0 to 10,000: up to K times the first process that has a task takes its oldest;
/// - `event W NAME TEXT`: an event of the world W, which is `main`, `preloadN` or `pageN`. NAME has 1 to 32 of
///   `a-z0-9-` and isn't `message`. TEXT is the rest of the line after one space, and empty where the line ends after
///   NAME;
/// - `reload N`, `close N`.
///
/// N is 1 to 8. Lines without an effect aren't in the answer, but count. It takes time in proportion to the text.
///
/// Condition: there are at most 1,048,576 bytes.
///
/// # Errors
/// `At` with the number of the first line, from 1, that is of no form or isn't UTF-8, exactly where there is one;
/// `Memory` where memory ran out.
pub fn read_script(alloc: Global, bytes: &[u8]) -> Result<Vec<Line>, LineFault>
    requires { length bytes.now ≤ 1_048_576 }
    ensures exact { MatchResult result (λ read. script bytes.now ≡ Ok read.items) (IsFault (script bytes.now)) }

    // The numbers of processes and windows, and the counts, are those that may stand in a script.
    ensures allowed { IfOk result (λ read. All (λ line. IsAllowed line.what) read.items) }
    ensures few { IfOk result (λ read. length read.items ≤ 1_048_576) }
{
    let mut read = Vec::new(alloc);
    let mut rest = bytes;
    let mut number = 0;
    'lines: while let Some((line, more)) = next_line(rest) {
        number += 1;
        rest = more;
        match line_of(alloc, line)? {
            None => return Err(LineFault::At { number }),
            Some(None) => {}
            Some(Some(what)) => read.push(Line { number, what })?,
        }
    }
    Ok(read)
}
