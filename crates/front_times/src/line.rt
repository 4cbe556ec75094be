//! The line that tells what a text is.
ghost use Rattle.std.specs.Prelude.{◌≡◌, ◌≤◌, length, IfOk, string_bytes};
ghost use Rattle.js_source.specs.Source.{source_of};
ghost use Rattle.front_times.specs.Line.{line_of};

use js_source::{SourceFault, read_source};
use std::alloc::{AllocError, Global};

/// `ok` and the number of nodes of the script that the bytes are, or the place and the kind of its first fault. There
/// are at most 262,144 bytes. It takes the time of `read_source`.
///
/// # Errors
/// Memory ran out.
pub fn line_of(alloc: Global, bytes: &[u8]) -> Result<String, AllocError>
    requires { length bytes.now ≤ 262_144 }
    ensures { IfOk result (λ line. string_bytes line ≡ line_of (source_of bytes.now)) }
{
    match read_source(alloc, bytes) {
        Ok(source) => {
            let nodes = source.tree.len();
            format!(in alloc; "ok {nodes}\n")
        }
        Err(SourceFault::At { place, kind }) => {
            let word = kind.word();
            format!(in alloc; "{place} {word}\n")
        }
        Err(SourceFault::Memory) => Err(AllocError),
    }
}
