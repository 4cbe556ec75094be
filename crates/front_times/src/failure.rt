//! Why no line is printed.
ghost use Rattle.std.specs.Prelude.{◌≡◌};
ghost use Rattle.front_times.specs.Codes.{code_of};

use std::alloc::AllocError;
use wl_causes::{FolderFault, SinkFailed};

/// Why no line is printed.
#[derive(Debug, Drop, Clone, Copy, PartialEq, Eq)]
pub enum Failure {
    /// Memory ran out.
    Memory,
    /// There is not exactly one word.
    Words,
    /// The file couldn't be read.
    Folder,
    /// There is no such file.
    Absent,
    /// The output couldn't be written.
    Sink,
    /// The file has more than 262,144 bytes.
    TooLong,
}

impl Failure {
    /// The number that the process ends with.
    pub fn code(self) -> u8
        ensures { result ≡ code_of self }
    {
        match self {
            Failure::Memory => 1,
            Failure::Words => 2,
            Failure::Folder => 3,
            Failure::Absent => 4,
            Failure::Sink => 8,
            Failure::TooLong => 11,
        }
    }
}

impl From<AllocError> for Failure {
    fn from(_error: AllocError) -> Failure {
        Failure::Memory
    }
}

impl From<FolderFault> for Failure {
    fn from(fault: FolderFault) -> Failure {
        match fault {
            FolderFault::Failed => Failure::Folder,
            FolderFault::TooLong => Failure::TooLong,
            FolderFault::Memory => Failure::Memory,
        }
    }
}

impl From<SinkFailed> for Failure {
    fn from(_failed: SinkFailed) -> Failure {
        Failure::Sink
    }
}
