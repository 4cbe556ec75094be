//! How a command ends.
ghost use Rattle.std.specs.Prelude.{◌≡◌};
ghost use Rattle.worlds_cli.specs.Text.{number_of};
ghost use Rattle.worlds_cli.specs.declared.status.Status.TheVariants.{Memory};

use js_source::SourceKind;
use sqlite_items::Items;
use std::alloc::{AllocError, AllocFailed};
use v8_wire::WireKind;

/// Why a script is refused.
#[derive(Debug, Drop, Clone, Copy, PartialEq, Eq)]
pub enum ScriptKind {
    /// The script, manifest or event script is one that can't be played yet.
    NotBuilt,
    /// The text is no script, for what stands at the place.
    Source(SourceKind),
}

/// How a command ends. A file is named as it is told to the user.
#[derive(Drop)]
pub enum Status {
    /// The command was done.
    Done,
    /// Memory ran out.
    Memory,
    /// The words are no command.
    Words,
    /// A file couldn't be read.
    FolderFault {
        file: Items<u8>,
    },
    /// There is no such file.
    Absent {
        file: Items<u8>,
    },
    /// A file isn't JSON.
    Json {
        file: Items<u8>,
    },
    /// A JSON value isn't of the form wanted; the key of the part that breaks it, `.` where it is the whole.
    Shape {
        file: Items<u8>,
        key: Items<u8>,
    },
    /// A script isn't taken, at this byte of the file and for this reason.
    Script {
        file: Items<u8>,
        place: u32,
        kind: ScriptKind,
    },
    /// A line of an event script is of no form, the first such; lines count from 1.
    Line {
        file: Items<u8>,
        number: u32,
    },
    /// The output couldn't be written.
    SinkFault,
    /// Bytes aren't those of a message, at this place and for this reason.
    Wire {
        place: u64,
        kind: WireKind,
    },
    /// A file has more bytes than its limit.
    TooLong {
        file: Items<u8>,
        limit: u32,
    },
}

impl Status {
    /// The number that the process ends with: 0 where the command was done, and else 1 to 11.
    pub fn code(&self) -> u8
        ensures { result ≡ number_of self.now }
    {
        match self {
            Status::Done => 0,
            Status::Memory => 1,
            Status::Words => 2,
            Status::FolderFault { .. } => 3,
            Status::Absent { .. } => 4,
            Status::Json { .. } | Status::Shape { .. } => 5,
            Status::Script { .. } => 6,
            Status::Line { .. } => 7,
            Status::SinkFault => 8,
            Status::Wire { .. } => 9,
            Status::TooLong { .. } => 11,
        }
    }
}

impl From<AllocError> for Status {
    ghost from_gives = { λ _ status. status ≡ Memory };

    fn from(_error: AllocError) -> Status {
        Status::Memory
    }
}

impl<T: Drop> From<AllocFailed<T>> for Status {
    ghost from_gives = { λ _ status. status ≡ Memory };

    fn from(_error: AllocFailed<T>) -> Status {
        Status::Memory
    }
}
