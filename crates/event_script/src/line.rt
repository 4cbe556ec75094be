//! The lines of an event script.
ghost use Rattle.std.specs.Prelude.{◌≡◌};
ghost use Rattle.event_script.specs.declared.line.LineFault.TheVariants.{Memory};

use std::alloc::{AllocError, AllocFailed};
use wl_text::Units;
use world_kind::WorldKind;

/// What a line does. A process and a window have a number from 1 to 8; the main process and its world have 0.
#[derive(Drop, PartialEq, Eq)]
pub enum LineKind {
    /// The process takes its oldest task.
    Step(u32),
    /// Up to so many times, 0 to 10,000, the first process that has a task takes its oldest.
    Drain(u32),
    /// An event of a world, with its name and its text.
    Event {
        kind: WorldKind,
        window: u32,
        name: Units,
        text: Units,
    },
    /// The window ends where it lives, and is loaded again.
    Reload(u32),
    /// The window ends.
    Close(u32),
}

/// A line with an effect, and its number in the script, from 1.
#[derive(Drop, PartialEq, Eq)]
pub struct Line {
    pub number: u32,
    pub what: LineKind,
}

/// A script has a wrong line, or memory ran out.
#[derive(Debug, Drop, Clone, Copy, PartialEq, Eq)]
pub enum LineFault {
    /// The number of the first wrong line, from 1.
    At { number: u32 },
    /// Memory ran out.
    Memory,
}

impl From<AllocError> for LineFault {
    ghost from_gives = { λ _ e. e ≡ Memory };

    fn from(_error: AllocError) -> LineFault {
        LineFault::Memory
    }
}

impl<T: Drop> From<AllocFailed<T>> for LineFault {
    ghost from_gives = { λ _ e. e ≡ Memory };

    fn from(_error: AllocFailed<T>) -> LineFault {
        LineFault::Memory
    }
}
