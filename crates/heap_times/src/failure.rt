//! Why no line is printed.
ghost use Rattle.std.specs.Prelude.{◌≡◌};
ghost use Rattle.heap_times.specs.Codes.{code_of};

use std::alloc::AllocError;
use wl_causes::SinkFailed;
use world_heap::HeapFault;

/// Why no line is printed.
#[derive(Debug, Drop, Clone, Copy, PartialEq, Eq)]
pub enum Failure {
    /// Memory ran out.
    Memory,
    /// The words aren't a kind of work and two numbers.
    Words,
    /// The output couldn't be written.
    Sink,
    /// A count of a heap would pass its limit.
    Full,
}

impl Failure {
    /// The number that the process ends with.
    pub fn code(self) -> u8
        ensures { result ≡ code_of self }
    {
        match self {
            Failure::Memory => 1,
            Failure::Words => 2,
            Failure::Sink => 8,
            Failure::Full => 11,
        }
    }
}

impl From<AllocError> for Failure {
    fn from(_error: AllocError) -> Failure {
        Failure::Memory
    }
}

impl From<HeapFault> for Failure {
    fn from(fault: HeapFault) -> Failure {
        match fault {
            HeapFault::Memory => Failure::Memory,
            HeapFault::Cells | HeapFault::Places | HeapFault::Units => Failure::Full,
        }
    }
}

impl From<SinkFailed> for Failure {
    fn from(_failed: SinkFailed) -> Failure {
        Failure::Sink
    }
}
