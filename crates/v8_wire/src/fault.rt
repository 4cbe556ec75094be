//! A fault inside a reader, which sees only the bytes that are left.
ghost use Rattle.std.specs.Prelude.{◌≡◌};
ghost use Rattle.v8_wire.specs.declared.fault.Stop.TheVariants.{Memory, At};

use crate::kind::WireKind;
use std::alloc::{AllocError, AllocFailed};

/// A fault, and how many bytes are left at its place.
#[derive(Debug, Drop, Clone, Copy, PartialEq, Eq)]
pub(crate) struct Fault {
    pub left: usize,
    pub kind: WireKind,
}

/// Why a reader stopped.
#[derive(Debug, Drop, Clone, Copy, PartialEq, Eq)]
pub(crate) enum Stop {
    Memory,
    At(Fault),
}

/// A fault where so many bytes are left.
pub(crate) fn fault_at(left: usize, kind: WireKind) -> Stop
    ensures { result ≡ At (record { left = left; kind = kind }) }
{
    Stop::At(Fault { left, kind })
}

impl From<AllocError> for Stop {
    ghost from_gives = { λ _ e. e ≡ Memory };

    fn from(_error: AllocError) -> Stop {
        Stop::Memory
    }
}

impl<T: Drop> From<AllocFailed<T>> for Stop {
    ghost from_gives = { λ _ e. e ≡ Memory };

    fn from(_error: AllocFailed<T>) -> Stop {
        Stop::Memory
    }
}
