//! Why tokens are no script.
ghost use Rattle.std.specs.Prelude.{◌≡◌};
ghost use Rattle.js_parse.specs.declared.fault.Fault.TheVariants.{Memory};

use std::alloc::{AllocError, AllocFailed};

/// Why the tokens are no script.
#[derive(Debug, Drop, Clone, Copy, PartialEq, Eq)]
pub enum ParseFault {
    /// No script has this token behind the tokens before it.
    Token { place: u32 },
    /// The token begins a level of nesting above the limit.
    Deep { place: u32 },
    /// Memory ran out.
    Memory,
}

/// Why a rule reads no more. A fault is `sure` where no other reading of what was read goes further.
#[derive(Debug, Drop, Clone, Copy, PartialEq, Eq)]
pub enum Fault {
    Token { place: u32, sure: bool },
    Deep { place: u32 },
    Memory,
}

impl From<AllocError> for Fault {
    ghost from_gives = { λ _ fault. fault ≡ Memory };

    fn from(_error: AllocError) -> Fault {
        Fault::Memory
    }
}

impl<T: Drop> From<AllocFailed<T>> for Fault {
    ghost from_gives = { λ _ fault. fault ≡ Memory };

    fn from(_error: AllocFailed<T>) -> Fault {
        Fault::Memory
    }
}
