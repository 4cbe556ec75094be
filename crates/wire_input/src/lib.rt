//! Reads the input of `wire`: a JSON text as a parcel.
#![tactic(auto)]

ghost use Rattle.std.specs.Prelude.{◌≡◌};
ghost use Rattle.wire_input.specs.declared.InputFault.TheVariants.{Memory};

mod key;
mod place;

pub use place::parcel_of_json;
use std::alloc::{AllocError, AllocFailed};

/// Why a JSON text gives no parcel.
#[derive(Debug, Drop, Clone, Copy, PartialEq, Eq)]
pub enum InputFault {
    /// The bytes are no JSON text in UTF-8, or its arrays and objects nest more than 127 deep.
    Json,
    /// A number isn't whole and from -(2^53 - 1) to 2^53 - 1, or the value is over a limit of a copy or of one string.
    Shape,
    /// Memory ran out.
    Memory,
}

impl From<AllocError> for InputFault {
    ghost from_gives = { λ _ fault. fault ≡ Memory };

    fn from(_error: AllocError) -> InputFault {
        InputFault::Memory
    }
}

impl<T: Drop> From<AllocFailed<T>> for InputFault {
    ghost from_gives = { λ _ fault. fault ≡ Memory };

    fn from(_error: AllocFailed<T>) -> InputFault {
        InputFault::Memory
    }
}

#[cfg(test)]
mod tests;
