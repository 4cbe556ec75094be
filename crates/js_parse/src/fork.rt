//! Two readings of what begins alike.
ghost use Rattle.std.specs.Prelude.{◌≡◌, MatchResult};
ghost use Rattle.js_parse.specs.Input as spec;

use crate::fault::Fault;
use crate::reader::Reader;
use js_tree::NodeId;

/// The later of two faults, of which the first is a token's at `place`.
pub fn later(place: u32, other: Fault) -> Fault
    ensures { result ≡ spec.later place other }
{
    match other {
        Fault::Memory => Fault::Memory,
        Fault::Deep { place: deep } => {
            if deep < place {
                return Fault::Token { place, sure: true };
            }
            other
        }
        Fault::Token { place: token, .. } => {
            if place < token {
                return Fault::Token {
                    place: token,
                    sure: true,
                };
            }
            Fault::Token { place, sure: true }
        }
    }
}

/// The fault of a reading that was tried for its fault alone: what stands behind it, if it has none.
pub fn fault_of(outcome: Result<NodeId, Fault>, reader: &Reader<'_>) -> Fault
    ensures { MatchResult outcome (λ _. result ≡ spec.refusal reader.now) (λ fault. result ≡ fault) }
{
    match outcome {
        Ok(_) => reader.refuse(),
        Err(fault) => fault,
    }
}
