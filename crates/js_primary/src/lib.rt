//! Primary expressions whose value is at hand: literals, `this`, and names that are bound. Their rows need no frame, since
//! nothing of the script runs before they have ended (ECMA-262, 13.1 and 13.2).
#![tactic(auto)]

mod at_hand;
mod composed;
mod taking;

pub use at_hand::number_value;
pub use taking::{Taken, take_bound, take_value};
