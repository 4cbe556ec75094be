//! Applications played: the log that their worlds make together, and its law.
#![tactic(auto)]

mod kept;
mod laws;
mod loading;
mod player;
mod running;
mod writing;

pub use kept::{Kept, LiveWorld};
pub use laws::{causal, one_log, yielding};
pub use player::{PlayFault, play};
pub use writing::{write_entry, write_item};
