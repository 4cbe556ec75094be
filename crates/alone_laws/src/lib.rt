//! Laws of what a world makes alone of its deliveries.
#![tactic(auto)]

mod laws;

pub use laws::{fitting, one_size, yielding};
