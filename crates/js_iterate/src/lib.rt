//! What is walked by `for .. of` and by spreads, and the lists that spreads stand in (ECMA-262, 7.4.3, 13.2.4, 13.3.8).
#![tactic(auto)]

mod arguments;
mod filling;
mod rests;
mod walking;

pub use arguments::{Pending, argument_value, arguments_from, spread_value};
pub use rests::{element_spread, for_of_list};
pub use walking::{Walking, walk_value};
