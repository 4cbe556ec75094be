//! The log: what is delivered to each world and what each world makes of it, and how a line of it is printed.
#![tactic(auto)]

mod entry;
mod printing;

pub use entry::{Delivery, Entry, Level, LogItem, Product, Stop, WorldName};
pub use printing::print;
