//! Reads the folder of an application: its manifest and its scripts, or the first refusal.
#![tactic(auto)]

mod app;
mod keys;
mod manifest;
mod name;
mod plan;
mod reading;
#[cfg(test)]
mod tests;

pub use app::{App, AppFault, Script, WindowApp};
pub use name::FileName;
pub use reading::read_app;
