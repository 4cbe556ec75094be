//! A script of a table.
use world_kind::WorldKind;

/// A script, and what it makes.
pub(crate) struct Row {
    pub(crate) kind: WorldKind,
    pub(crate) text: &'static str,
    /// The steps, cells, places and units that it is run with.
    pub(crate) limits: [u64; 4],
    /// What it makes with them, a line each.
    pub(crate) log: &'static str,
    /// How many of these lines come before it stops with one step, cell, place or unit less, where that is tried.
    pub(crate) told: [Option<usize>; 4],
}
