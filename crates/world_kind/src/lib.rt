//! The kinds of world.
#![tactic(auto)]

/// What kind of world a script runs in: the main script's, a preload script's, or a page's.
#[derive(Debug, Drop, Clone, Copy, PartialEq, Eq)]
pub enum WorldKind {
    Main,
    Preload,
    Page,
}
