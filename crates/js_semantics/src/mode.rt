//! Where a world waits.

/// Where a world waits: between tasks, or inside a call of another world.
#[derive(Debug, Drop, Clone, Copy, PartialEq, Eq)]
pub enum Mode {
    Idle,
    Crossing,
}
