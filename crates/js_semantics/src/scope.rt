//! Where a node is evaluated.
use world_heap::{Loc, Value};

/// Where a node is evaluated: its innermost environment (ECMA-262, 9.1), and what `this` means there.
#[derive(Drop)]
pub struct Scope<L = Loc> {
    pub env: L,
    pub receiver: Value<L>,
}
