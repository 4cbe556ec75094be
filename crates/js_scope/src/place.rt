//! Where a node stands.
use js_tree::NodeId;

/// A node, and what is around it.
#[derive(Debug, Drop, Clone, Copy, PartialEq, Eq)]
pub struct Place {
    pub node: NodeId,
    /// Whether a function is around the node.
    pub in_function: bool,
    /// Whether a loop of the same function is around the node.
    pub in_loop: bool,
}
