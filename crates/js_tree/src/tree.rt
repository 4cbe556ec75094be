//! A syntax tree.
ghost use Rattle.std.specs.Prelude.{◌≡◌, ◌<◌, ◌≤◌, ◌+◌, ◌^◌, ◌-◌, ◌↔◌, [], ◌∷◌, ◌++◌, length, IsTrue, IfOk, OnErr, MatchOption};
ghost use Rattle.js_tree.specs.Nodes.{node_at, place_at, StandsBelow, IsTree};

use crate::node::{Node, NodeId};
use std::alloc::{AllocError, Global};
use std::marker::Model;

/// An answer, or want of memory.
pub type Mem<T> = Result<T, AllocError>;

/// The nodes of a script or of a part of one, each child before its parent, with the byte offset of each node's
/// first token. The root stands last. There are at most 2^32 - 1 nodes.
#[derive(Drop)]
pub struct Tree {
    nodes: Vec<(Node, u32)>,
}

impl Model for Tree {
    ghost use Rattle.std.specs.Prelude.{ℕ, ◌<◌, ◌^◌, List, length};
    ghost use Rattle.js_tree.specs.declared.node.Node.{Node};
    ghost use Rattle.js_tree.specs.Nodes.{IsTree};

    ghost Value = { List (Node × ℕ) };

    ghost view = { λ tree. tree.nodes.items };

    ghost invariant = { λ tree. (length tree.nodes.items < 2 ^ 32) × IsTree tree.nodes.items };
}

impl Tree {
    /// A tree without nodes.
    #[tactic(auto, unfolding(crate::specs::Nodes::IsTree, crate::specs::Nodes::node_at))]
    pub fn new(alloc: Global) -> Tree
        ensures { result ≡ [] }
    {
        Tree {
            nodes: Vec::new(alloc),
        }
    }

    /// The tree with these nodes, each with the byte offset of its first token. There is none exactly where some child
    /// doesn't stand before its parent or there are 2^32 nodes or more. It takes time in proportion to the nodes and
    /// their children.
    pub fn from_nodes(nodes: Vec<(Node, u32)>) -> Option<Tree>
        ensures { MatchOption result (IsTree nodes.items → 2 ^ 32 ≤ length nodes.items) (λ tree. tree ≡ nodes.items) }
    {
        let count = nodes.len();
        if count > u32::MAX as usize {
            return None;
        }
        'nodes: for at in 0..count {
            if !nodes[at].0.children_below(at as u32) {
                return None;
            }
        }
        Some(Tree { nodes })
    }

    /// Adds a node whose first token is at the byte offset `place`, and gives its number. For want of memory the
    /// tree stays as it was.
    ///
    /// Conditions: fewer than 2^32 - 1 nodes stand, and the node's children are among them.
    pub fn add(&mut self, node: Node, place: u32) -> Mem<NodeId>
        requires few { length self.old < 2 ^ 32 - 1 }
        requires children { StandsBelow (length self.old) node }
        ensures id { IfOk result (λ id. id.0 ≡ length self.old) }
        ensures added { IfOk result (λ _. self.new ≡ self.old ++ (node, place) ∷ []) }
        ensures failed { OnErr result (self.new ≡ self.old) }
    {
        let id = NodeId(self.nodes.len() as u32);
        self.nodes.push((node, place))?;
        Ok(id)
    }

    /// The node with that number. Its children have smaller numbers. Condition: it stands.
    #[tactic(auto, unfolding(crate::specs::Nodes::IsTree, crate::specs::Nodes::node_at))]
    pub fn node(&self, id: NodeId) -> &Node
        requires { id.0 < length self.now }
        ensures value { node_at self.now id.0 ≡ Some result.now }
        ensures children { StandsBelow id.0 result.now }
    {
        &self.nodes[id.0 as usize].0
    }

    /// The byte offset of the first token of the node with that number. Condition: it stands.
    #[tactic(auto, unfolding(crate::specs::Nodes::place_at))]
    pub fn place(&self, id: NodeId) -> u32
        requires { id.0 < length self.now }
        ensures { place_at self.now id.0 ≡ Some result }
    {
        self.nodes[id.0 as usize].1
    }

    /// The number of the root: the last node.
    pub fn root(&self) -> Option<NodeId>
        ensures { MatchOption result (self.now ≡ []) (λ id. id.0 + 1 ≡ length self.now) }
    {
        let count = self.nodes.len();
        if count == 0 {
            return None;
        }
        Some(NodeId((count - 1) as u32))
    }

    /// How many nodes there are: at most 2^32 - 1.
    pub fn len(&self) -> u32
        ensures { result ≡ length self.now }
    {
        self.nodes.len() as u32
    }

    /// Whether there is no node.
    pub fn is_empty(&self) -> bool
        ensures { IsTrue result ↔ (self.now ≡ []) }
    {
        self.nodes.is_empty()
    }

    /// Each child stands before its parent.
    #[tactic(auto, unfolding(crate::specs::Nodes::IsTree, crate::specs::Nodes::node_at))]
    pub fn ordered(&self)
        ensures { IsTree self.now }
    {
        let _nodes = &self.nodes;
    }

    /// The same tree again. It takes time in proportion to the nodes.
    pub fn copy(&self, alloc: Global) -> Mem<Tree>
        ensures { IfOk result (λ tree. tree ≡ self.now) }
    {
        let mut nodes = Vec::new(alloc);
        'nodes: for node in self.nodes.iter() {
            let copy = node.0.copy(alloc)?;
            nodes.push((copy, node.1))?;
        }
        Ok(Tree { nodes })
    }
}
