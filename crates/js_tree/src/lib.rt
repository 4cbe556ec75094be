//! Syntax trees: lists of nodes, each child before its parent.
#![tactic(auto)]

mod copies;
mod node;
mod order;
mod tree;

pub use node::{
    BinaryOperator, BindElement, BindProperty, Declarator, Function, Node, NodeId, PropertyKey,
    UnaryOperator, UpdateOperator,
};
pub use tree::{Mem, Tree};

#[cfg(test)]
mod tests;
