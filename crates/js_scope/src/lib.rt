//! The early errors of a script: which node of its syntax tree is the first to break a rule.
#![tactic(auto)]

mod check;
mod children;
mod fault;
#[cfg(test)]
mod jump_rows;
#[cfg(test)]
mod name_rows;
mod names;
mod place;
mod rules;
#[cfg(test)]
mod scope_rows;
#[cfg(test)]
mod target_rows;
#[cfg(test)]
mod test_trees;
#[cfg(test)]
mod tests;

pub use check::check_scope;
pub use fault::{ScopeFault, ScopeKind};
