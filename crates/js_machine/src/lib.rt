//! The machine that evaluates scripts: its state, the frames of rows in progress, and what rows are made of.
#![tactic(auto)]

mod basic;
mod cells;
mod copies;
mod defaults;
mod deliver;
mod fitting;
mod frame;
mod nodes;
mod objects;
mod state;
mod throwing;

pub use basic::{discard, done, stopped};
pub use copies::{copy_scope, copy_values};
pub use defaults::default_of;
pub use fitting::{is_cell, is_fit, is_prototype};
pub use frame::{
    AfterFrame, CallFrame, CallTarget, ForLoop, Frame, Key, LiteralFrame, OperandFrame,
    PatternFrame, Place, PropertyFrame, StatementFrame, Use, ValueFrame,
};
pub use nodes::{items_of, next_of, node_at};
pub use objects::{is_symbol, is_symbol_at, object_of};
pub use state::{Control, Next, State};
