//! What rows do that may call code of the script: calls, parameters, reading and writing properties and names.
#![tactic(auto)]

mod assigning;
mod binding;
mod callee;
mod calling;
mod constructing;
mod functions;
mod in_place;
mod naming;
mod property;
mod setting;

pub use assigning::write_name;
pub use binding::{parameter_bound, parameter_default, parameters, rest_bound};
pub use callee::{Callee, callee_of};
pub use calling::{call_last, call_over};
pub use constructing::{after_constructed, construct};
pub use functions::function_at;
pub use naming::{Named, meaning_of, read_name};
pub use property::{get, has_unit};
pub use setting::set;
