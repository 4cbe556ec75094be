//! Scripts that are run on the machine: what each makes at the least limits that it needs, and with one step, cell, place
//! or unit less.
#![tactic(auto)]

#[cfg(test)]
mod expressions;
#[cfg(test)]
mod faults;
#[cfg(test)]
mod functions;
#[cfg(test)]
mod row;
#[cfg(test)]
mod running;
#[cfg(test)]
mod statements;
#[cfg(test)]
mod tests;
