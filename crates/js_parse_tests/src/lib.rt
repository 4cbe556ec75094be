//! Tests of the parser: trees, places of faults, levels of nesting, long texts.
#![tactic(auto)]

#[cfg(test)]
mod show;
#[cfg(test)]
mod tests;
