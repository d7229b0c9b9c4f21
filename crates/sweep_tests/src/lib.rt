//! Tests of the angular sweep, in a crate of their own: within `sight_sweep` each function there would be proved a second time with them.
#![tactic(auto)]

#[cfg(test)]
mod tests;
