//! Tests of walkers, in a crate of their own: within `walk_core` each function there would be proved a second time with them.
#![tactic(auto)]

#[cfg(test)]
mod tests;
