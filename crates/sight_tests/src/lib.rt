//! Tests of scenes, sight and stops, in a crate of their own: within `sight_core` each function there would be proved a
//! second time with them.
#![tactic(auto)]

#[cfg(test)]
mod tests;
