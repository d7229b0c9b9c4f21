//! Tests of pieces of routes, turns and their depths, in a crate of their own: within `segment_core` each function there would be proved a second time with them.
#![tactic(auto)]

#[cfg(test)]
mod tests;
