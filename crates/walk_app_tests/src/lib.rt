//! Tests of the top call, in a crate of their own: within `walk_app` each function there would be proved a second time with
//! them.
#![tactic(auto)]

#[cfg(test)]
mod tests;
