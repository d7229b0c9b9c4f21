//! Tests of depths and measures, in a crate of their own: within `step_depth` each function there would be proved a second time with them.
#![tactic(auto)]

#[cfg(test)]
mod tests;
