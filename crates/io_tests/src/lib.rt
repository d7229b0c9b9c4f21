//! Tests of sources, sinks, files and lines, in a crate of their own: within `dm_io` each function there would be
//! proved a second time with them.
#![tactic(auto)]

#[cfg(test)]
mod tests;
