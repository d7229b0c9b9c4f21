//! Tests of isovists, in a crate of their own: within `isovist_core` each function there would be proved a second time with them.
#![tactic(auto)]

#[cfg(test)]
mod tests;
