//! Tests of the tables and replies, in a crate of their own: within `reports` each function there would be proved a second
//! time with them.
#![tactic(auto)]

#[cfg(test)]
mod tests;
