//! Tests of the answers to a script and of the tables of each mode, in a crate of their own: within `plan_answers` each
//! function there would be proved a second time with them.
#![tactic(auto)]

#[cfg(test)]
mod tests;
