//! Tests of changes that are taken back and of watchers that are told of them, in a crate of their own: within
//! `plan_back`, `plan_undo` and `plan_watch` each function there would be proved a second time with them.
#![tactic(auto)]

#[cfg(test)]
mod tests;
