//! Tests of a session, in a crate of their own: within `plan_edit` each function there would be proved a second time with them.
#![tactic(auto)]

#[cfg(test)]
mod tests;
