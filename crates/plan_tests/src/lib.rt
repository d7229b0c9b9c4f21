//! Tests of accepted plans and their edits, in a crate of their own: what stands on `plan_check` isn't proved again
//! when a row of a table changes.
#![tactic(auto)]

#[cfg(test)]
mod tests;
