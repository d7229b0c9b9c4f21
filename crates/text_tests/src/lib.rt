//! Tests of the text of plans and scripts, in a crate of their own: within `plan_text` each function there would be
//! proved a second time with them.
#![tactic(auto)]

#[cfg(test)]
mod tests;
