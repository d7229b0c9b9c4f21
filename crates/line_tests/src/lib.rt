//! Tests of axial lines and those after an edit, in a crate of their own: within `axial_lines` each function there would be proved a second time with them.
#![tactic(auto)]

#[cfg(test)]
mod tests;
