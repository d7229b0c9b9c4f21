//! Tests of the grid and its graph, in a crate of their own: within `vga_grid` each function there would be proved a second time with them.
#![tactic(auto)]

#[cfg(test)]
mod tests;
