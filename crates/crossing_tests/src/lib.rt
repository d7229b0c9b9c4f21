//! Tests of the crossing graph, in a crate of their own: within `line_graph` each function there would be proved a second time with them.
#![tactic(auto)]

#[cfg(test)]
mod tests;
