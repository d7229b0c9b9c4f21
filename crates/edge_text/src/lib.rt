//! The rows of the table of edges in text form, at the speed of memory.
//!
//! | item | what it is |
//! |---|---|
//! | [`EdgeText`] | what prints the rows of a graph's edges |
//!
//! A table of edges has millions of rows and only thousands of different numbers, so the digits of each number are made
//! once, and a row is two copies of them:
//!
//! ```text
//!   digits   0 ....   1 ....   2 ....      sixteen bytes each, copied whole; what comes next is put over
//!   lines    0 1↵0 2↵1 2↵                  those that don't count
//! ```
#![tactic(auto)]

mod digits;
mod edge_text;
mod lines;
#[cfg(test)]
mod tests;

pub use edge_text::EdgeText;
