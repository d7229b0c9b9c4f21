//! The visibility graph of a plan's grid by looks: one turn round from each open point.
//!
//! | item | what it is |
//! |---|---|
//! | [`graph_by_looks`] | the visibility graph of a plan |
//! | [`later_in_sight`] | the later points of the grid that one point sees, all by one look |
//! | [`some_in_sight`] | whether it sees each of some later points, by one look between the outermost directions to them |
//! | [`GridTable`], [`grid_table_of`] | the points of a grid with what looks at them need: made once, used for each point |
//! | [`later_points_are_above`] | a point of the grid sees those of greater numbers within one half turn |
//!
//! ```text
//!   6   7   8      Each point looks at those of greater numbers, and the graph has no direction: from 4
//!   3   4   5      one looks at 5, 6, 7 and 8, which all lie in the half turn from straight right on.
//!   0   1   2
//! ```
#![tactic(auto)]

mod arcs;
mod grid_table;
mod laws;
mod looks;
#[cfg(test)]
mod tests;

pub use grid_table::{GridTable, grid_table_of};
pub use laws::later_points_are_above;
pub use looks::{graph_by_looks, later_in_sight, some_in_sight};
