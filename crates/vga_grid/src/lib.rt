//! The grid of a plan, and graphs as rows of words: among them the visibility graph of the grid's points.
//!
//! | item | what it is |
//! |---|---|
//! | [`Grid`] | the points of a plan's grid, by number |
//! | [`open_points`], [`openness`] | those that are open, each beside its number; and of each whether it is |
//! | [`BitGraph`], [`MAX_NODES`] | a graph without directions and loops, and how many nodes it may have |
//! | [`Edges`] | its edges, each once, in order |
//! | [`graph_naive`] | the visibility graph of a plan, pair by pair |
//! | [`types_are_shared`] | both types may be moved to a thread and shared between threads |
//!
//! A point's number is counted row by row, from the grid's first corner on:
//!
//! ```text
//!   row 2   6   7   8
//!   row 1   3   4   5      number = row * cols + col
//!   row 0   0   1   2
//! ```
#![tactic(auto)]

mod bit_graph;
mod bits;
mod edges;
mod grid;
mod limits;
mod naive;
mod obstacles;

pub use bit_graph::{BitGraph, types_are_shared};
pub use edges::Edges;
pub use grid::{Grid, open_points};
pub use limits::MAX_NODES;
pub use naive::{graph_naive, openness};
