//! Depths in a graph, in steps, and what is measured by them.
//!
//! | item | what it is |
//! |---|---|
//! | [`depths`] | the depth of each node from one of them |
//! | [`measures`], [`Measure`] | connectivity, reach, total and mean depth and relative asymmetry of each node |
//! | [`mean_of`] | the mean depth, where so many nodes are reached and their depths have such a sum |
//! | [`types_are_shared`] | measures may be moved to a thread and shared between threads |
//!
//! The depth of a node is the least number of edges of a walk to it. From node 0 of this graph:
//!
//! ```text
//!   0 --- 1 --- 3        depths 0 1 1 2 and none;  connectivity 2, reached 4, total 4,
//!    \   /              mean 4 / 3, relative asymmetry 2 (4/3 - 1) / (4 - 2) = 1 / 3
//!      2         4
//! ```
//!
//! A search goes level by level over sets of nodes, which are bits of words as the rows of the graph are.
#![tactic(auto)]

mod levels;
mod marking;
mod measuring;
mod reach;
mod sets;
mod workers;

pub use marking::depths;
pub use measuring::{Measure, mean_of, types_are_shared};
pub use workers::measures;
