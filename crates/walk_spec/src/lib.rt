//! Walkers over a graph: where each of them stands after each of its steps, and how often each node is visited.
//! Definitions, and the data that they name.
//!
//! | item | what it is |
//! |---|---|
//! | [`WalkSpec`] | how many walkers make how many steps, and the seed of their generators |
//! | [`MAX_WALKERS`], [`MAX_WALK_STEPS`] | how many walkers and steps there may be |
//!
//! `specs/Walks.antt` says how a walker draws. Each has a generator of its own, whose stream is the walker's number,
//! and begins at one of the starting points. Then it goes to a neighbour at each step:
//!
//! ```text
//!   0 --- 1 --- 3      a walker on 1 has the neighbours 0 2 3, and its next draw d takes it to the one at place d mod 3;
//!    \   /             one on 0 goes to place d mod 2 of 1 2;
//!      2         4     one on 4 has no neighbours: it stays and draws nothing
//! ```
//!
//! A node's visits are counted over all walkers and all numbers of steps from 0 to the last, so the start is a visit.
#![tactic(auto)]

/// The most walkers.
pub const MAX_WALKERS: u32 = 1000;

/// The most steps of a walker.
pub const MAX_WALK_STEPS: u32 = 10_000;

/// What walkers do.
#[derive(Clone, Copy, Debug)]
pub struct WalkSpec {
    /// The seed, which all generators share; each has the stream of its walker's number.
    pub seed: u64,
    /// How many walkers there are, numbered from 0.
    pub walkers: u32,
    /// How many steps each of them makes.
    pub steps: u32,
}
