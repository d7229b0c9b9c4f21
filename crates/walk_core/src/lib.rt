//! Walkers over a graph, by as many workers as there are to be, and how often each node is visited.
//!
//! | item | what it is |
//! |---|---|
//! | [`walk`] | the visits of each node |
//! | [`WalkSpec`] | how many walkers make how many steps, and the seed of their generators |
//! | [`MAX_WALKERS`], [`MAX_WALK_STEPS`] | how many walkers and steps there may be |
//!
//! The neighbours of all nodes are listed once. A walker of number w draws from a generator of its own, that of the seed
//! with stream w, so it walks alike whichever worker it is given to:
//!
//! ```text
//!   walkers 0 1 2 3 4 5 6 7, four workers
//!           0 1 2 3 | 4 5 6 7        each half is divided again, and a worker that is left with some
//!           0 1 | 2 3 | 4 5 | 6 7    walks them one after the other; then the visits of both halves are added
//! ```
#![tactic(auto)]

mod neighbours;
mod visits;
mod walkers;
mod workers;

pub use visits::walk;
pub use walk_spec::{MAX_WALK_STEPS, MAX_WALKERS, WalkSpec};
