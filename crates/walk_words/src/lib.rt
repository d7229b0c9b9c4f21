//! The words of the command for walkers, read as what they ask for.
//!
//! | item | what it is |
//! |---|---|
//! | [`walk_options_in`] | what the words ask for, if they ask for something |
//! | [`WalkOptions`] | the plan's file, the walkers and how many workers they are given to |
//!
//! ```text
//! -f plan.txt 100 50 7 4      100 walkers of 50 steps over plan.txt, with seed 7, by 4 workers
//! -f plan.txt 0 50 7 4        nothing: there is to be a walker
//! ```
#![tactic(auto)]

mod reading;

pub use reading::{WalkOptions, walk_options_in};
