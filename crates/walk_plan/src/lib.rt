//! Walkers over the grid of a plan: how often each open point is visited, and the table of it.
//!
//! | item | what it is |
//! |---|---|
//! | [`plan_visits`] | how often each point of the grid is visited |
//! | [`put_walk`], [`WalkFault`] | prints the table of it, and why it didn't |
//!
//! ```text
//!   open points ──────────────► starts ─┐
//!   plan ──► vga_fill: a graph ─────────┴► walk_core: visits ──► walk_table: the table of visits
//! ```
#![tactic(auto)]

mod printing;
mod starts;

pub use printing::{WalkFault, put_walk};
pub use starts::plan_visits;
