//! Which axial lines meet, and the graph that joins those that do.
//!
//! | item | what it is |
//! |---|---|
//! | [`meet`] | whether two lines of a scene share a point |
//! | [`crossing_graph`] | the graph over lines that joins those that meet |
//!
//! Two lines meet where their closed segments share a point, an end among them:
//!
//! ```text
//!   0 ------+------- 0        0 meets 1, whose end lies on it; 2 meets none
//!           |
//!           1     2 -- 2      edges: 0 1
//! ```
//!
//! The ends of lines are fractions of some eighteen digits. No orientation of three of them is computed, whose parts
//! have a hundred digits: each line is known as a stretch of the line through its two corners, and stretches are
//! compared by cross products of whole points. Most pairs that don't meet are told before by whole numbers round their
//! ends.
#![tactic(auto)]

mod compare;
mod extents;
mod limits;
mod meeting;
mod near;
mod pairs;
mod parameter;
mod rows;
mod stretch;

pub use pairs::meet;
pub use rows::crossing_graph;
