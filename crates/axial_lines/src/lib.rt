//! The axial lines of a plan, and those after an edit.
//!
//! | item | what it is |
//! |---|---|
//! | [`AxialLine`] | the line through two corners of a scene, as far as nothing stops it |
//! | [`LinesFault`] | why there is no list of lines |
//! | [`all_lines`] | the axial lines of a scene |
//! | [`update_lines`] | the axial lines after an edit, from those before it |
//! | [`Steps`] | how many sweeps were made |
//!
//! Each pair of corners that see each other gives a line. Beyond each of the two it ends where something stops it, or
//! at the corner itself where nothing does:
//!
//! ```text
//!    +------------------------+
//!    |                        |
//!   from-----4----5----------to    the line of the corners 4 and 5 of a box: along its side,
//!    |       |####|           |    and on to the outer walls
//!    |       +----+           |
//!    +------------------------+
//! ```
//!
//! A line whose two ends are those of an earlier one is left out: equal lines are known by a hash of their ends.
#![tactic(auto)]

mod all;
mod by_ends;
mod corners;
mod dirty;
mod engine;
mod fault;
mod gap;
mod kept;
mod line;
mod line_set;
mod outlooks;
mod pair;
mod seen;
mod stopped;
mod update;
mod views;

pub use all::all_lines;
pub use fault::LinesFault;
pub use line::AxialLine;
pub use sight_sweep::Steps;
pub use update::update_lines;
