//! Isovists: what is seen from an open point, as triangles.
//!
//! | item | what it is |
//! |---|---|
//! | [`isovist`] | the isovist of an open point |
//! | [`isovist_totals`], [`IsovistTotals`] | how many triangles an isovist has, and the sums of their areas, without the triangles |
//! | [`isovist_totals_by`] | the same by a table of the scene, which serves for many points |
//! | [`IsovistParts`] | the triangles of an isovist, and the sums of floors and ceilings of their doubled areas |
//! | [`Triangle`] | a triangle of the point that sees, with its doubled area and the wall or screen on its far side |
//! | [`IsovistFault`] | why there is no isovist |
//! | [`types_are_shared`] | all of these may be moved to a thread and shared between threads |
//!
//! The directions in which corners lie cut what is seen into sectors. In each of them one wall or screen is seen, and
//! consecutive sectors with one wall make one triangle:
//!
//! ```text
//!   +---------------------+      From p four corners lie in four directions. Each sector shows one wall, so there are
//!   | `.      2       _-' |      four triangles, and together they are the box.
//!   |   `.        _-'     |
//!   | 3   `.  _-'         |
//!   |      _p-.        1  |
//!   |   _-'     `-._      |
//!   |_-'    4        `-._ |
//!   +---------------------+
//! ```
#![tactic(auto)]

mod area;
mod directions;
mod fault;
mod gap;
mod gaps;
mod heading;
mod parts;
mod room;
mod runs;
mod seeing;
mod sighted_run;
mod sights;
mod sums;
mod totals;
mod triangle;
mod triangles;
mod ways;

pub use fault::IsovistFault;
pub use parts::{IsovistParts, types_are_shared};
pub use seeing::{isovist, isovist_totals, isovist_totals_by};
pub use totals::IsovistTotals;
pub use triangle::Triangle;
