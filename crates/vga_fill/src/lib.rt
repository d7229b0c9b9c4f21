//! The visibility graph of a plan's grid, filled by several workers together; after an edit only the rows that the edit
//! may have changed are looked at again.
//!
//! | item | what it is |
//! |---|---|
//! | [`fill_all`] | the visibility graph of a plan, by so many workers |
//! | [`refill`] | the visibility graph after an edit, from the one before it |
//! | [`Fill`] | a graph that is being filled: a table of words, which change one at a time |
//! | [`FillSeat`] | a worker's token, with the row that it holds |
//! | [`Claim`] | a row that was claimed, or that none is left |
//! | [`fill_row`] | works a row after an edit |
//! | [`types_are_shared`] | a fill may be shared between threads, and a seat moved to another |
//!
//! A worker claims a row, writes both places of each of its pairs with later nodes, and claims the next:
//!
//! ```text
//!            0 1 2 3
//!        0   . x x x      row 0 is claimed: who holds it writes (0,1) and (1,0), (0,2) and (2,0), ..
//!        1   x . o o      row 1 is claimed by another: (1,2) and (2,1), ..
//!        2   x o .
//!        3   x o   .      so no two workers write one place
//! ```
//!
//! Between any two steps of any workers each place shows what is old or new there, each row below the count of claims
//! is claimed by one seat, and what a seat wrote stays. So the last seat closes the fill with the new graph.
#![tactic(auto)]

mod claim;
mod closing;
mod dirty;
mod events;
mod fill;
mod filling;
mod job;
mod looks;
mod opening;
mod places;
mod rows;
mod runs;
mod seat;
mod shared;
mod sights;
mod workers;

pub use claim::Claim;
pub use fill::Fill;
pub use rows::fill_row;
pub use seat::FillSeat;
pub use shared::types_are_shared;
pub use workers::{fill_all, refill};
