//! The table of visits.
//!
//! | item | what it is |
//! |---|---|
//! | [`put_visits`] | prints numbered points with how often each was visited |
//!
//! ```text
//! table visits
//! 0 0 4 8           number, x, y, visits
//! 1 10 4 8
//! total 16          the sum of all visits
//! end 2
//! ```
#![tactic(auto)]

mod visits;

pub use visits::put_visits;
