//! A gate at which two workers meet, for tests of work that several share.
//!
//! | item | what it is |
//! |---|---|
//! | [`MeetingGate`] | holds the worker of the first row that it is told, until another worker has told a row |
#![tactic(auto)]

mod meeting;

pub use meeting::MeetingGate;
