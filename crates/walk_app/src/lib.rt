//! The program of walkers as one call over files and sinks that are handed in: it prints how often walkers visit each open
//! point of a plan's grid, and each of its statuses has a stated cause.
//!
//! | item | what it is |
//! |---|---|
//! | [`walk_run`] | does all that the program does |
//! | [`WalkStatus`] | how a run ended, with the number that the program ends with |
//! | [`start`], [`exit`], [`NO_WORDS`] | what a program's `main` does: [`walk_run`] over the system's own files and streams |
//!
//! Data goes one way: words, options, the plan's file, the plan, the table of visits. The definitions that the contract of
//! [`walk_run`] cites stand in `specs/`, in the order in which they are read: `Words` says what the words ask for, `Streams`
//! and `PlanFiles` of `plan_file` what a run reads and writes and which plan a file holds, `Ends` what each status says of
//! them, `Statuses` with `Said` of `plan_file` what is said on standard error.
#![tactic(auto)]

mod host;
mod messages;
mod program;
mod status;

pub use host::{NO_WORDS, exit, start};
pub use program::walk_run;
pub use status::WalkStatus;
