//! The program as one call over files, a script and sinks that are handed in: it answers a script line by line over a
//! plan and prints the tables of a mode, and each of its statuses has a stated cause.
//!
//! | item | what it is |
//! |---|---|
//! | [`run`] | does all that the program does |
//! | [`Status`] | how a run ended, with the number that the program ends with |
//! | [`start`], [`exit`], [`NO_WORDS`] | what a program's `main` does: [`run`] over the system's own files and streams |
//!
//! Data goes one way: words, options, the plan's file, a session on the plan, the script's lines and their replies,
//! the tables of the mode. The definitions that the contract of [`run`] cites stand in `specs/`, in the order in
//! which they are read: `Words` says which options the words give, `Streams` of `plan_file` what a run reads and writes,
//! `PlanFiles` of `plan_file` which plan a file holds, `Ends` what each status says of them, `Statuses` with `Said` of
//! `plan_file` what is said on standard error.
#![tactic(auto)]

mod desk;
mod host;
mod messages;
mod program;
mod status;
mod words;

pub use host::{NO_WORDS, exit, start};
pub use program::run;
pub use status::Status;
