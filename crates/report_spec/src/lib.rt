//! What is printed: the records of every table, the replies to the lines of a script, and the whole output.
//!
//! | item | what it is |
//! |---|---|
//! | [`Reason`] | why a line of a plan or of a script is refused |
//!
//! The definitions stand in `specs/`, in the order in which they are read: `Records`, `Tables`, `Replies`, `Trial`,
//! `PlanFile`, `Output`, `Messages`.
#![tactic(auto)]

mod reason;

pub use reason::Reason;
