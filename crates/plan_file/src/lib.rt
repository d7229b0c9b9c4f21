//! What programs share that read the plan in a file and say why there is none: the reading, the line that says why, and
//! the words in which their contracts speak of files and streams.
//!
//! | item | what it is |
//! |---|---|
//! | [`plan_in_file`] | reads the plan in the file of a name |
//! | [`PlanFault`] | why no plan is read |
//! | [`say_why`] | says in one line on which line of its file a plan is at fault, and why |
//!
//! ```text
//! plan 1
//! outerbox 0 0 10 10
//! box A 4 4 20 6           depthmap: plan line 3: outside
//! ```
//!
//! The definitions stand in `specs/`, in the order in which they are read: `Streams` says what a run reads and writes
//! and how often that failed, `PlanFiles` which plan a file holds and what was taken of the file, `Said` what was said
//! on standard error.
#![tactic(auto)]

mod messages;
mod reading;

pub use messages::say_why;
pub use reading::{PlanFault, plan_in_file};
