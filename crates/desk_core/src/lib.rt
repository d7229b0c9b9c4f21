//! What a line does at a desk: to the plan, to its history and to the watchers.
//!
//! | item | what it is |
//! |---|---|
//! | [`follow`] | does what a line asks for |
//! | [`Outcome`] | what came of it, of which the reply is made |
//! | [`DeskLine`], [`DeskReason`] | what a line asks for; why it is refused |
//!
//! ```text
//! line              plan        can be undone   told         outcome
//! addbox A ..       A           1               1 add A      Done
//! remove B          A           1                            Refused: missing
//! undo                          0               3 undo A     Done
//! undo                          0                            Refused: nothing
//! ```
//!
//! A change is told to all watchers, or to none: they are made ready before it is made, which is all that may take
//! memory.
#![tactic(auto)]

mod changes;
mod lines;
mod outcome;
mod telling;
mod watchers;

pub use desk_spec::{DeskLine, DeskReason};
pub use lines::follow;
pub use outcome::Outcome;
