//! What a desk does: the lines that it reads, what each does to its plan, its history and its watchers, and its output.
//!
//! | item | what it is |
//! |---|---|
//! | [`DeskLine`] | a line of a script at a desk: an edit, a step through the history, or a question |
//! | [`DeskReason`] | why such a line is refused |
//! | [`DEPTH`] | how many changes a desk can undo |
//!
//! The definitions stand in `specs/`, in the order in which they are read: `DeskText`, `Desks`, `DeskOutput`.
#![tactic(auto)]

mod depth;
mod line;
mod reason;

pub use depth::DEPTH;
pub use line::DeskLine;
pub use reason::DeskReason;
