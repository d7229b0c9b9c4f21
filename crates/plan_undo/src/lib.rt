//! Undo and redo over any editor of a plan.
//!
//! | item | what it is |
//! |---|---|
//! | [`Undo`] | an editor that keeps what takes its changes back, in two rings |
//! | [`UndoFault`] | why nothing was undone or redone |
//! | [`undoing_gives_back`] | law: a change that is undone gives back the plan |
//!
//! ```text
//! change                  add A   add B   undo   undo   redo
//! obstacles               A       A B     A             A
//! changes to undo    0    1       2       1      0      1
//! changes to redo    0    0       0       1      2      1
//! ```
#![tactic(auto)]

mod faults;
mod laws;
mod stepping;
mod undo;
mod ways;

pub use faults::UndoFault;
pub use laws::undoing_gives_back;
pub use undo::Undo;
