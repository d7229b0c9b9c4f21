//! Changes of a plan that name places, so that each can be taken back; and what a plan is edited through.
//!
//! | item | what it is |
//! |---|---|
//! | [`Back`] | an edit that names the place of what is added |
//! | [`with_back`] | the plan after one |
//! | [`back_of`] | an edit as one |
//! | [`inverse`] | the one that takes another back |
//! | [`edit_name`] | the name of what an edit changes |
//! | [`Editor`] | an object that keeps a plan and makes changes of it |
//! | [`Desk`] | the plain editor: a plan |
//! | [`an_edit_as_back`], [`taking_back`] | laws: an edit and its `Back` are one change; the inverse takes it back |
//!
//! ```text
//! obstacles A B C    Take B, whose inverse is Put 1 B ..    obstacles A C
//! obstacles A C      Put 1 B .., whose inverse is Take B    obstacles A B C
//! ```
#![tactic(auto)]

mod back;
mod change;
mod copies;
mod editor;
mod inverting;
mod laws;
mod placing;

pub use back::{Back, edit_name};
pub use change::with_back;
pub use editor::{Desk, Editor};
pub use inverting::{back_of, inverse};
pub use laws::{an_edit_as_back, taking_back};
