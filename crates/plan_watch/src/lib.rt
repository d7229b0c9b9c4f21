//! Watchers of a plan's edits: each is told every accepted edit since it was attached, in order, once.
//!
//! | item | what it is |
//! |---|---|
//! | [`Note`], [`NoteKind`] | what is told of an edit |
//! | [`note_of`] | the note of an edit |
//! | [`Watch`] | an object that is told notes and keeps some |
//! | [`Journal`], [`Tail`] | one that keeps all notes, and one that keeps the last few |
//! | [`ready_all`], [`note_all`] | makes all ready for a note; tells all |
//! | [`watched_edit`] | an edit that all are told, or nobody where it is refused |
//! | [`unwatch`] | takes one out |
#![tactic(auto)]

mod journal;
mod note;
mod tail;
mod watch;
mod watchers;

pub use journal::Journal;
pub use note::{Note, NoteKind, note_of};
pub use tail::Tail;
pub use watch::Watch;
pub use watchers::{note_all, ready_all, unwatch, watched_edit};
