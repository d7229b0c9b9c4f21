//! A session on an accepted plan: the plan and what is found of it, kept over edits as far as it stays.
//!
//! | item | what it is |
//! |---|---|
//! | [`Session`] | a plan, its scene, and its visibility graph and axial lines once they were asked for |
//!
//! What is kept never is that of an earlier plan:
//!
//! ```text
//!   edit of            scene    graph     axial lines
//!   a route            stays    stays     stay
//!   an obstacle        anew     let go    mended, where they aren't too many now
//!   a screen           anew     let go    likewise
//! ```
//!
//! Graph and lines are made where they are first asked for: a session that is asked for neither pays for neither. Where
//! a graph that is let go was that of the plan before the edit, the next one is mended from it.
#![tactic(auto)]

mod past;
mod session;

pub use session::Session;
