//! What is seen in a plan: its walls, screens and corners, who sees whom, how far a ray reaches, the visibility graph
//! of the grid, isovists, axial lines, and what an edit may change of all this. Definitions, and the plain data that
//! they name.
//!
//! | item | what it is |
//! |---|---|
//! | [`Target`] | what is asked of the point from which one looks |
//!
//! The definitions stand in `specs/`, in the order in which they are read: `Scene`, `Sight`, `Visibility`, `Stops`,
//! `Sweep`, `Isovist`, `Axial`, `Dirty`.
#![tactic(auto)]

mod target;

pub use target::Target;
