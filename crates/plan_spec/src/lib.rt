//! Floor plans: what a plan is, which plans are accepted, why an item or an edit is refused, and the grid. The
//! definitions that every claim on plans rests on, and the plain data that they name.
//!
//! | item | what it is |
//! |---|---|
//! | [`Points`], [`Items`] | lists of points and of items |
//! | [`Item`], [`PlanData`] | what a plan is made of: an outer polygon, a grid, obstacles, screens and routes |
//! | [`GridSpec`], [`Screen`], [`Route`] | the parts of a plan that aren't polygons |
//! | [`Edit`], [`Changed`] | a change of a plan, and the boxes in which something changes |
//! | [`Why`], [`Limit`] | why an item or an edit is refused |
//! | [`MAX_OBSTACLES`], [`MAX_CORNERS`], .. | how much a plan may have |
//!
//! The definitions stand in `specs/`, in the order in which they are read: `Plan`, `Accepted`, `Refusals`, `Edits`,
//! `Ranges`, `Grid`.
#![tactic(auto)]

mod edit;
mod item;
mod limits;
mod lists;
mod why;

pub use edit::{Changed, Edit};
pub use item::{GridSpec, Item, PlanData, Route, Screen};
pub use limits::{
    MAX_AXIAL_LINES, MAX_CORNERS, MAX_GRID_POINTS, MAX_OBSTACLES, MAX_ROUTES, MAX_SCREENS,
    MAX_SHIFT, MAX_STEP,
};
pub use lists::{Items, Points};
pub use why::{Limit, Why};
