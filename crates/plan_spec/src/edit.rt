//! Changes of a plan.

use crate::lists::Points;
use plane_spec::{PlanBox, Point};
use text_spec::Name;

/// A change of a plan, as it is asked for. Points may be out of range. The shift of a move is at most
/// [`MAX_SHIFT`](crate::MAX_SHIFT) in each coordinate, of which the caller sees to it.
#[derive(Drop)]
pub enum Edit {
    /// A new obstacle of this name, with these points.
    Add(Name, Points),
    /// The obstacle of this name goes.
    Remove(Name),
    /// The obstacle of this name is shifted by so much in x and in y.
    Move(Name, i64, i64),
    /// A new screen of this name, between these ends.
    AddScreen(Name, Point, Point),
    /// The screen of this name goes.
    RemoveScreen(Name),
    /// A new route of this name, from the first point to the second.
    AddRoute(Name, Point, Point),
    /// The route of this name goes.
    RemoveRoute(Name),
}

/// The boxes of the obstacle or screen before and after an edit, where there is one.
#[derive(Clone, Copy, Debug, PartialEq, Eq)]
pub struct Changed {
    /// The least box of it before the edit.
    pub first: Option<PlanBox>,
    /// The least box of it after the edit.
    pub second: Option<PlanBox>,
}
