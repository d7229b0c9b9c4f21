//! What a line of a plan says.

use plan_spec::Item;

/// What the first line that isn't blank says: which lines may follow. Screens stand in version 2 alone.
#[derive(Clone, Copy, Debug, PartialEq, Eq)]
pub enum Version {
    /// `plan 1`.
    One,
    /// `plan 2`.
    Two,
}

/// The word that begins the line of an item.
#[derive(Clone, Copy, Debug, PartialEq, Eq)]
pub enum PlanWord {
    /// The grid of points.
    Grid,
    /// The outer polygon, by its points.
    Outer,
    /// The outer polygon as a box, by two opposite corners.
    Outerbox,
    /// An obstacle, by its name and points.
    Obstacle,
    /// An obstacle as a box, by its name and two opposite corners.
    Box,
    /// A screen, by its name and ends.
    Screen,
    /// A route, by its name and ends.
    Route,
}

/// A line of a plan.
#[derive(Drop)]
pub enum PlanLine {
    /// No words, or a comment.
    Blank,
    /// The version of the plan.
    Header(Version),
    /// An item, as it is given.
    Item(Item),
}
