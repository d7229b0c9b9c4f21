//! Why an item or an edit is refused.

use text_spec::Name;

/// What there is too much of.
#[derive(Clone, Copy, Debug, PartialEq, Eq)]
pub enum Limit {
    /// More than [`MAX_OBSTACLES`](crate::MAX_OBSTACLES) obstacles.
    Obstacles,
    /// More than [`MAX_CORNERS`](crate::MAX_CORNERS) corners of polygons and ends of screens.
    Corners,
    /// More than [`MAX_SCREENS`](crate::MAX_SCREENS) screens.
    Screens,
    /// More than [`MAX_ROUTES`](crate::MAX_ROUTES) routes.
    Routes,
    /// More than [`MAX_GRID_POINTS`](crate::MAX_GRID_POINTS) grid points.
    Points,
}

/// Why an item or an edit is refused: the first that holds, in this order.
#[derive(Drop)]
pub enum Why {
    /// The outer polygon isn't the first item, or it or the grid is there already.
    Order,
    /// Fewer than three points.
    Count,
    /// A number is out of its range.
    Range,
    /// Neighbouring points are equal.
    Repeat,
    /// The polygon isn't simple.
    Cross,
    /// Not strictly within the outer polygon.
    Outside,
    /// It touches the obstacle of this name, or one is inside the other.
    Touch(Name),
    /// It touches the screen of this name, or the screen is inside it.
    Screen(Name),
    /// The name is in use.
    NameTaken,
    /// There is nothing of this name.
    Missing,
    /// A limit would be passed.
    Full(Limit),
    /// It shares more than a point with the route of this name.
    Overlap(Name),
}
