//! The plane: the definitions of plane geometry that every claim on plans rests on, and the plain data that they name.
//!
//! | item | what it is |
//! |---|---|
//! | [`Point`] | a point with whole coordinates, or a direction |
//! | [`Segment`] | a directed segment: an edge of a polygon, a wall or a screen |
//! | [`Corner`] | a corner between the points before and after it |
//! | [`PlanBox`] | a box with sides along the axes |
//! | [`Orientation`] | which way round a polygon is given |
//! | [`MAX_COORDINATE`], [`MAX_COMPONENT`] | how large coordinates and the components of directions are |
//!
//! The definitions stand in `specs/`: `Lists` (pairs, distinct elements, the least, elements in order), `Vectors`
//! (cross, dot, orientation, ranges, the order of directions), `Segments` (on a segment, proper crossing, touching),
//! `Polygons` (edges, inside, simple), `Cones` (the directions into what is blocked), `Fractions` (order, lowest terms,
//! points with fractions), `RPoints` (the same as `Segments` for such points) and `Boxes` (which segments meet one).
#![tactic(auto)]

/// The greatest size of a coordinate, in the plan's own unit.
pub const MAX_COORDINATE: i64 = 100_000;

/// The greatest size of a component of a direction: that of the sum of two vectors between points in range.
pub const MAX_COMPONENT: i64 = 400_000;

/// A point of the plane in the plan's own unit, or a direction.
#[derive(Clone, Copy, Debug, PartialEq, Eq)]
pub struct Point {
    /// To the right.
    pub x: i64,
    /// Upwards.
    pub y: i64,
}

/// A segment, directed from `a` to `b`.
#[derive(Clone, Copy, Debug, PartialEq, Eq)]
pub struct Segment {
    /// Where it begins.
    pub a: Point,
    /// Where it ends.
    pub b: Point,
}

/// A corner at `here`, between the points before and after it in the direction of the walls.
#[derive(Clone, Copy, Debug, PartialEq, Eq)]
pub struct Corner {
    /// The point before it.
    pub prev: Point,
    /// The corner itself.
    pub here: Point,
    /// The point after it.
    pub next: Point,
}

/// The points from `low` to `high` in both coordinates, borders counted.
#[derive(Clone, Copy, Debug, PartialEq, Eq)]
pub struct PlanBox {
    /// The least of both coordinates.
    pub low: Point,
    /// The greatest of both coordinates.
    pub high: Point,
}

/// Which way round a polygon's edges are directed: what it bounds lies left of counterclockwise ones.
#[derive(Clone, Copy, Debug, PartialEq, Eq)]
pub enum Orientation {
    /// What is bounded lies to the left of each edge.
    Counterclockwise,
    /// What is bounded lies to the right of each edge.
    Clockwise,
}
