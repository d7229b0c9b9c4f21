//! A wall or a screen as it is seen from the station.

ghost use Rattle.std.specs.Prelude.{◌≡◌, pos, ◌<ℤ◌};
ghost use Rattle.plane_spec.specs.Vectors.{IsDirection, IsDirected, IsWithin, cross_of, vector};

use plane_spec::Point;

/// A wall or a screen that isn't in line with the station: `to` is left of `from`.
#[derive(Clone, Copy, Debug)]
pub(crate) struct Blocker {
    pub(crate) from: Point,
    pub(crate) to: Point,
    /// From `from` to `to`.
    pub(crate) edge: Point,
    /// The cross product of `from` and `to`.
    pub(crate) spread: i64,
    /// The number of the wall, or of the screen after all walls.
    pub(crate) number: u32,
    /// Whether a point on it is behind what is blocked: it is a wall with the station on its left.
    pub(crate) hides: bool,
    ghost from_in: { IsDirection from },
    ghost to_in: { IsDirection to },
    ghost edge_in: { IsDirection edge },
    ghost edge_is: { edge ≡ vector from to },
    ghost spread_is: { spread ≡ cross_of from to },
    ghost spread_in: { IsWithin (pos 320000000000) spread },
    ghost up: { pos 0 <ℤ spread },
}
