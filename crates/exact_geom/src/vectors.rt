//! Points in range, the directions between them, and what lies left of them.

ghost use Rattle.std.specs.Prelude.{◌≡◌, ◌↔◌, IsTrue};
ghost use Rattle.plane_spec.specs.Vectors as vectors;
ghost use Rattle.plane_spec.specs.Vectors.{InRange, IsDirection, IsWithin};
ghost use Rattle.plane_spec.specs.declared.TheConstants as plane;
ghost use Rattle.exact_geom.specs.declared.limits.TheConstants.{MAX_DIFFERENCE};

use crate::arithmetic::difference;
use crate::compare::is_positive;
use crate::products::{cross, orient};
use plane_spec::{MAX_COORDINATE, Point};

/// Whether `z` is a coordinate: at most `MAX_COORDINATE` in size.
pub fn is_coordinate(z: i64) -> bool
    ensures value { result ≡ vectors.is_coordinate z }
    ensures meaning { IsTrue result ↔ IsWithin plane.MAX_COORDINATE z }
{
    -MAX_COORDINATE <= z && z <= MAX_COORDINATE
}

/// Whether both coordinates are in range. `p` may have any.
pub fn in_range(p: Point) -> bool
    ensures value { result ≡ vectors.is_in_range p }
    ensures meaning { IsTrue result ↔ InRange p }
{
    is_coordinate(p.x) && is_coordinate(p.y)
}

/// Whether two points are one. They may have any coordinates.
pub fn same_point(p: Point, q: Point) -> bool
    ensures { result ≡ vectors.same_point p q }
{
    p == q
}

/// The direction from `a` to `b`.
pub fn vector(a: Point, b: Point) -> Point
    requires a_in { InRange a }
    requires b_in { InRange b }
    ensures value { result ≡ vectors.vector a b }
    ensures x_within { IsWithin MAX_DIFFERENCE result.x }
    ensures y_within { IsWithin MAX_DIFFERENCE result.y }
    ensures direction { IsDirection result }
{
    Point {
        x: difference(a.x, b.x),
        y: difference(a.y, b.y),
    }
}

/// Whether `e` is strictly left of `d`.
///
/// Cost: two multiplications.
pub fn turns_left(d: Point, e: Point) -> bool
    requires d_in { IsDirection d }
    requires e_in { IsDirection e }
    ensures { result ≡ vectors.turns_left d e }
{
    is_positive(cross(d, e))
}

/// Whether `c` lies strictly left of the line from `a` to `b`.
///
/// Cost: two multiplications.
pub fn is_left_of_line(a: Point, b: Point, c: Point) -> bool
    requires a_in { InRange a }
    requires b_in { InRange b }
    requires c_in { InRange c }
    ensures { result ≡ vectors.is_left_of_line a b c }
{
    is_positive(orient(a, b, c))
}
