//! Products of directions in 64 bits.

ghost use Rattle.std.specs.Prelude.{◌≡◌, pos, neg_ℤ, ◌+ℤ◌, ◌-ℤ◌, ◌*ℤ◌, int_lt, not};
ghost use Rattle.std.specs.Ordering.{int_eq};
ghost use Rattle.plane_spec.specs.Vectors as vectors;
ghost use Rattle.plane_spec.specs.Vectors.{IsDirection, IsWithin, cross_of, point, turns_left, same_point};

use plane_spec::Point;

fn product(a: i64, b: i64) -> i64
    requires a_in { IsWithin (pos 400000) a }
    requires b_in { IsWithin (pos 400000) b }
    ensures value { result ≡ a *ℤ b }
    ensures within { IsWithin (pos 160000000000) result }
{
    a * b
}

fn minus(a: i64, b: i64) -> i64
    requires a_in { IsWithin (pos 160000000000) a }
    requires b_in { IsWithin (pos 160000000000) b }
    ensures value { result ≡ a -ℤ b }
    ensures within { IsWithin (pos 320000000000) result }
{
    a - b
}

/// The cross product of two directions.
pub(crate) fn cross(d: Point, e: Point) -> i64
    requires d_in { IsDirection d }
    requires e_in { IsDirection e }
    ensures value { result ≡ cross_of d e }
    ensures within { IsWithin (pos 320000000000) result }
{
    minus(product(d.x, e.y), product(d.y, e.x))
}

fn negative(a: i64) -> i64
    requires { IsWithin (pos 400000) a }
    ensures value { result ≡ neg_ℤ a }
    ensures within { IsWithin (pos 400000) result }
{
    -a
}

/// The direction straight back.
pub(crate) fn back(d: Point) -> Point
    requires { IsDirection d }
    ensures value { result ≡ point (neg_ℤ d.x) (neg_ℤ d.y) }
    ensures direction { IsDirection result }
{
    Point {
        x: negative(d.x),
        y: negative(d.y),
    }
}

/// The sum of two cross products.
pub(crate) fn plus_cross(a: i64, b: i64) -> i64
    requires a_in { IsWithin (pos 320000000000) a }
    requires b_in { IsWithin (pos 320000000000) b }
    ensures value { result ≡ a +ℤ b }
    ensures within { IsWithin (pos 640000000000) result }
{
    a + b
}

/// Whether `e` is strictly left of `d`.
pub(crate) fn is_left(d: Point, e: Point) -> bool
    requires d_in { IsDirection d }
    requires e_in { IsDirection e }
    ensures { result ≡ turns_left d e }
{
    is_positive(cross(d, e))
}

/// Whether the direction is one of the half turn from (1,0) on, up to but not with (-1,0).
pub(crate) fn is_upper(d: Point) -> bool
    ensures { result ≡ vectors.is_upper d }
{
    is_positive(d.y) || (is_zero(d.y) && is_positive(d.x))
}

/// Whether it leads somewhere.
pub(crate) fn is_directed(d: Point) -> bool
    ensures { result ≡ not (same_point d (point (pos 0) (pos 0))) }
{
    !(is_zero(d.x) && is_zero(d.y))
}

/// Whether `z` is 0.
pub(crate) fn is_zero(z: i64) -> bool
    ensures { result ≡ int_eq z (pos 0) }
{
    z == 0
}

/// Whether `z` is above 0.
pub(crate) fn is_positive(z: i64) -> bool
    ensures { result ≡ int_lt (pos 0) z }
{
    0 < z
}

/// Whether `z` is below 0.
pub(crate) fn is_negative(z: i64) -> bool
    ensures { result ≡ int_lt z (pos 0) }
{
    z < 0
}
