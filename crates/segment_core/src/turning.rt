//! The turn from one direction to another.

ghost use Rattle.std.specs.Prelude.{◌≡◌, ◌+◌, ◌≤◌, ◌^◌, ℕ, ℤ, pos, neg_ℤ, ◌≢◌, unsigned_abs, int_le, int_lt, cond, ◌-ℤ◌, ◌*ℤ◌, ◌&&◌};
ghost use Rattle.std.specs.Ordering.{int_eq};
ghost use Rattle.plane_spec.specs.Vectors.{IsDirection, IsWithin, cross_of, point};
ghost use Rattle.exact_geom.specs.declared.limits.TheConstants.{MAX_CROSS};
ghost use Rattle.segment_core.specs.declared.limits.TheConstants.{MAX_TABLE_COMPONENT};
ghost use Rattle.route_spec.specs.Routes.{turn_of, relative_direction, is_straight_back};

use crate::narrowing::narrow;
use exact_geom::{Point, cross, dot};

/// The size of a cross product.
fn size(value: i64) -> i64
    requires { IsWithin MAX_CROSS value }
    ensures value { result ≡ pos (unsigned_abs value) }
    ensures within { IsWithin MAX_CROSS result }
{
    if value < 0 { -value } else { value }
}

/// The second direction as it is seen along the first, turned to the upper half.
fn relative_direction(d: Point, e: Point) -> Point
    requires d_in { IsDirection d }
    requires e_in { IsDirection e }
    ensures value { result ≡ relative_direction d e }
    ensures x_in { IsWithin MAX_CROSS result.x }
    ensures y_in { IsWithin MAX_CROSS result.y }
{
    Point {
        x: narrow(dot(d, e)),
        y: size(narrow(cross(d, e))),
    }
}

fn product(a: i64, b: i64) -> i64
    requires a_in { IsWithin MAX_TABLE_COMPONENT a }
    requires b_in { IsWithin MAX_CROSS b }
    ensures value { result ≡ a *ℤ b }
    ensures within { IsWithin (MAX_TABLE_COMPONENT *ℤ MAX_CROSS) result }
{
    a * b
}

fn is_not_less(a: i64, b: i64) -> bool
    ensures { result ≡ int_le (pos 0) (a -ℤ b) }
{
    b <= a
}

/// 1 where the direction `(x, y)` of the table is passed on the way to `r`, and 0 elsewhere.
fn passed(x: i64, y: i64, r: Point) -> u8
    requires x_in { IsWithin MAX_TABLE_COMPONENT x }
    requires y_in { IsWithin MAX_TABLE_COMPONENT y }
    requires rx_in { IsWithin MAX_CROSS r.x }
    requires ry_in { IsWithin MAX_CROSS r.y }
    ensures value { result ≡ cond (int_le (pos 0) (cross_of (point x y) r)) 1 0 }
    ensures at_most { result ≤ 1 }
{
    if is_not_less(product(x, r.y), product(y, r.x)) {
        1
    } else {
        0
    }
}

/// Whether `r` leads straight back.
fn is_straight_back(r: Point) -> bool
    ensures { result ≡ is_straight_back r }
{
    r.x < 0 && r.y == 0
}

/// The turn from one direction to another, 0 straight on to 16 straight back: how many directions of a table of
/// sixteenths of a half turn are passed, and one more straight back.
///
/// Cost: 34 multiplications.
pub fn turn(d: Point, e: Point) -> u8
    requires d_in { IsDirection d }
    requires e_in { IsDirection e }
    ensures value { result ≡ turn_of d e }
    ensures at_most { result ≤ 16 }
{
    let r = relative_direction(d, e);
    let first = passed(981, 195, r)
        + passed(924, 383, r)
        + passed(831, 556, r)
        + passed(707, 707, r)
        + passed(556, 831, r);
    let second = passed(383, 924, r)
        + passed(195, 981, r)
        + passed(0, 1000, r)
        + passed(-195, 981, r)
        + passed(-383, 924, r);
    let third = passed(-556, 831, r)
        + passed(-707, 707, r)
        + passed(-831, 556, r)
        + passed(-924, 383, r)
        + passed(-981, 195, r);
    let back = if is_straight_back(r) { 1 } else { 0 };
    first + second + third + back
}
