//! Orientation, cross and dot products.
//!
//! Bounds prove that each step fits in 64 bits, so only the result is widened.

ghost use Rattle.std.specs.Prelude.{◌≡◌, neg_ℤ};
ghost use Rattle.plane_spec.specs.Vectors.{InRange, IsDirection, IsWithin, cross_of, dot_of, orient_of};
ghost use Rattle.exact_geom.specs.declared.limits.TheConstants.{MAX_CROSS, MAX_ORIENTATION};

use crate::arithmetic::{difference, minus, plus, product};
use plane_spec::Point;

/// Twice the area of the triangle from `a` over `b` to `c`: positive where `c` lies left of the line from `a` to `b`,
/// negative where it lies right of it, and 0 where it lies on it.
///
/// Cost: two multiplications.
pub fn orient(a: Point, b: Point, c: Point) -> i128
    requires a_in { InRange a }
    requires b_in { InRange b }
    requires c_in { InRange c }
    ensures value { result ≡ orient_of a b c }
    ensures within { IsWithin MAX_ORIENTATION result }
{
    let (bx, by) = (difference(a.x, b.x), difference(a.y, b.y));
    let (cx, cy) = (difference(a.x, c.x), difference(a.y, c.y));
    i128::from(minus(product(bx, cy), product(by, cx)))
}

/// The cross product of two directions: positive where `e` is left of `d`, negative where it is right of it, and 0
/// where they are in line.
///
/// Cost: two multiplications.
pub fn cross(d: Point, e: Point) -> i128
    requires d_in { IsDirection d }
    requires e_in { IsDirection e }
    ensures value { result ≡ cross_of d e }
    ensures within { IsWithin MAX_CROSS result }
{
    i128::from(minus(product(d.x, e.y), product(d.y, e.x)))
}

/// The dot product of two directions: positive where less than a right angle is between them, negative where more is,
/// and 0 where they stand square.
///
/// Cost: two multiplications.
pub fn dot(d: Point, e: Point) -> i128
    requires d_in { IsDirection d }
    requires e_in { IsDirection e }
    ensures value { result ≡ dot_of d e }
    ensures within { IsWithin MAX_CROSS result }
{
    i128::from(plus(product(d.x, e.x), product(d.y, e.y)))
}

/// Orientation of any three points changes its sign where two of them are exchanged, and stays where they are taken
/// from another one on.
///
/// Proofs cite these laws from `proofs/Orientation.antt`.
pub fn orient_laws()
    ensures first_exchanged { (a b c : Point) → orient_of b a c ≡ neg_ℤ (orient_of a b c) }
    ensures last_exchanged { (a b c : Point) → orient_of a c b ≡ neg_ℤ (orient_of a b c) }
    ensures ends_exchanged { (a b c : Point) → orient_of c b a ≡ neg_ℤ (orient_of a b c) }
    ensures cycled { (a b c : Point) → orient_of b c a ≡ orient_of a b c }
{}
