//! Parts of lines between points with fractions, and the boxes that they meet.

ghost use Rattle.std.specs.Prelude.{◌≡◌, ◌≢◌, pos};
ghost use Rattle.plane_spec.specs.Vectors.{InRange, IsWithin};
ghost use Rattle.plane_spec.specs.Fractions.{is_at_least, is_at_most};
ghost use Rattle.plane_spec.specs.Boxes.{does_extent_meet_box, is_on_extent};
ghost use Rattle.plane_spec.specs.RPoints.{fractions_overlap, is_between_fractions};
ghost use Rattle.plane_spec.specs.Fractions.{whole};
ghost use Rattle.plane_spec.specs.declared.TheConstants.{MAX_COORDINATE};
ghost use Rattle.exact_geom.specs.Parts.{HasCoordinateParts, HasRPointParts};
ghost use Rattle.exact_geom.specs.declared.limits.TheConstants.{MAX_STOP_PART};

use crate::arithmetic::wide_product;
use crate::boxes::line_reaches_box;
use crate::compare::{is_at_most, is_zero};
use crate::fractions::Frac;
use crate::products::orient;
use crate::rpoints::RPoint;
use plane_spec::{PlanBox, Point};

/// Whether the whole number is at most the fraction.
fn begins_by(f: &Frac, z: i64) -> bool
    requires f_in { HasCoordinateParts f.now }
    requires z_in { IsWithin MAX_COORDINATE z }
    ensures { result ≡ is_at_least f.now z }
{
    is_at_most(wide_product(i128::from(z), f.den()), f.num())
}

/// Whether the fraction is at most the whole number.
fn ends_by(f: &Frac, z: i64) -> bool
    requires f_in { HasCoordinateParts f.now }
    requires z_in { IsWithin MAX_COORDINATE z }
    ensures { result ≡ is_at_most f.now z }
{
    is_at_most(f.num(), wide_product(i128::from(z), f.den()))
}

/// Whether the interval between `m` and `n` shares a number with the one from `low` to `high`.
fn overlap(m: &Frac, n: &Frac, low: i64, high: i64) -> bool
    requires m_in { HasCoordinateParts m.now }
    requires n_in { HasCoordinateParts n.now }
    requires low_in { IsWithin MAX_COORDINATE low }
    requires high_in { IsWithin MAX_COORDINATE high }
    ensures { result ≡ fractions_overlap m.now n.now low high }
{
    (begins_by(m, low) || begins_by(n, low)) && (ends_by(m, high) || ends_by(n, high))
}

/// Whether the part of the line through `a` and `b` that lies between `from` and `to` meets `area`, borders counted:
/// their extents overlap, and the corners of `area` don't all lie strictly on one side of the line.
///
/// Cost: eight products, and at most eight orientations where the extents overlap.
pub fn extent_meets_box(a: Point, b: Point, from: &RPoint, to: &RPoint, area: PlanBox) -> bool
    requires a_in { InRange a }
    requires b_in { InRange b }
    requires from_in { HasRPointParts from.now }
    requires to_in { HasRPointParts to.now }
    requires low_in { InRange area.low }
    requires high_in { InRange area.high }
    ensures { result ≡ does_extent_meet_box a b from.now to.now area }
{
    overlap(&from.x, &to.x, area.low.x, area.high.x)
        && overlap(&from.y, &to.y, area.low.y, area.high.y)
        && line_reaches_box(a, b, area)
}

/// Whether the whole number is from the smaller of the fractions to the greater.
fn lies_between(z: i64, f: &Frac, g: &Frac) -> bool
    requires z_in { IsWithin MAX_COORDINATE z }
    requires f_in { HasCoordinateParts f.now }
    requires g_in { HasCoordinateParts g.now }
    ensures { result ≡ is_between_fractions (whole z) f.now g.now }
{
    (ends_by(f, z) && begins_by(g, z)) || (ends_by(g, z) && begins_by(f, z))
}

/// Whether `x` lies on the part of the line through `a` and `b` that lies between `from` and `to`, ends counted.
///
/// Cost: one orientation, and at most eight products where `x` is on the line.
pub fn on_extent(x: Point, a: Point, b: Point, from: &RPoint, to: &RPoint) -> bool
    requires x_in { InRange x }
    requires a_in { InRange a }
    requires b_in { InRange b }
    requires from_in { HasRPointParts from.now }
    requires to_in { HasRPointParts to.now }
    ensures { result ≡ is_on_extent x a b from.now to.now }
{
    is_zero(orient(a, b, x))
        && lies_between(x.x, &from.x, &to.x)
        && lies_between(x.y, &from.y, &to.y)
}
