//! Points whose coordinates are fractions.

ghost use Rattle.std.specs.Prelude.{◌≡◌, ◌↔◌, ◌*ℤ◌, ◌+ℤ◌, ◌≤ℤ◌, ◌&&◌, pos, true};
ghost use Rattle.std.specs.Ordering.{eq_of_both, on, ordering_reverse};
ghost use Rattle.std.specs.declared.cmp.Ordering.TheVariants.{Less, Equal};
ghost use Rattle.std.specs.Cmp.{partial_equiv_from_equiv};
ghost use Rattle.std.specs.Cmp.Rules.{comparing};
ghost use Rattle.std.proofs.Common.{rules};
ghost use Rattle.plane_spec.specs.Vectors.{InRange, IsDirection, IsWithin};
ghost use Rattle.plane_spec.specs.declared.Point.{Point};
ghost use Rattle.plane_spec.specs.declared.TheConstants.{MAX_COMPONENT, MAX_COORDINATE};
ghost use Rattle.plane_spec.specs.Fractions as fractions;
ghost use Rattle.plane_spec.specs.Fractions.{Fraction, RPoint};
ghost use Rattle.exact_geom.specs.Parts.{HasCoordinateParts, HasRPointParts, HasStopParts, same_parts};
ghost use Rattle.exact_geom.specs.RPoints as places;
ghost use Rattle.exact_geom.specs.RPoints.{IsOverPositive};
ghost use Rattle.exact_geom.specs.declared.limits.TheConstants.{MAX_COORDINATE_PART, MAX_STOP_PART};

use crate::arithmetic::{scaled, sum};
use crate::fractions::{Frac, lowest};
use plane_spec::Point;
use std::cmp::Ordering;
use std::marker::Model;

/// A point whose coordinates are fractions.
#[derive(Clone, Copy, Debug)]
pub struct RPoint {
    /// To the right, in lowest terms.
    pub x: Frac,
    /// Upwards, in lowest terms.
    pub y: Frac,
}

impl Model for RPoint {
    ghost Value = { RPoint };

    ghost view = { λ a. record { x = a.x; y = a.y } };

    ghost inverse = { λ p. record { x = p.x; y = p.y } };
}

impl PartialEq for RPoint {
    ghost eq = { eq_of_both (on (λ p. p.x) same_parts) (on (λ p. p.y) same_parts) };

    ghost laws = { partial_equiv_from_equiv (Prim.search (comparing, rules)) };

    /// Whether the two are one point.
    fn eq(&self, other: &Self) -> bool
        ensures by_parts { result ≡ (same_parts self.now.x other.now.x && same_parts self.now.y other.now.y) }
        ensures by_value { result ≡ fractions.same_rpoint self.now other.now }
    {
        self.x == other.x && self.y == other.y
    }
}

impl Eq for RPoint {
    ghost laws = { Prim.search (comparing, rules) };
}

/// The numerator of `z + (num / den) d`, over `den`.
fn moved(z: i64, d: i64, num: i128, den: i128) -> i128
    requires z_in { IsWithin MAX_COORDINATE z }
    requires d_in { IsWithin MAX_COMPONENT d }
    requires num_in { IsWithin MAX_STOP_PART num }
    requires den_in { IsWithin MAX_STOP_PART den }
    ensures value { result ≡ z *ℤ den +ℤ num *ℤ d }
    ensures within { IsWithin MAX_COORDINATE_PART result }
{
    sum(scaled(z, den), scaled(d, num))
}

/// The coordinate `z + t d`.
fn shifted(z: i64, d: i64, t: &Frac) -> Frac
    requires z_in { IsWithin MAX_COORDINATE z }
    requires d_in { IsWithin MAX_COMPONENT d }
    requires t_in { HasStopParts t.now }
    ensures value { result ≡ fractions.shifted z d t.now }
    ensures within { HasCoordinateParts result }
{
    let den = t.den();
    lowest(moved(z, d, t.num(), den), den)
}

impl RPoint {
    /// The whole point `p`.
    pub fn at(p: Point) -> RPoint
        requires { InRange p }
        ensures value { result ≡ fractions.whole_point p }
        ensures within { HasRPointParts result }
    {
        RPoint {
            x: Frac::whole(p.x),
            y: Frac::whole(p.y),
        }
    }

    /// The point `p + t d`. Its parts are small enough to be compared.
    ///
    /// Cost: two greatest common divisors.
    pub fn along(p: Point, d: Point, t: &Frac) -> RPoint
        requires p_in { InRange p }
        requires d_in { IsDirection d }
        requires t_in { HasStopParts t.now }
        ensures value { result ≡ fractions.along p d t.now }
        ensures within { HasRPointParts result }
    {
        RPoint {
            x: shifted(p.x, d.x, t),
            y: shifted(p.y, d.y, t),
        }
    }

    /// The order of two points: by the first coordinate, and by the second where the first ones have one value. It is
    /// an order of points, as [`rpoint_order_laws`] says.
    ///
    /// Cost: two or four products.
    pub fn compare(&self, other: &RPoint) -> Ordering
        requires self_in { HasRPointParts self.now }
        requires other_in { HasRPointParts other.now }
        ensures { result ≡ places.rpoint_order_of self.now other.now }
    {
        match self.x.compare(&other.x) {
            Ordering::Less => Ordering::Less,
            Ordering::Equal => self.y.compare(&other.y),
            Ordering::Greater => Ordering::Greater,
        }
    }
}

/// The parts of `p + t d` are at most 10^18 in size, for callers that hold such a point by its definition alone.
pub fn rpoints_are_small()
    ensures { (p d : Point) (t : Fraction) → InRange p → IsDirection d → HasStopParts t → HasRPointParts (fractions.along p d t) }
{}

/// `p + t d` depends on the value of `t` alone, so `t` may be reduced before.
pub fn along_is_by_value()
    ensures same { (p d : Point) (s t : Fraction) → pos 1 ≤ℤ s.den → pos 1 ≤ℤ t.den → fractions.same_value s t ≡ true → fractions.along p d s ≡ fractions.along p d t }
    ensures of_reduced { (p d : Point) (t : Fraction) → pos 1 ≤ℤ t.den → fractions.along p d (fractions.reduced t) ≡ fractions.along p d t }
{}

/// The order of points whose coordinates stand over denominators of at least 1, of any size: it is a strict weak order,
/// and equal are exactly the points that are one.
///
/// Proofs cite these laws from `proofs/RPointOrder.antt`.
pub fn rpoint_order_laws()
    ensures reversed { (p q : RPoint) → places.rpoint_order_of q p ≡ ordering_reverse (places.rpoint_order_of p q) }
    ensures transitive { (p q r : RPoint) → IsOverPositive p → IsOverPositive q → IsOverPositive r → places.rpoint_order_of p q ≡ Less → places.rpoint_order_of q r ≡ Less → places.rpoint_order_of p r ≡ Less }
    ensures equal_compare_alike { (p q r : RPoint) → IsOverPositive p → IsOverPositive q → IsOverPositive r → places.rpoint_order_of p q ≡ Equal → places.rpoint_order_of p r ≡ places.rpoint_order_of q r }
    ensures equal_are_one { (p q : RPoint) → (places.rpoint_order_of p q ≡ Equal) ↔ (fractions.same_rpoint p q ≡ true) }
{}
