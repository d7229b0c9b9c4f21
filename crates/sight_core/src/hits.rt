//! Where a ray is stopped: by a wall or a screen, by a corner, or where it begins.

ghost use Rattle.std.specs.Prelude.{◌≡◌, ◌≢◌, ◌-ℤ◌, ◌≤ℤ◌, int_lt, pos};
ghost use Rattle.exact_geom.specs.Parts.{HasStopParts};
ghost use Rattle.exact_geom.specs.declared.limits.TheConstants.{MAX_CROSS, MAX_STOP_PART};
ghost use Rattle.plane_spec.specs.Fractions as fractions;
ghost use Rattle.plane_spec.specs.Vectors as vectors;
ghost use Rattle.plane_spec.specs.Vectors.{cross_of, dot_of, InRange, IsDirected, IsDirection, IsWithin};
ghost use Rattle.sight_spec.specs.Stops as stops;
ghost use Rattle.sight_core.specs.Hits as hits;
ghost use Rattle.plane_spec.specs.Segments.{IsSegmentInRange};
ghost use Rattle.plane_spec.specs.Cones.{IsCornerInRange};

use crate::cone::in_cone;
use crate::sight::is_in_interior;
use exact_geom::{
    Frac, are_opposite, cross, dot, is_at_least_zero, is_less, is_zero, turns_left, vector,
    wide_product,
};
use plane_spec::{Corner, Point, Segment as Wall};
use std::marker::Model;

/// A `t` at which a ray is stopped, or at which its line meets a wall's: a fraction that isn't reduced, over a
/// denominator of at least 1. Contracts see the fraction.
#[derive(Clone, Copy, Debug)]
pub struct Hit {
    num: i128,
    den: i128,
}

impl Model for Hit {
    ghost use Rattle.plane_spec.specs.Fractions.{Fraction};
    ghost use Rattle.sight_core.specs.Hits.{IsHit};

    ghost Value = { Fraction };

    ghost view = { λ a. record { num = a.num; den = a.den } };

    ghost invariant = { λ a. IsHit (record { num = a.num; den = a.den }) };

    ghost inverse = { λ f. record { num = f.num; den = f.den } };
}

/// Whether `f` comes before `g` on a ray.
fn is_before(f: &Hit, g: &Hit) -> bool
    ensures { result ≡ fractions.is_before f.now g.now }
{
    is_less(wide_product(f.num, g.den), wide_product(g.num, f.den))
}

impl Hit {
    /// `num / den`, for any denominator but 0: the sign goes to the numerator.
    fn new(num: i128, den: i128) -> Hit
        requires num_in { IsWithin MAX_STOP_PART num }
        requires den_in { IsWithin MAX_STOP_PART den }
        requires nonzero { den ≢ pos 0 }
        ensures { result ≡ fractions.fraction num den }
    {
        if 0 < den {
            Hit { num, den }
        } else {
            Hit {
                num: -num,
                den: -den,
            }
        }
    }

    /// Whether it comes after the beginning of the ray.
    fn is_ahead(&self) -> bool
        ensures { result ≡ int_lt (pos 0) self.now.num }
    {
        0 < self.num
    }

    /// The numerator, which has the sign of the value.
    pub fn num(&self) -> i128
        ensures value { result ≡ self.now.num }
        ensures parts { HasStopParts self.now }
    {
        self.num
    }

    /// The denominator, at least 1.
    pub fn den(&self) -> i128
        ensures value { result ≡ self.now.den }
        ensures positive { pos 1 ≤ℤ result }
    {
        self.den
    }

    /// The same value in lowest terms.
    ///
    /// Cost: one greatest common divisor.
    pub fn reduced(&self) -> Frac
        ensures value { result ≡ fractions.reduced self.now }
        ensures parts_bounded { HasStopParts result }
    {
        Frac::new(self.num, self.den)
    }
}

/// The earlier of two hits, the first where neither is.
///
/// Cost: two products.
pub fn nearer(best: Option<Hit>, hit: Option<Hit>) -> Option<Hit>
    ensures { result ≡ stops.nearer best hit }
{
    match (best, hit) {
        (None, hit) => hit,
        (Some(best), None) => Some(best),
        (Some(best), Some(hit)) => {
            if is_before(&hit, &best) {
                Some(hit)
            } else {
                Some(best)
            }
        }
    }
}

/// Whether there is a hit that doesn't come after `other`.
pub(crate) fn is_no_later(hit: Option<Hit>, other: &Hit) -> bool
    ensures { result ≡ hits.is_no_later hit other.now }
{
    match hit {
        None => false,
        Some(hit) => !is_before(other, &hit),
    }
}

/// How far `x` lies to the left of the ray, and to its right where it is negative.
fn turn_to(p: Point, d: Point, x: Point) -> i128
    requires p_in { InRange p }
    requires d_in { IsDirection d }
    requires x_in { InRange x }
    ensures value { result ≡ cross_of d (vectors.vector p x) }
    ensures within { IsWithin MAX_CROSS result }
{
    cross(d, vector(p, x))
}

/// Twice the area of the triangle from `p` to the wall or screen, positive where it runs counterclockwise as seen from
/// `p`.
fn wall_parameter_numerator(p: Point, wall: &Wall) -> i128
    requires p_in { InRange p }
    requires wall_in { IsSegmentInRange wall.now }
    ensures value { result ≡ cross_of (vectors.vector p wall.now.a) (vectors.vector p wall.now.b) }
    ensures within { IsWithin MAX_STOP_PART result }
{
    cross(vector(p, wall.a), vector(p, wall.b))
}

/// Whether the ends of the wall or screen lie strictly on both sides of the ray's line.
fn is_across(p: Point, d: Point, wall: &Wall) -> bool
    requires p_in { InRange p }
    requires d_in { IsDirection d }
    requires wall_in { IsSegmentInRange wall.now }
    ensures { result ≡ stops.is_across p d wall.now }
{
    are_opposite(turn_to(p, d, wall.a), turn_to(p, d, wall.b))
}

/// How far the wall or screen, which isn't in line with the ray, reaches to the ray's left.
fn wall_parameter_denominator(p: Point, d: Point, wall: &Wall) -> i128
    requires p_in { InRange p }
    requires d_in { IsDirection d }
    requires wall_in { IsSegmentInRange wall.now }
    requires turned { cross_of d (vectors.vector wall.now.a wall.now.b) ≢ pos 0 }
    ensures value { result ≡ cross_of d (vectors.vector p wall.now.b) -ℤ cross_of d (vectors.vector p wall.now.a) }
    ensures within { IsWithin MAX_STOP_PART result }
    ensures nonzero { result ≢ pos 0 }
{
    turn_to(p, d, wall.b) - turn_to(p, d, wall.a)
}

/// Where the line through `p` in direction `d` meets the line of the wall or screen: the `t` of `p + t d`, which may be
/// beyond the wall's ends or behind `p`. The two lines must not be in one direction.
///
/// Cost: three cross products.
pub fn wall_parameter(p: Point, d: Point, wall: &Wall) -> Hit
    requires p_in { InRange p }
    requires d_in { IsDirection d }
    requires wall_in { IsSegmentInRange wall.now }
    requires turned { cross_of d (vectors.vector wall.now.a wall.now.b) ≢ pos 0 }
    ensures { result ≡ stops.wall_parameter p d wall.now }
{
    Hit::new(
        wall_parameter_numerator(p, wall),
        wall_parameter_denominator(p, d, wall),
    )
}

/// Where the ray meets the wall or screen between its ends, if it does so after its beginning.
///
/// Cost: two cross products, and three more where the wall is across the ray's line.
#[tactic(auto, unfolding(sight_spec::specs::Stops::blocker_hit))]
pub fn blocker_hit(p: Point, d: Point, wall: &Wall) -> Option<Hit>
    requires p_in { InRange p }
    requires d_in { IsDirection d }
    requires wall_in { IsSegmentInRange wall.now }
    ensures { result ≡ stops.blocker_hit p d wall.now }
{
    if !is_across(p, d, wall) {
        return None;
    }
    let hit = wall_parameter(p, d, wall);
    if hit.is_ahead() { Some(hit) } else { None }
}

/// Whether the ray passes through the corner into what is blocked.
fn runs_into(p: Point, d: Point, corner: &Corner) -> bool
    requires p_in { InRange p }
    requires d_in { IsDirection d }
    requires corner_in { IsCornerInRange corner.now }
    ensures { result ≡ stops.runs_into p d corner.now }
{
    let v = vector(p, corner.here);
    is_zero(cross(d, v)) && (is_at_least_zero(dot(d, v)) && in_cone(*corner, d))
}

/// Where the ray is nearest to the point at `v` from its beginning.
fn corner_parameter(d: Point, v: Point) -> Hit
    requires d_in { IsDirection d }
    requires directed { IsDirected d }
    requires v_in { IsDirection v }
    ensures { result ≡ record { num = dot_of d v; den = dot_of d d } }
{
    Hit {
        num: dot(d, v),
        den: dot(d, d),
    }
}

/// Where the ray passes through the corner into what is blocked, if it does.
///
/// Cost: one cross product, and at most six more products where the corner is on the ray's line.
#[tactic(auto, unfolding(sight_spec::specs::Stops::corner_hit))]
pub fn corner_hit(p: Point, d: Point, corner: &Corner) -> Option<Hit>
    requires p_in { InRange p }
    requires d_in { IsDirection d }
    requires directed { IsDirected d }
    requires corner_in { IsCornerInRange corner.now }
    ensures { result ≡ stops.corner_hit p d corner.now }
{
    if runs_into(p, d, corner) {
        Some(corner_parameter(d, vector(p, corner.here)))
    } else {
        None
    }
}

/// Where the ray begins, if it begins on the wall, not at its ends, and leads to its left.
///
/// Cost: one orientation, and a cross product where it begins there.
#[tactic(auto, unfolding(sight_spec::specs::Stops::start_hit))]
pub fn start_hit(p: Point, d: Point, wall: &Wall) -> Option<Hit>
    requires p_in { InRange p }
    requires d_in { IsDirection d }
    requires wall_in { IsSegmentInRange wall.now }
    ensures { result ≡ stops.start_hit p d wall.now }
{
    if is_in_interior(p, wall) && turns_left(vector(wall.a, wall.b), d) {
        Some(Hit { num: 0, den: 1 })
    } else {
        None
    }
}
