//! When two stretches meet.
//!
//! Where the lines of two stretches cross, the parameters of the crossing are `t / k` on the one and `u / k` on the
//! other, with `k` the cross product of the directions. So the stretches meet where these lie between the parameters of
//! their ends, which four comparisons of products of two 64-bit numbers tell.

ghost use Rattle.std.specs.Prelude.{◌≡◌, ◌&&◌, ◌||◌};
ghost use Rattle.plane_spec.specs.Vectors.{IsDirection, IsWithin, cross_of, vector as vector_of};
ghost use Rattle.plane_spec.specs.Fractions as fractions;
ghost use Rattle.plane_spec.specs.RPoints.{is_between_fractions};
ghost use Rattle.exact_geom.specs.Parts.{HasCoordinateParts, HasRPointParts};
ghost use Rattle.exact_geom.specs.declared.limits.TheConstants.{MAX_CROSS};
ghost use Rattle.sight_spec.specs.Axial as axial;
ghost use Rattle.meet_laws.specs.Stretches.{do_extents_meet, is_between_parameters, is_between_parameters_turned, is_in_extents};
ghost use Rattle.line_graph.specs.Bounds.{HasComparableEnds};
ghost use Rattle.line_graph.specs.Measured.{IsMeasured};

use crate::compare::{is_negative, is_positive, is_zero};
use crate::stretch::Stretch;
use axial_lines::AxialLine;
use exact_geom::{Frac, RPoint, vector};
use plane_spec::Point;
use std::cmp::Ordering;

/// The cross product of two directions, in 64 bits.
fn cross(d: Point, e: Point) -> i64
    requires d_in { IsDirection d }
    requires e_in { IsDirection e }
    ensures value { result ≡ cross_of d e }
    ensures within { IsWithin MAX_CROSS result }
{
    exact_geom::cross(d, e) as i64
}

/// Whether `t / k` lies between the parameters of the ends, for `k` above 0.
#[tactic(auto, unfolding(meet_laws::specs::Stretches::is_between_parameters))]
fn is_between(t: i64, k: i64, s: &Stretch) -> bool
    requires t_in { IsWithin MAX_CROSS t }
    requires k_in { IsWithin MAX_CROSS k }
    ensures { result ≡ is_between_parameters t k s.now.from.num s.now.from.den s.now.to.num s.now.to.den }
{
    s.from.is_at_most(t, k) && s.to.is_at_least(t, k)
}

/// Whether `t / k` lies between the parameters of the ends, for `k` below 0.
#[tactic(auto, unfolding(meet_laws::specs::Stretches::is_between_parameters_turned))]
fn is_between_turned(t: i64, k: i64, s: &Stretch) -> bool
    requires t_in { IsWithin MAX_CROSS t }
    requires k_in { IsWithin MAX_CROSS k }
    ensures { result ≡ is_between_parameters_turned t k s.now.from.num s.now.from.den s.now.to.num s.now.to.den }
{
    s.from.is_at_least(t, k) && s.to.is_at_most(t, k)
}

/// Whether both stretches reach the crossing, for `k` above 0.
fn do_reach(t: i64, u: i64, k: i64, a: &Stretch, b: &Stretch) -> bool
    requires t_in { IsWithin MAX_CROSS t }
    requires u_in { IsWithin MAX_CROSS u }
    requires k_in { IsWithin MAX_CROSS k }
    ensures { result ≡ (is_between_parameters t k a.now.from.num a.now.from.den a.now.to.num a.now.to.den
        && is_between_parameters u k b.now.from.num b.now.from.den b.now.to.num b.now.to.den) }
{
    is_between(t, k, a) && is_between(u, k, b)
}

/// Whether both stretches reach the crossing, for `k` below 0.
fn do_reach_turned(t: i64, u: i64, k: i64, a: &Stretch, b: &Stretch) -> bool
    requires t_in { IsWithin MAX_CROSS t }
    requires u_in { IsWithin MAX_CROSS u }
    requires k_in { IsWithin MAX_CROSS k }
    ensures { result ≡ (is_between_parameters_turned t k a.now.from.num a.now.from.den a.now.to.num a.now.to.den
        && is_between_parameters_turned u k b.now.from.num b.now.from.den b.now.to.num b.now.to.den) }
{
    is_between_turned(t, k, a) && is_between_turned(u, k, b)
}

#[tactic(auto, unfolding(plane_spec::specs::Fractions::value_order_of))]
fn is_before(f: &Frac, g: &Frac) -> bool
    requires f_in { HasCoordinateParts f.now }
    requires g_in { HasCoordinateParts g.now }
    ensures { result ≡ fractions.is_before f.now g.now }
{
    match f.compare(g) {
        Ordering::Less => true,
        Ordering::Equal => false,
        Ordering::Greater => false,
    }
}

fn is_between_both(m: &Frac, f: &Frac, g: &Frac) -> bool
    requires m_in { HasCoordinateParts m.now }
    requires f_in { HasCoordinateParts f.now }
    requires g_in { HasCoordinateParts g.now }
    ensures { result ≡ is_between_fractions m.now f.now g.now }
{
    (!is_before(m, f) && !is_before(g, m)) || (!is_before(m, g) && !is_before(f, m))
}

fn in_extents(x: &RPoint, a: &RPoint, b: &RPoint) -> bool
    requires x_in { HasRPointParts x.now }
    requires a_in { HasRPointParts a.now }
    requires b_in { HasRPointParts b.now }
    ensures { result ≡ is_in_extents x.now a.now b.now }
{
    is_between_both(&x.x, &a.x, &b.x) && is_between_both(&x.y, &a.y, &b.y)
}

/// Whether two lines on one line of the plane share a point: an end of one lies in the extents of the other.
fn do_overlap(l: &AxialLine, m: &AxialLine) -> bool
    requires l_in { HasComparableEnds l.now }
    requires m_in { HasComparableEnds m.now }
    ensures { result ≡ do_extents_meet l.now.from l.now.to m.now.from m.now.to }
{
    (in_extents(&l.from, &m.from, &m.to) || in_extents(&l.to, &m.from, &m.to))
        || (in_extents(&m.from, &l.from, &l.to) || in_extents(&m.to, &l.from, &l.to))
}

/// Whether two lines share a point, by where their lines cross: at `t / k` on the first, and at `u / k` on the second.
fn meet_by(t: i64, u: i64, k: i64, a: &Stretch, b: &Stretch, l: &AxialLine, m: &AxialLine) -> bool
    requires t_in { IsWithin MAX_CROSS t }
    requires u_in { IsWithin MAX_CROSS u }
    requires k_in { IsWithin MAX_CROSS k }
    requires t_is { t ≡ cross_of (vector_of a.now.p b.now.p) b.now.d }
    requires u_is { u ≡ cross_of (vector_of a.now.p b.now.p) a.now.d }
    requires k_is { k ≡ cross_of a.now.d b.now.d }
    requires a_of { IsMeasured a.now l.now }
    requires b_of { IsMeasured b.now m.now }
    ensures { result ≡ axial.do_meet l.now m.now }
{
    if is_positive(k) {
        do_reach(t, u, k, a, b)
    } else if is_negative(k) {
        do_reach_turned(t, u, k, a, b)
    } else if is_zero(u) {
        do_overlap(l, m)
    } else {
        false
    }
}

/// Whether two lines share a point, by their stretches.
///
/// Cost: six products of 64-bit numbers, and at most eight of which the result has 128.
pub(crate) fn do_meet(a: &Stretch, b: &Stretch, l: &AxialLine, m: &AxialLine) -> bool
    requires a_of { IsMeasured a.now l.now }
    requires b_of { IsMeasured b.now m.now }
    ensures { result ≡ axial.do_meet l.now m.now }
{
    let gap = vector(a.p, b.p);
    meet_by(
        cross(gap, b.d),
        cross(gap, a.d),
        cross(a.d, b.d),
        a,
        b,
        l,
        m,
    )
}
