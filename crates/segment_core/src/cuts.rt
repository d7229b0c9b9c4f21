//! Where a route is cut by the others.

ghost use Rattle.std.specs.Prelude.{◌≡◌, ◌^◌, ◌≤◌, ◌<◌, ◌≤ℤ◌, ◌*ℤ◌, ◌+ℤ◌, pos, true, false, IfOk, IfSome, OnOk, length, get_or, nat_lt, ◌&&◌, All};
ghost use Rattle.std.specs.List.Sorted.{IsPartitionPoint};
ghost use Rattle.std.specs.Ordering.{int_eq};
ghost use Rattle.plane_spec.specs.Vectors.{InRange, IsDirection, IsWithin, cross_of};
ghost use Rattle.plane_spec.specs.declared.TheConstants.{MAX_COMPONENT, MAX_COORDINATE};
ghost use Rattle.plane_spec.specs.Fractions as fractions;
ghost use Rattle.plan_spec.specs.Ranges.{IsProperSegmentInRange};
ghost use Rattle.list_laws.specs.Orders.{IsRising};
ghost use Rattle.exact_geom.specs.Parts.{HasPartsWithin};
ghost use Rattle.exact_geom.specs.declared.limits.TheConstants.{MAX_CROSS, MAX_STOP_PART, MAX_COORDINATE_PART};
ghost use Rattle.route_spec.specs.Routes.{crossing_at, cut_of, cuts_of, is_between_ends, vector_of_route};
ghost use Rattle.route_laws.specs.Bounds.{IsCut};
ghost use Rattle.segment_core.specs.Cuts.{with_cut};

use crate::narrowing::narrow;
use exact_geom::{Frac, Point, RPoint, cross, is_less, is_zero, touch, vector};
use plan_spec::Route;
use std::alloc::Global;
use std::marker::Model;
use text_spec::NoMemory;

/// A cut of a route, `num / den` of the way along it; not in lowest terms.
#[derive(Clone, Copy, Debug)]
pub(crate) struct Cut {
    num: i64,
    den: i64,
}

impl Model for Cut {
    ghost use Rattle.plane_spec.specs.Fractions.{Fraction};

    ghost Value = { Fraction };

    ghost view = { λ a. record { num = a.num; den = a.den } };

    ghost inverse = { λ f. record { num = f.num; den = f.den } };
}

/// The cross product of two directions, in 64 bits.
fn cross_product(d: Point, e: Point) -> i64
    requires d_in { IsDirection d }
    requires e_in { IsDirection e }
    ensures value { result ≡ cross_of d e }
    ensures within { IsWithin MAX_CROSS result }
{
    narrow(cross(d, e))
}

/// Whether two directions are in line.
fn have_one_line(d: Point, e: Point) -> bool
    requires d_in { IsDirection d }
    requires e_in { IsDirection e }
    ensures { result ≡ int_eq (cross_of d e) (pos 0) }
{
    is_zero(cross(d, e))
}

/// `num / den`, with the sign at the numerator.
fn ratio(num: i64, den: i64) -> Cut
    requires num_in { IsWithin MAX_CROSS num }
    requires den_in { IsWithin MAX_CROSS den }
    ensures { result ≡ fractions.fraction num den }
{
    if 0 < den {
        Cut { num, den }
    } else {
        Cut {
            num: -num,
            den: -den,
        }
    }
}

/// The part of the way along `r` to the line of `q`.
fn crossing_at(r: &Route, q: &Route) -> Cut
    requires r_in { IsProperSegmentInRange r.now.from r.now.to }
    requires q_in { IsProperSegmentInRange q.now.from q.now.to }
    ensures { result ≡ crossing_at r.now q.now }
{
    let e = vector(q.from, q.to);
    ratio(
        cross_product(vector(r.from, q.from), e),
        cross_product(vector(r.from, r.to), e),
    )
}

/// Whether two routes are in line.
fn are_in_line(r: &Route, q: &Route) -> bool
    requires r_in { IsProperSegmentInRange r.now.from r.now.to }
    requires q_in { IsProperSegmentInRange q.now.from q.now.to }
    ensures { result ≡ int_eq (cross_of (vector_of_route r.now) (vector_of_route q.now)) (pos 0) }
{
    have_one_line(vector(r.from, r.to), vector(q.from, q.to))
}

/// Whether a cut is strictly between the ends.
fn is_between_ends(cut: &Cut) -> bool
    ensures { result ≡ is_between_ends cut.now }
{
    0 < cut.num && cut.num < cut.den
}

/// The cut of the route `r` by `q`: at a point that they share, and that isn't an end of `r`.
fn cut_of(r: &Route, q: &Route) -> Option<Cut>
    requires r_in { IsProperSegmentInRange r.now.from r.now.to }
    requires q_in { IsProperSegmentInRange q.now.from q.now.to }
    ensures { result ≡ cut_of r.now q.now }
{
    if are_in_line(r, q) {
        return None;
    }
    let t = crossing_at(r, q);
    if is_between_ends(&t) && touch(r.from, r.to, q.from, q.to) {
        Some(t)
    } else {
        None
    }
}

/// The product, which always fits twice as many bits.
fn product(a: i64, b: i64) -> i128
    ensures value { result ≡ a *ℤ b }
    ensures within { IsWithin (pos (2 ^ 126)) result }
{
    i128::from(a) * i128::from(b)
}

/// Whether one cut stands before the other.
fn comes_before(a: &Cut, b: &Cut) -> bool
    ensures { result ≡ fractions.is_before a.now b.now }
{
    is_less(product(a.num, b.den), product(b.num, a.den))
}

fn are_equal(a: i128, b: i128) -> bool
    ensures { result ≡ int_eq a b }
{
    a == b
}

/// Whether two cuts are at one point.
fn are_at_one_point(a: &Cut, b: &Cut) -> bool
    ensures { result ≡ fractions.same_value a.now b.now }
{
    are_equal(product(a.num, b.den), product(b.num, a.den))
}

/// How many cuts stand before one, of cuts in order.
fn place_of(cuts: &[Cut], cut: &Cut) -> usize
    requires rising { IsRising fractions.is_before cuts.now }
    requires cuts { All IsCut cuts.now }
    requires cut { IsCut cut.now }
    ensures bound { result ≤ length cuts.now }
    ensures point { IsPartitionPoint (λ t. fractions.is_before t cut.now ≡ true) (λ t. fractions.is_before t cut.now ≡ false) cuts.now result }
{
    cuts.partition_point(|other: &Cut| -> bool { comes_before(other, cut) })
}

/// Whether the cut at a place is at the same point.
fn stands_at(cuts: &[Cut], place: usize, cut: &Cut) -> bool
    ensures { result ≡ (nat_lt place (length cuts.now) && fractions.same_value cut.now (get_or cuts.now place cut.now)) }
{
    place < cuts.len() && are_at_one_point(cut, &cuts[place])
}

/// Puts a cut in its place among others in order, unless one of these is at the same point.
fn insert(cuts: &mut Vec<Cut>, cut: Cut) -> Result<(), NoMemory>
    requires rising { IsRising fractions.is_before cuts.old.items }
    requires cuts { All IsCut cuts.old.items }
    requires cut { IsCut cut }
    ensures { OnOk result (cuts.new.items ≡ with_cut cut cuts.old.items) }
{
    let place = place_of(cuts.as_slice(), &cut);
    if stands_at(cuts.as_slice(), place, &cut) {
        return Ok(());
    }
    cuts.insert(place, cut)?;
    Ok(())
}

/// The cuts of a route by the others, along it, each once.
///
/// Cost: one test for each other route, and a binary search for each cut.
pub(crate) fn cuts(alloc: Global, routes: &[Route], r: &Route) -> Result<Vec<Cut>, NoMemory>
    requires r_in { IsProperSegmentInRange r.now.from r.now.to }
    requires routes_in { All (λ q. IsProperSegmentInRange q.from q.to) routes.now }
    ensures { IfOk result (λ cuts. cuts.items ≡ cuts_of routes.now r.now) }
{
    let mut cuts = Vec::new(alloc);
    for q in routes {
        if let Some(cut) = cut_of(r, q) {
            insert(&mut cuts, cut)?;
        }
    }
    Ok(cuts)
}

/// A coordinate or a component of a direction, times a part of a cut.
fn times(a: i64, b: i64) -> i64
    requires a_in { IsWithin MAX_COMPONENT a }
    requires b_in { IsWithin MAX_STOP_PART b }
    ensures value { result ≡ a *ℤ b }
    ensures within { IsWithin (MAX_COMPONENT *ℤ MAX_STOP_PART) result }
{
    a * b
}

/// `a + b`, of two such products.
fn sum(a: i64, b: i64) -> i64
    requires a_in { IsWithin (MAX_COMPONENT *ℤ MAX_STOP_PART) a }
    requires b_in { IsWithin (MAX_COMPONENT *ℤ MAX_STOP_PART) b }
    ensures value { result ≡ a +ℤ b }
    ensures within { IsWithin MAX_COORDINATE_PART result }
{
    a + b
}

/// The coordinate `z + (num / den) d`.
fn shifted(z: i64, d: i64, num: i64, den: i64) -> Frac
    requires z_in { IsWithin MAX_COORDINATE z }
    requires d_in { IsWithin MAX_COMPONENT d }
    requires num_in { IsWithin MAX_STOP_PART num }
    requires den_in { IsWithin MAX_STOP_PART den }
    requires positive { pos 1 ≤ℤ den }
    ensures { result ≡ fractions.shifted z d (record { num = num; den = den }) }
{
    Frac::new(
        i128::from(sum(times(z, den), times(d, num))),
        i128::from(den),
    )
}

/// The point of a cut on the route from `p` along `d`.
pub(crate) fn point_of(p: Point, d: Point, cut: &Cut) -> RPoint
    requires p_in { InRange p }
    requires d_in { IsDirection d }
    requires cut { IsCut cut.now }
    ensures { result ≡ fractions.along p d cut.now }
{
    RPoint {
        x: shifted(p.x, d.x, cut.num, cut.den),
        y: shifted(p.y, d.y, cut.num, cut.den),
    }
}
