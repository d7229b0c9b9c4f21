//! Tests of one polygon, and of two parts of a plan beside each other.

ghost use Rattle.std.specs.Prelude.{All, ◌≡◌, ◌+◌, ◌<◌, ◌∷◌, ◌&&◌, length, drop};
ghost use Rattle.std.specs.List.{enumerate_from, list_all, list_any};
ghost use Rattle.plane_spec.specs.Vectors.{InRange, same_point};
ghost use Rattle.plane_spec.specs.Segments.{is_on_segment};
ghost use Rattle.plane_spec.specs.Polygons as polygon;
ghost use Rattle.plan_spec.specs.Accepted as accepted;
ghost use Rattle.plan_check.specs.Ends as ends;

use exact_geom::{edge, inside, on_segment, same_point, touch};
use plane_spec::{Point, Segment};

// ---- edges

/// Edge `k` of a polygon in range.
fn edge_in_range(points: &[Point], k: usize) -> Segment
    requires k_in { k < length points.now }
    requires points_in { All InRange points.now }
    ensures next { drop k (polygon.edges_of points.now) ≡ result ∷ drop (k + 1) (polygon.edges_of points.now) }
    ensures a_in { InRange result.a }
    ensures b_in { InRange result.b }
{
    edge(points, k)
}

// ---- one polygon by itself

/// Whether two neighbouring points are equal, the last and the first among them.
pub(crate) fn has_repeat(points: &[Point]) -> bool
    ensures { result ≡ polygon.has_repeat points.now }
{
    for k in 0..points.len() {
        let e = edge(points, k);
        if same_point(e.a, e.b) {
            return true;
        }
    }
    false
}

/// Whether `f`, which begins where `e` ends, shares more than that corner with it.
fn folds_back(e: Segment, f: Segment) -> bool
    requires ea_in { InRange e.a }
    requires eb_in { InRange e.b }
    requires fa_in { InRange f.a }
    requires fb_in { InRange f.b }
    ensures { result ≡ polygon.folds_back e f }
{
    on_segment(e.a, f.a, f.b) || on_segment(f.b, e.a, e.b)
}

/// Whether edges `i` and `j` of a polygon of so many edges may stand together, where i < j.
#[tactic(auto, using(std::proofs::lemmas::Bool::Decides::nat_tests), unfolding(plane_spec::specs::Polygons::may_be_edges))]
fn may_be_edges(count: usize, i: usize, e: Segment, j: usize, f: Segment) -> bool
    requires before { i < j }
    requires within { j < count }
    requires ea_in { InRange e.a }
    requires eb_in { InRange e.b }
    requires fa_in { InRange f.a }
    requires fb_in { InRange f.b }
    ensures { result ≡ polygon.may_be_edges count ((i, e), (j, f)) }
{
    if j == i + 1 {
        !folds_back(e, f)
    } else if i == 0 && j + 1 == count {
        !folds_back(f, e)
    } else {
        !touch(e.a, e.b, f.a, f.b)
    }
}

/// Whether edge `i` may stand beside each edge after it.
fn fits_later_edges(points: &[Point], i: usize, e: Segment) -> bool
    requires i_in { i < length points.now }
    requires points_in { All InRange points.now }
    requires a_in { InRange e.a }
    requires b_in { InRange e.b }
    ensures { result ≡ list_all (λ f. polygon.may_be_edges (length points.now) ((i, e), f)) (enumerate_from (i + 1) (drop (i + 1) (polygon.edges_of points.now))) }
{
    for j in i + 1..points.len() {
        if !may_be_edges(points.len(), i, e, j, edge_in_range(points, j)) {
            return false;
        }
    }
    true
}

/// Whether neighbouring edges share only their common corner, and no other two edges touch.
///
/// Cost: a touching test for each two edges.
pub(crate) fn crosses_nowhere(points: &[Point]) -> bool
    requires { All InRange points.now }
    ensures { result ≡ polygon.crosses_nowhere points.now }
{
    for i in 0..points.len() {
        if !fits_later_edges(points, i, edge_in_range(points, i)) {
            return false;
        }
    }
    true
}

// ---- two parts beside each other

/// Whether the segment touches an edge of the polygon.
pub(crate) fn touches_border(from: Point, to: Point, points: &[Point]) -> bool
    requires from_in { InRange from }
    requires to_in { InRange to }
    requires points_in { All InRange points.now }
    ensures { result ≡ accepted.touches_border from to points.now }
{
    for k in 0..points.len() {
        let e = edge_in_range(points, k);
        if touch(from, to, e.a, e.b) {
            return true;
        }
    }
    false
}

/// Whether an edge of one polygon touches an edge of the other.
///
/// Cost: a touching test for each edge of one and each of the other, up to the first two that touch.
fn borders_touch(points: &[Point], others: &[Point]) -> bool
    requires points_in { All InRange points.now }
    requires others_in { All InRange others.now }
    ensures { result ≡ polygon.borders_touch points.now others.now }
{
    for k in 0..points.len() {
        let e = edge_in_range(points, k);
        if touches_border(e.a, e.b, others) {
            return true;
        }
    }
    false
}

fn all_inside(points: &[Point], around: &[Point]) -> bool
    requires points_in { All InRange points.now }
    requires around_in { All InRange around.now }
    ensures { result ≡ list_all (λ p. polygon.is_inside p around.now) points.now }
{
    points.iter().all(|p| inside(*p, around))
}

fn any_inside(points: &[Point], around: &[Point]) -> bool
    requires points_in { All InRange points.now }
    requires around_in { All InRange around.now }
    ensures { result ≡ list_any (λ p. polygon.is_inside p around.now) points.now }
{
    points.iter().any(|p| inside(*p, around))
}

/// Whether each corner is inside the outer polygon, and no edge touches one of its edges.
#[tactic(auto, unfolding(plan_spec::specs::Accepted::lies_within))]
pub(crate) fn lies_within(outer: &[Point], points: &[Point]) -> bool
    requires outer_in { All InRange outer.now }
    requires points_in { All InRange points.now }
    ensures { result ≡ accepted.lies_within outer.now points.now }
{
    all_inside(points, outer) && !borders_touch(outer, points)
}

/// Whether edges of the two polygons touch, or a corner of one is inside the other.
#[tactic(auto, unfolding(plan_spec::specs::Accepted::polygons_meet))]
pub(crate) fn polygons_meet(points: &[Point], others: &[Point]) -> bool
    requires points_in { All InRange points.now }
    requires others_in { All InRange others.now }
    ensures { result ≡ accepted.polygons_meet points.now others.now }
{
    borders_touch(points, others) || any_inside(points, others) || any_inside(others, points)
}

/// Whether both ends are inside the outer polygon, and the segment touches none of its edges.
#[tactic(auto, unfolding(plan_spec::specs::Accepted::segment_lies_within))]
pub(crate) fn segment_lies_within(outer: &[Point], from: Point, to: Point) -> bool
    requires outer_in { All InRange outer.now }
    requires from_in { InRange from }
    requires to_in { InRange to }
    ensures { result ≡ accepted.segment_lies_within outer.now from to }
{
    inside(from, outer) && inside(to, outer) && !touches_border(from, to, outer)
}

/// Whether the segment touches an edge of the polygon, or has an end inside it.
#[tactic(auto, unfolding(plan_spec::specs::Accepted::segment_meets_polygon))]
pub(crate) fn segment_meets_polygon(from: Point, to: Point, points: &[Point]) -> bool
    requires from_in { InRange from }
    requires to_in { InRange to }
    requires points_in { All InRange points.now }
    ensures { result ≡ accepted.segment_meets_polygon from to points.now }
{
    touches_border(from, to, points) || inside(from, points) || inside(to, points)
}

/// Whether `x` lies on both segments.
fn is_shared(x: Point, a: Point, b: Point, c: Point, d: Point) -> bool
    requires x_in { InRange x }
    requires a_in { InRange a }
    requires b_in { InRange b }
    requires c_in { InRange c }
    requires d_in { InRange d }
    ensures { result ≡ (is_on_segment x a b && is_on_segment x c d) }
{
    on_segment(x, a, b) && on_segment(x, c, d)
}

/// Whether two ends lie on both segments, as is told of each, and differ.
#[tactic(auto, unfolding(crate::specs::Ends::are_two_shared))]
fn are_two_shared(p: Point, p_shared: bool, q: Point, q_shared: bool) -> bool
    ensures { result ≡ ends.are_two_shared p p_shared q q_shared }
{
    p_shared && q_shared && !same_point(p, q)
}

/// Whether the segments `ab` and `cd` share more than one point: two different ends of theirs lie on both.
#[tactic(auto, using(crate::proofs::Overlap::overlap_is))]
pub(crate) fn lines_overlap(a: Point, b: Point, c: Point, d: Point) -> bool
    requires a_in { InRange a }
    requires b_in { InRange b }
    requires c_in { InRange c }
    requires d_in { InRange d }
    ensures { result ≡ accepted.do_segments_overlap a b c d }
{
    let a_shared = is_shared(a, a, b, c, d);
    let b_shared = is_shared(b, a, b, c, d);
    let c_shared = is_shared(c, a, b, c, d);
    let d_shared = is_shared(d, a, b, c, d);
    are_two_shared(a, a_shared, b, b_shared)
        || are_two_shared(a, a_shared, c, c_shared)
        || are_two_shared(a, a_shared, d, d_shared)
        || are_two_shared(b, b_shared, c, c_shared)
        || are_two_shared(b, b_shared, d, d_shared)
        || are_two_shared(c, c_shared, d, d_shared)
}
