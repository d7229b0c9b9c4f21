//! Polygons, as the points in order: the last is joined to the first.

ghost use Rattle.std.specs.Prelude.{All, Contains, ◌≡◌, ◌+◌, ◌<◌, ◌∷◌, drop, length};
ghost use Rattle.plane_spec.specs.Vectors.{InRange};
ghost use Rattle.plane_spec.specs.Polygons.{edges_of, is_inside, is_on_border, passes_right};

use crate::products::orient;
use crate::segments::on_segment;
use plane_spec::{Point, Segment};

/// Edge `k` of a polygon, from point `k` to point `k + 1`, or from the last point to the first.
pub fn edge(points: &[Point], k: usize) -> Segment
    requires { k < length points.now }
    ensures next { drop k (edges_of points.now) ≡ result ∷ drop (k + 1) (edges_of points.now) }
    ensures start { Contains points.now result.a }
    ensures end { Contains points.now result.b }
{
    let after = if k + 1 < points.len() { k + 1 } else { 0 };
    Segment {
        a: points[k],
        b: points[after],
    }
}

/// Whether the edge passes strictly to the right of `x`: one end is above `x` and the other isn't.
fn passes(x: Point, e: Segment) -> bool
    requires x_in { InRange x }
    requires a_in { InRange e.a }
    requires b_in { InRange e.b }
    ensures { result ≡ passes_right x e }
{
    let turn = orient(e.a, e.b, x);
    if e.a.y <= x.y {
        x.y < e.b.y && 0 < turn
    } else {
        e.b.y <= x.y && turn < 0
    }
}

/// Whether `x` lies on an edge of the polygon.
///
/// Cost: one orientation an edge, up to the first that `x` lies on.
pub fn on_border(x: Point, points: &[Point]) -> bool
    requires x_in { InRange x }
    requires points_in { All InRange points.now }
    ensures { result ≡ is_on_border x points.now }
{
    for k in 0..points.len() {
        let e = edge(points, k);
        if on_segment(x, e.a, e.b) {
            return true;
        }
    }
    false
}

/// Whether `x` lies inside the polygon: on none of its edges, and the edges that pass strictly to its right are odd in
/// number.
///
/// Cost: one orientation an edge, up to the first that `x` lies on.
pub fn inside(x: Point, points: &[Point]) -> bool
    requires x_in { InRange x }
    requires points_in { All InRange points.now }
    ensures { result ≡ is_inside x points.now }
{
    let mut odd = false;
    for k in 0..points.len() {
        let e = edge(points, k);
        if on_segment(x, e.a, e.b) {
            return false;
        }
        if passes(x, e) {
            odd = !odd;
        }
    }
    odd
}
