//! Boxes with sides along the axes, and what meets them.

ghost use Rattle.std.specs.Prelude.{◌≡◌, ◌≤◌, Some, length};
ghost use Rattle.plane_spec.specs.Vectors.{InRange};
ghost use Rattle.plane_spec.specs.Boxes.{box_of_points, do_intervals_overlap, does_meet_box, is_box_left_of_line, reaches_line};

use crate::vectors::is_left_of_line;
use plane_spec::{PlanBox, Point};

/// The least box that has `area` and `p` in it.
fn with_point(area: PlanBox, p: Point) -> PlanBox
    ensures { result ≡ Rattle.plane_spec.specs.Boxes.with_point area p }
{
    PlanBox {
        low: Point {
            x: area.low.x.min(p.x),
            y: area.low.y.min(p.y),
        },
        high: Point {
            x: area.high.x.max(p.x),
            y: area.high.y.max(p.y),
        },
    }
}

/// The least box that has all of the points in it. There must be one at least.
///
/// Cost: four comparisons a point.
pub fn box_of(points: &[Point]) -> PlanBox
    requires { 1 ≤ length points.now }
    ensures { Some result ≡ box_of_points points.now }
{
    let mut area = PlanBox {
        low: points[0],
        high: points[0],
    };
    for k in 1..points.len() {
        area = with_point(area, points[k]);
    }
    area
}

/// Whether the interval between `m` and `n` shares a number with the one from `low` to `high`.
fn overlap(m: i64, n: i64, low: i64, high: i64) -> bool
    ensures { result ≡ do_intervals_overlap m n low high }
{
    (low <= m || low <= n) && (m <= high || n <= high)
}

/// Whether all corners of `area` lie strictly left of the line from `p` to `q`.
#[tactic(auto, unfolding(plane_spec::specs::Boxes::is_box_left_of_line))]
fn left_of(p: Point, q: Point, area: PlanBox) -> bool
    requires p_in { InRange p }
    requires q_in { InRange q }
    requires low_in { InRange area.low }
    requires high_in { InRange area.high }
    ensures { result ≡ is_box_left_of_line p q area }
{
    let (low, high) = (area.low, area.high);
    is_left_of_line(p, q, low)
        && is_left_of_line(
            p,
            q,
            Point {
                x: high.x,
                y: low.y,
            },
        )
        && is_left_of_line(p, q, high)
        && is_left_of_line(
            p,
            q,
            Point {
                x: low.x,
                y: high.y,
            },
        )
}

/// Whether `area` isn't strictly on one side of the line through `p` and `q`.
pub(crate) fn line_reaches_box(p: Point, q: Point, area: PlanBox) -> bool
    requires p_in { InRange p }
    requires q_in { InRange q }
    requires low_in { InRange area.low }
    requires high_in { InRange area.high }
    ensures { result ≡ reaches_line p q area }
{
    !left_of(p, q, area) && !left_of(q, p, area)
}

/// Whether the segment from `p` to `q` meets `area`, borders counted: their extents overlap, and the corners of `area`
/// don't all lie strictly on one side of the segment's line.
///
/// Cost: four comparisons, and at most eight orientations where the extents overlap.
pub fn meets_box(p: Point, q: Point, area: PlanBox) -> bool
    requires p_in { InRange p }
    requires q_in { InRange q }
    requires low_in { InRange area.low }
    requires high_in { InRange area.high }
    ensures { result ≡ does_meet_box p q area }
{
    overlap(p.x, q.x, area.low.x, area.high.x)
        && overlap(p.y, q.y, area.low.y, area.high.y)
        && line_reaches_box(p, q, area)
}
