//! Why a polygon or a line is refused by itself.

ghost use Rattle.std.specs.Prelude.{All, ◌≡◌, IfNone};
ghost use Rattle.std.specs.Bool.{OnTrue};
ghost use Rattle.std.specs.List.{list_all};
ghost use Rattle.plane_spec.specs.Vectors.{InRange, is_in_range};
ghost use Rattle.plan_spec.specs.Refusals as refusals;

use crate::polygons::{crosses_nowhere, has_repeat};
use exact_geom::{in_range, same_point};
use plan_spec::Why;
use plane_spec::Point;

/// Whether all points are in range.
pub(crate) fn all_in_range(points: &[Point]) -> bool
    ensures value { result ≡ list_all is_in_range points.now }
    ensures meaning { OnTrue result (All InRange points.now) }
{
    points.iter().all(|p| in_range(*p))
}

/// What the points of a polygon are refused for by themselves.
#[tactic(auto, unfolding(plan_spec::specs::Refusals::why_not_polygon))]
pub(crate) fn why_not_polygon(points: &[Point]) -> Option<Why>
    ensures cause { result ≡ refusals.why_not_polygon points.now }
    ensures in_range { IfNone result (All InRange points.now) }
{
    if points.len() < 3 {
        return Some(Why::Count);
    }
    if !all_in_range(points) {
        return Some(Why::Range);
    }
    if has_repeat(points) {
        return Some(Why::Repeat);
    }
    if !crosses_nowhere(points) {
        return Some(Why::Cross);
    }
    None
}

/// What the ends of a line are refused for by themselves.
#[tactic(auto, unfolding(plan_spec::specs::Refusals::why_not_segment))]
pub(crate) fn why_not_segment(from: Point, to: Point) -> Option<Why>
    ensures cause { result ≡ refusals.why_not_segment from to }
    ensures from_in { IfNone result (InRange from) }
    ensures to_in { IfNone result (InRange to) }
{
    if !in_range(from) || !in_range(to) {
        return Some(Why::Range);
    }
    if same_point(from, to) {
        return Some(Why::Repeat);
    }
    None
}
