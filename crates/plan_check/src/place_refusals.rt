//! Why a polygon or a line is refused where it stands: it isn't within the outer polygon, or meets what is there.

ghost use Rattle.std.specs.Prelude.{All, ◌≡◌, IsTrue};
ghost use Rattle.plane_spec.specs.Vectors.{InRange};
ghost use Rattle.plan_spec.specs.Accepted.{is_sound};
ghost use Rattle.plan_spec.specs.Refusals as refusals;

use crate::draft::Draft;
use crate::polygons::{
    lies_within, lines_overlap, polygons_meet, segment_lies_within, segment_meets_polygon,
};
use exact_geom::touch;
use plan_spec::Why;
use plane_spec::Point;

// ---- a polygon

/// The first obstacle that meets the polygon.
fn obstacle_met(draft: &Draft, points: &[Point]) -> Option<Why>
    requires sound { IsTrue (is_sound draft.now) }
    requires points_in { All InRange points.now }
    ensures { result ≡ refusals.first_obstacle (refusals.obstacles_met points.now draft.now.obstacles) }
{
    for k in 0..draft.obstacles() {
        if polygons_meet(draft.obstacle(k), points) {
            return Some(Why::Touch(draft.obstacle_name(k).copy()));
        }
    }
    None
}

/// The first screen that meets the polygon.
fn screen_met(draft: &Draft, points: &[Point]) -> Option<Why>
    requires sound { IsTrue (is_sound draft.now) }
    requires points_in { All InRange points.now }
    ensures { result ≡ refusals.first_screen (refusals.screens_met points.now draft.now.screens) }
{
    for k in 0..draft.screens() {
        let screen = draft.screen(k);
        if segment_meets_polygon(screen.from, screen.to, points) {
            return Some(Why::Screen(screen.name));
        }
    }
    None
}

/// What a polygon is refused for where it stands.
#[tactic(auto, unfolding(plan_spec::specs::Refusals::why_not_polygon_in))]
pub(crate) fn why_not_polygon_in(draft: &Draft, points: &[Point]) -> Option<Why>
    requires sound { IsTrue (is_sound draft.now) }
    requires points_in { All InRange points.now }
    ensures { result ≡ refusals.why_not_polygon_in draft.now points.now }
{
    if !lies_within(draft.outer(), points) {
        return Some(Why::Outside);
    }
    if let Some(why) = obstacle_met(draft, points) {
        return Some(why);
    }
    screen_met(draft, points)
}

// ---- a screen

/// The first obstacle that meets the line.
fn obstacle_met_by_segment(draft: &Draft, from: Point, to: Point) -> Option<Why>
    requires sound { IsTrue (is_sound draft.now) }
    requires from_in { InRange from }
    requires to_in { InRange to }
    ensures { result ≡ refusals.first_obstacle (refusals.obstacles_met_by_segment from to draft.now.obstacles) }
{
    for k in 0..draft.obstacles() {
        if segment_meets_polygon(from, to, draft.obstacle(k)) {
            return Some(Why::Touch(draft.obstacle_name(k).copy()));
        }
    }
    None
}

/// The first screen that touches the line.
fn screen_met_by_segment(draft: &Draft, from: Point, to: Point) -> Option<Why>
    requires sound { IsTrue (is_sound draft.now) }
    requires from_in { InRange from }
    requires to_in { InRange to }
    ensures { result ≡ refusals.first_screen (refusals.screens_met_by_segment from to draft.now.screens) }
{
    for k in 0..draft.screens() {
        let screen = draft.screen(k);
        if touch(screen.from, screen.to, from, to) {
            return Some(Why::Screen(screen.name));
        }
    }
    None
}

/// What a screen is refused for where it stands.
#[tactic(auto, unfolding(plan_spec::specs::Refusals::why_not_segment_in))]
pub(crate) fn why_not_segment_in(draft: &Draft, from: Point, to: Point) -> Option<Why>
    requires sound { IsTrue (is_sound draft.now) }
    requires from_in { InRange from }
    requires to_in { InRange to }
    ensures { result ≡ refusals.why_not_segment_in draft.now from to }
{
    if !segment_lies_within(draft.outer(), from, to) {
        return Some(Why::Outside);
    }
    if let Some(why) = obstacle_met_by_segment(draft, from, to) {
        return Some(why);
    }
    screen_met_by_segment(draft, from, to)
}

// ---- a route

/// The first route that shares more than a point with the line.
pub(crate) fn route_overlapped(draft: &Draft, from: Point, to: Point) -> Option<Why>
    requires sound { IsTrue (is_sound draft.now) }
    requires from_in { InRange from }
    requires to_in { InRange to }
    ensures { result ≡ refusals.first_route (refusals.routes_overlapped from to draft.now.routes) }
{
    for k in 0..draft.routes() {
        let route = draft.route(k);
        if lines_overlap(route.from, route.to, from, to) {
            return Some(Why::Overlap(route.name));
        }
    }
    None
}
