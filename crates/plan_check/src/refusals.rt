//! Why an item is refused on the plan of the items before it: the first cause that holds, in a fixed order.

ghost use Rattle.std.specs.Prelude.{◌≡◌};
ghost use Rattle.plan_spec.specs.Refusals as refusals;
ghost use Rattle.plan_check.specs.Kept.{IsDraft};

use crate::draft::Draft;
use crate::grid::{is_grid_in_range, is_grid_small};
use crate::place_refusals::{route_overlapped, why_not_polygon_in, why_not_segment_in};
use crate::shape_refusals::{why_not_polygon, why_not_segment};
use plan_spec::{GridSpec, Item, Limit, MAX_CORNERS, MAX_OBSTACLES, MAX_ROUTES, MAX_SCREENS, Why};
use plane_spec::Point;
use text_spec::Name;

/// Why an outer polygon is refused.
#[tactic(auto, using(crate::proofs::Drafts::few_corners), unfolding(plan_spec::specs::Refusals::why_not_outer))]
fn why_not_outer(draft: &Draft, points: &[Point]) -> Option<Why>
    requires { IsDraft draft.now }
    ensures { result ≡ refusals.why_not_outer draft.now points.now }
{
    if draft.has_outer() {
        return Some(Why::Order);
    }
    if let Some(why) = why_not_polygon(points) {
        return Some(why);
    }
    if draft.corners() + points.len() > MAX_CORNERS {
        return Some(Why::Full(Limit::Corners));
    }
    None
}

/// Why a grid is refused.
#[tactic(auto, unfolding(plan_spec::specs::Refusals::why_not_grid))]
fn why_not_grid(draft: &Draft, grid: GridSpec) -> Option<Why>
    ensures { result ≡ refusals.why_not_grid draft.now grid }
{
    if draft.grid().is_some() || !draft.has_outer() {
        return Some(Why::Order);
    }
    if !is_grid_in_range(grid) {
        return Some(Why::Range);
    }
    if !is_grid_small(grid) {
        return Some(Why::Full(Limit::Points));
    }
    None
}

/// Why an obstacle is refused: also what an edit is refused for that adds one.
#[tactic(auto, using(crate::proofs::Drafts::begun_is_sound, crate::proofs::Drafts::few_corners), unfolding(plan_spec::specs::Refusals::why_not_obstacle))]
pub(crate) fn why_not_obstacle(draft: &Draft, name: &Name, points: &[Point]) -> Option<Why>
    requires { IsDraft draft.now }
    ensures { result ≡ refusals.why_not_obstacle draft.now name.now points.now }
{
    if !draft.has_outer() {
        return Some(Why::Order);
    }
    if let Some(why) = why_not_polygon(points) {
        return Some(why);
    }
    if let Some(why) = why_not_polygon_in(draft, points) {
        return Some(why);
    }
    if draft.has_obstacle(name) {
        return Some(Why::NameTaken);
    }
    if draft.obstacles() >= MAX_OBSTACLES {
        return Some(Why::Full(Limit::Obstacles));
    }
    if draft.corners() + points.len() > MAX_CORNERS {
        return Some(Why::Full(Limit::Corners));
    }
    None
}

/// Why a screen is refused: also what an edit is refused for that adds one.
#[tactic(auto, using(crate::proofs::Drafts::begun_is_sound, crate::proofs::Drafts::few_corners), unfolding(plan_spec::specs::Refusals::why_not_screen))]
pub(crate) fn why_not_screen(draft: &Draft, name: &Name, from: Point, to: Point) -> Option<Why>
    requires { IsDraft draft.now }
    ensures { result ≡ refusals.why_not_screen draft.now name.now from to }
{
    if !draft.has_outer() {
        return Some(Why::Order);
    }
    if let Some(why) = why_not_segment(from, to) {
        return Some(why);
    }
    if let Some(why) = why_not_segment_in(draft, from, to) {
        return Some(why);
    }
    if draft.has_screen(name) {
        return Some(Why::NameTaken);
    }
    if draft.screens() >= MAX_SCREENS {
        return Some(Why::Full(Limit::Screens));
    }
    if draft.corners() + 2 > MAX_CORNERS {
        return Some(Why::Full(Limit::Corners));
    }
    None
}

/// Why a route is refused: also what an edit is refused for that adds one.
#[tactic(auto, using(crate::proofs::Drafts::begun_is_sound), unfolding(plan_spec::specs::Refusals::why_not_route))]
pub(crate) fn why_not_route(draft: &Draft, name: &Name, from: Point, to: Point) -> Option<Why>
    requires { IsDraft draft.now }
    ensures { result ≡ refusals.why_not_route draft.now name.now from to }
{
    if !draft.has_outer() {
        return Some(Why::Order);
    }
    if let Some(why) = why_not_segment(from, to) {
        return Some(why);
    }
    if draft.has_route(name) {
        return Some(Why::NameTaken);
    }
    if draft.routes() >= MAX_ROUTES {
        return Some(Why::Full(Limit::Routes));
    }
    route_overlapped(draft, from, to)
}

/// The first cause for which the item is refused, or `None` where nothing refuses it.
pub(crate) fn why_not_item(draft: &Draft, item: &Item) -> Option<Why>
    requires { IsDraft draft.now }
    ensures { result ≡ refusals.why_not_item draft.now item.now }
{
    match item {
        Item::Grid(grid) => why_not_grid(draft, *grid),
        Item::Outer(points) => why_not_outer(draft, points.as_slice()),
        Item::Obstacle(name, points) => why_not_obstacle(draft, name, points.as_slice()),
        Item::Screen(name, from, to) => why_not_screen(draft, name, *from, *to),
        Item::Route(name, from, to) => why_not_route(draft, name, *from, *to),
    }
}
