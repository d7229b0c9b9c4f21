//! Openness of many points of one plan, by the boxes of its obstacles.

ghost use Rattle.std.specs.Prelude.{◌≡◌, ◌&&◌, ◌||◌, ◌<◌, ◌+◌, ◌∷◌, All, IfOk, IsTrue, Some, drop, int_le, length};
ghost use Rattle.std.specs.List.{list_any};
ghost use Rattle.plane_spec.specs.Boxes.{box_of_points};
ghost use Rattle.plane_spec.specs.Polygons.{is_inside, is_on_border};
ghost use Rattle.plane_spec.specs.Vectors.{InRange};
ghost use Rattle.plan_spec.specs.Accepted.{is_sound};
ghost use Rattle.plan_check.specs.Kept.{obstacle_at};
ghost use Rattle.sight_spec.specs.Sight as sight;
ghost use Rattle.vga_grid.specs.Openness as openness;
ghost use Rattle.vga_grid.specs.Openness.{AreBoxesOf};

use exact_geom::{box_of, inside, on_border};
use plan_check::Plan;
use plane_spec::{PlanBox, Point};
use std::alloc::Global;
use text_spec::NoMemory;

/// The least box of an obstacle's points.
fn obstacle_box(plan: &Plan, k: usize) -> PlanBox
    requires sound { IsTrue (is_sound plan.now) }
    requires within { k < length plan.now.obstacles }
    ensures { Some result ≡ box_of_points (obstacle_at plan.now k).points }
{
    box_of(plan.obstacle(k))
}

/// The least box of each obstacle, in order.
pub(crate) fn obstacle_boxes(alloc: Global, plan: &Plan) -> Result<Vec<PlanBox>, NoMemory>
    ensures { IfOk result (λ boxes. AreBoxesOf plan.now.obstacles boxes.items) }
{
    let mut boxes = Vec::new(alloc);
    for k in 0..plan.obstacles() {
        boxes.push(obstacle_box(plan, k))?;
    }
    Ok(boxes)
}

/// Whether `z` is from `low` to `high`.
fn is_from_to(low: i64, z: i64, high: i64) -> bool
    ensures { result ≡ (int_le low z && int_le z high) }
{
    low <= z && z <= high
}

/// Whether `x` is in the box, borders counted.
fn is_in_box(x: Point, area: PlanBox) -> bool
    ensures { result ≡ openness.is_in_box x area }
{
    is_from_to(area.low.x, x.x, area.high.x) && is_from_to(area.low.y, x.y, area.high.y)
}

/// Whether `x` is inside an obstacle. One whose box it isn't in isn't asked.
fn is_inside_obstacle(plan: &Plan, boxes: &[PlanBox], k: usize, x: Point) -> bool
    requires x_in { InRange x }
    requires boxes { AreBoxesOf plan.now.obstacles boxes.now }
    requires sound { IsTrue (is_sound plan.now) }
    requires within { k < length plan.now.obstacles }
    ensures inside { result ≡ sight.has_inside x (obstacle_at plan.now k) }
    ensures next { drop k plan.now.obstacles ≡ obstacle_at plan.now k ∷ drop (k + 1) plan.now.obstacles }
{
    is_in_box(x, boxes[k]) && inside(x, plan.obstacle(k))
}

/// Whether `x` is inside an obstacle.
fn is_in_obstacle(plan: &Plan, boxes: &[PlanBox], x: Point) -> bool
    requires x_in { InRange x }
    requires boxes { AreBoxesOf plan.now.obstacles boxes.now }
    ensures { result ≡ list_any (sight.has_inside x) plan.now.obstacles }
{
    for k in 0..plan.obstacles() {
        if is_inside_obstacle(plan, boxes, k, x) {
            return true;
        }
    }
    false
}

/// Whether `x` is on or inside a polygon.
fn is_within(x: Point, points: &[Point]) -> bool
    requires x_in { InRange x }
    requires points_in { All InRange points.now }
    ensures { result ≡ (is_on_border x points.now || is_inside x points.now) }
{
    inside(x, points) || on_border(x, points)
}

/// Whether `x` is open: on or inside the outer polygon, and inside no obstacle. The boxes are those of the obstacles.
///
/// Cost: one or two passes over the outer polygon, a comparison with each box, and a pass over each obstacle whose box
/// `x` is in.
#[tactic(auto, unfolding(sight_spec::specs::Sight::is_open))]
pub(crate) fn is_open_by(plan: &Plan, boxes: &[PlanBox], x: Point) -> bool
    requires x_in { InRange x }
    requires boxes { AreBoxesOf plan.now.obstacles boxes.now }
    ensures { result ≡ sight.is_open plan.now x }
{
    is_within(x, plan.outer()) && !is_in_obstacle(plan, boxes, x)
}
