//! Which pairs of grid points an edit may have changed.

ghost use Rattle.std.specs.Prelude.{◌≡◌, ◌<◌, IfSome, length};
ghost use Rattle.plan_spec.specs.Grid.{grid_points, point_of_number};
ghost use Rattle.plan_spec.specs.Ranges.{AreBoxesInRange, IsBoxInRange};
ghost use Rattle.plane_spec.specs.Vectors.{InRange};
ghost use Rattle.sight_spec.specs.Dirty as dirty;
ghost use Rattle.vga_fill.specs.Sights.{is_dirty};

use crate::sights::Sights;
use exact_geom::meets_box;
use plan_spec::Changed;
use plane_spec::{PlanBox, Point};

/// Whether the segment meets the box, where there is one.
fn meets_if_there(p: Point, q: Point, area: Option<PlanBox>) -> bool
    requires p_in { InRange p }
    requires q_in { InRange q }
    requires area_in { IfSome area IsBoxInRange }
    ensures { result ≡ dirty.meets_if_there p q area }
{
    match area {
        Some(area) => meets_box(p, q, area),
        None => false,
    }
}

/// Whether the segment meets one of the boxes.
#[tactic(auto, unfolding(sight_spec::specs::Dirty::is_dirty_pair))]
fn is_dirty_pair(boxes: Changed, p: Point, q: Point) -> bool
    requires boxes_in { AreBoxesInRange boxes }
    requires p_in { InRange p }
    requires q_in { InRange q }
    ensures { result ≡ dirty.is_dirty_pair boxes p q }
{
    meets_if_there(p, q, boxes.first) || meets_if_there(p, q, boxes.second)
}

/// The point of the number.
pub(crate) fn place(sights: &Sights, i: u32) -> Point
    requires { i < length (grid_points sights.now.plan.value.grid) }
    ensures place { result ≡ point_of_number sights.now.plan.value.grid i }
    ensures in_range { InRange result }
{
    sights.points.point(i)
}

/// Whether the pair of two grid points is dirty.
pub(crate) fn is_dirty_at(sights: &Sights, boxes: Changed, i: u32, j: u32) -> bool
    requires boxes_in { AreBoxesInRange boxes }
    requires i_in { i < length (grid_points sights.now.plan.value.grid) }
    requires j_in { j < length (grid_points sights.now.plan.value.grid) }
    ensures { result ≡ is_dirty sights.now.plan.value boxes i j }
{
    is_dirty_pair(boxes, place(sights, i), place(sights, j))
}
