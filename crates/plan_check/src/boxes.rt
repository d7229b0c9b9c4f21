//! The boxes in which an edit changes something.

ghost use Rattle.std.specs.Prelude.{All, ◌≡◌, IsTrue, ◌∷◌, []};
ghost use Rattle.plane_spec.specs.Boxes.{box_of_points};
ghost use Rattle.plane_spec.specs.Vectors.{InRange};
ghost use Rattle.plan_spec.specs.Accepted.{is_sound};
ghost use Rattle.plan_spec.specs.Edits as edits;
ghost use Rattle.plan_spec.specs.Edits.{HasShift, IsShift};

use crate::draft::Draft;
use crate::shifts::shifted_point;
use exact_geom::box_of;
use plan_spec::{Changed, Edit};
use plane_spec::{PlanBox, Point};
use text_spec::Name;

/// The least box that has all of the points in it, or `None` without points.
fn box_of_all(points: &[Point]) -> Option<PlanBox>
    ensures { result ≡ box_of_points points.now }
{
    if points.is_empty() {
        None
    } else {
        Some(box_of(points))
    }
}

/// The box of two points.
fn box_of_two(from: Point, to: Point) -> Option<PlanBox>
    ensures { result ≡ box_of_points (from ∷ to ∷ []) }
{
    box_of_all(&[from, to])
}

/// The box moved by a shift.
fn shifted_box(area: PlanBox, dx: i64, dy: i64) -> PlanBox
    requires low_in { InRange area.low }
    requires high_in { InRange area.high }
    requires shift { IsShift dx dy }
    ensures { result ≡ edits.shifted_box dx dy area }
{
    PlanBox {
        low: shifted_point(area.low, dx, dy),
        high: shifted_point(area.high, dx, dy),
    }
}

/// The box of the obstacle of this name.
fn obstacle_box(draft: &Draft, name: &Name) -> Option<PlanBox>
    ensures { result ≡ box_of_points (edits.points_named name.now draft.now.obstacles) }
{
    match draft.polygon_named(name) {
        Some(points) => box_of_all(points),
        None => None,
    }
}

/// The box of the ends of the screen of this name.
fn screen_box(draft: &Draft, name: &Name) -> Option<PlanBox>
    ensures { result ≡ box_of_points (edits.ends_named name.now draft.now.screens) }
{
    match draft.line_named(name) {
        Some(line) => box_of_two(line.a, line.b),
        None => None,
    }
}

/// The boxes of the obstacle of this name before and after it is moved.
fn boxes_of_move(draft: &Draft, name: &Name, dx: i64, dy: i64) -> Changed
    requires sound { IsTrue (is_sound draft.now) }
    requires shift { IsShift dx dy }
    ensures { result ≡ edits.changed_boxes draft.now (Edit.Move name.now dx dy) }
{
    let first = obstacle_box(draft, name);
    let second = match first {
        Some(area) => Some(shifted_box(area, dx, dy)),
        None => None,
    };
    Changed { first, second }
}

/// The boxes of the obstacle or screen before and after the edit; a route has none.
#[tactic(auto, unfolding(plan_spec::specs::Edits::changed_boxes))]
pub(crate) fn changed_boxes(draft: &Draft, edit: &Edit) -> Changed
    requires sound { IsTrue (is_sound draft.now) }
    requires shift { HasShift edit.now }
    ensures { result ≡ edits.changed_boxes draft.now edit.now }
{
    match edit {
        Edit::Add(_, points) => Changed {
            first: None,
            second: box_of_all(points.as_slice()),
        },
        Edit::Remove(name) => Changed {
            first: obstacle_box(draft, name),
            second: None,
        },
        Edit::Move(name, dx, dy) => boxes_of_move(draft, name, *dx, *dy),
        Edit::AddScreen(_, from, to) => Changed {
            first: None,
            second: box_of_two(*from, *to),
        },
        Edit::RemoveScreen(name) => Changed {
            first: screen_box(draft, name),
            second: None,
        },
        Edit::AddRoute(_, _, _) => Changed {
            first: None,
            second: None,
        },
        Edit::RemoveRoute(_) => Changed {
            first: None,
            second: None,
        },
    }
}
