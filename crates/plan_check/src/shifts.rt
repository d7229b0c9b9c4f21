//! Points that are moved.

ghost use Rattle.std.specs.Prelude.{All, ◌≡◌, IfOk, map};
ghost use Rattle.std.specs.Option.{option_map};
ghost use Rattle.plane_spec.specs.Vectors.{InRange};
ghost use Rattle.plan_spec.specs.Edits as edits;
ghost use Rattle.plan_spec.specs.Edits.{IsShift};

use plan_spec::Points;
use plane_spec::Point;
use std::alloc::Global;
use text_spec::NoMemory;

/// The point moved by a shift; it may then be out of range.
pub(crate) fn shifted_point(p: Point, dx: i64, dy: i64) -> Point
    requires p_in { InRange p }
    requires shift { IsShift dx dy }
    ensures { result ≡ edits.shifted_point dx dy p }
{
    Point {
        x: p.x + dx,
        y: p.y + dy,
    }
}

/// The points moved by a shift.
pub(crate) fn shifted_points(
    alloc: Global,
    points: &[Point],
    dx: i64,
    dy: i64,
) -> Result<Points, NoMemory>
    requires points_in { All InRange points.now }
    requires shift { IsShift dx dy }
    ensures { IfOk result (λ moved. moved ≡ map (edits.shifted_point dx dy) points.now) }
{
    let mut moved = Points::new(alloc);
    for p in points {
        moved.push(shifted_point(*p, dx, dy))?;
    }
    Ok(moved)
}
