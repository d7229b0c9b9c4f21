//! What the station itself stands on.

ghost use Rattle.std.specs.Prelude.{◌≡◌, false, All, MatchOption};
ghost use Rattle.std.specs.List.{list_any};
ghost use Rattle.plane_spec.specs.Segments.{IsSegmentInRange};
ghost use Rattle.plane_spec.specs.Vectors.{InRange};
ghost use Rattle.sight_spec.specs.Sight as sight;
ghost use Rattle.station_laws.specs.Grounds.{IsAtNoCorner, IsFirstCorner, IsGroundOf, IsOnWall};

use crate::table::SceneTable;
use exact_geom::{on_segment, same_point};
use plane_spec::{Corner, Point, Segment as Wall};
use view_laws::Ground;

/// The first of the corners that is at `p`.
fn corner_at(corners: &[Corner], p: Point) -> Option<Corner>
    ensures { MatchOption result (IsAtNoCorner p corners.now) (IsFirstCorner p corners.now) }
{
    for k in 0..corners.len() {
        let corner = corners[k];
        if same_point(corner.here, p) {
            return Some(corner);
        }
    }
    None
}

/// Whether `p` lies on the wall, not at its ends.
fn is_in_interior(p: Point, wall: &Wall) -> bool
    requires p_in { InRange p }
    requires wall_in { IsSegmentInRange wall.now }
    ensures { result ≡ sight.is_in_interior p wall.now }
{
    on_segment(p, wall.a, wall.b) && (!same_point(p, wall.a) && !same_point(p, wall.b))
}

/// The first of the walls that has `p` on it, not at its ends.
fn wall_at(walls: &[Wall], p: Point) -> Option<Wall>
    requires p_in { InRange p }
    requires walls_in { All IsSegmentInRange walls.now }
    ensures { MatchOption result (list_any (sight.is_in_interior p) walls.now ≡ false) (IsOnWall p walls.now) }
{
    for k in 0..walls.len() {
        let wall = walls[k];
        if is_in_interior(p, &wall) {
            return Some(wall);
        }
    }
    None
}

/// What `p` stands on.
pub(crate) fn ground_of(table: &SceneTable, p: Point) -> Ground
    requires p_in { InRange p }
    ensures { IsGroundOf table.now p result }
{
    match corner_at(table.corners(), p) {
        Some(corner) => Ground::Corner(corner),
        None => match wall_at(table.walls(), p) {
            Some(wall) => Ground::Wall(wall),
            None => Ground::Free,
        },
    }
}
