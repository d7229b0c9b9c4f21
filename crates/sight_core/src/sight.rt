//! Which points see each other.

ghost use Rattle.std.specs.Prelude.{All, ◌≡◌};
ghost use Rattle.std.specs.List.{list_any};
ghost use Rattle.plane_spec.specs.Vectors as vectors;
ghost use Rattle.plane_spec.specs.Vectors.{InRange};
ghost use Rattle.plane_spec.specs.declared.Point.{Point};
ghost use Rattle.sight_spec.specs.Scene.{Scene};
ghost use Rattle.sight_spec.specs.Sight as sight;
ghost use Rattle.sight_core.specs.Blocks as blocks;
ghost use Rattle.plane_spec.specs.Segments.{IsSegmentInRange};
ghost use Rattle.plane_spec.specs.Cones.{IsCornerInRange};

use crate::cone::in_cone;
use crate::scene::Scene;
use exact_geom::{cross_properly, is_left_of_line, on_segment, orient, same_point, vector};
use plane_spec::{Corner, Point, Segment as Wall};

/// Whether `p` lies on the wall, not at its ends.
pub(crate) fn is_in_interior(p: Point, wall: &Wall) -> bool
    requires p_in { InRange p }
    requires wall_in { IsSegmentInRange wall.now }
    ensures { result ≡ sight.is_in_interior p wall.now }
{
    on_segment(p, wall.a, wall.b) && !same_point(p, wall.a) && !same_point(p, wall.b)
}

/// Whether the segment from `p` to `q` begins on the wall, not at its ends, and leads to its left.
#[tactic(auto, unfolding(sight_spec::specs::Sight::starts_into_wall))]
fn starts_into_wall(p: Point, q: Point, wall: &Wall) -> bool
    requires p_in { InRange p }
    requires q_in { InRange q }
    requires wall_in { IsSegmentInRange wall.now }
    ensures { result ≡ sight.starts_into_wall p q wall.now }
{
    is_in_interior(p, wall) && is_left_of_line(wall.a, wall.b, q)
}

/// Whether the segment begins or ends on the wall and is on its left.
fn starts_or_ends_in_wall(p: Point, q: Point, wall: &Wall) -> bool
    requires p_in { InRange p }
    requires q_in { InRange q }
    requires wall_in { IsSegmentInRange wall.now }
    ensures { result ≡ sight.starts_or_ends_in_wall p q wall.now }
{
    starts_into_wall(p, q, wall) || starts_into_wall(q, p, wall)
}

/// Whether both are positive, or both are negative.
fn are_alike(s: i128, t: i128) -> bool
    ensures { result ≡ blocks.are_alike s t }
{
    (0 < s && 0 < t) || (s < 0 && t < 0)
}

/// Whether the wall's ends lie strictly on one side of the line through `p` and `q`.
#[tactic(auto, unfolding(crate::specs::Blocks::is_strictly_on_one_side))]
fn is_strictly_on_one_side(p: Point, q: Point, wall: &Wall) -> bool
    requires p_in { InRange p }
    requires q_in { InRange q }
    requires wall_in { IsSegmentInRange wall.now }
    ensures { result ≡ blocks.is_strictly_on_one_side p q wall.now }
{
    are_alike(orient(p, q, wall.a), orient(p, q, wall.b))
}

/// Whether the wall is in the way. Most walls lie strictly on one side of the segment's line, so this is tried first.
#[tactic(auto, using(crate::proofs::Sides::wall_blocks_is))]
fn wall_blocks(p: Point, q: Point, wall: &Wall) -> bool
    requires p_in { InRange p }
    requires q_in { InRange q }
    requires wall_in { IsSegmentInRange wall.now }
    ensures { result ≡ blocks.wall_blocks p q wall.now }
{
    !is_strictly_on_one_side(p, q, wall)
        && (cross_properly(wall.a, wall.b, p, q) || starts_or_ends_in_wall(p, q, wall))
}

/// Whether the corner isn't `to` and has the direction to it in its cone.
#[tactic(auto, unfolding(crate::specs::Blocks::blocks_towards))]
fn blocks_towards(to: Point, corner: &Corner) -> bool
    requires to_in { InRange to }
    requires corner_in { IsCornerInRange corner.now }
    ensures { result ≡ blocks.blocks_towards to corner.now }
{
    !same_point(corner.here, to) && in_cone(*corner, vector(corner.here, to))
}

/// Whether the corner is in the way. Few corners lie on the segment, so this is tried first.
fn corner_blocks(p: Point, q: Point, corner: &Corner) -> bool
    requires p_in { InRange p }
    requires q_in { InRange q }
    requires corner_in { IsCornerInRange corner.now }
    ensures { result ≡ sight.corner_blocks p q corner.now }
{
    on_segment(corner.here, p, q) && (blocks_towards(q, corner) || blocks_towards(p, corner))
}

/// Whether one of the walls is in the way.
fn any_wall_blocks(walls: &[Wall], p: Point, q: Point) -> bool
    requires walls_in { All IsSegmentInRange walls.now }
    requires p_in { InRange p }
    requires q_in { InRange q }
    ensures { result ≡ list_any (blocks.wall_blocks p q) walls.now }
{
    walls.iter().any(|wall| wall_blocks(p, q, wall))
}

/// Whether one of the screens is crossed properly.
fn any_screen_blocks(screens: &[Wall], p: Point, q: Point) -> bool
    requires screens_in { All IsSegmentInRange screens.now }
    requires p_in { InRange p }
    requires q_in { InRange q }
    ensures { result ≡ list_any (sight.crosses p q) screens.now }
{
    screens
        .iter()
        .any(|screen| cross_properly(screen.a, screen.b, p, q))
}

/// Whether one of the corners is in the way.
fn any_corner_blocks(corners: &[Corner], p: Point, q: Point) -> bool
    requires corners_in { All IsCornerInRange corners.now }
    requires p_in { InRange p }
    requires q_in { InRange q }
    ensures { result ≡ list_any (sight.corner_blocks p q) corners.now }
{
    corners.iter().any(|corner| corner_blocks(p, q, corner))
}

/// Whether something is in the way of the segment from `p` to `q`.
fn is_blocked(walls: &[Wall], screens: &[Wall], corners: &[Corner], p: Point, q: Point) -> bool
    requires walls_in { All IsSegmentInRange walls.now }
    requires screens_in { All IsSegmentInRange screens.now }
    requires corners_in { All IsCornerInRange corners.now }
    requires p_in { InRange p }
    requires q_in { InRange q }
    ensures { result ≡ sight.is_blocked (record { walls = walls.now; screens = screens.now; corners = corners.now }) p q }
{
    any_wall_blocks(walls, p, q)
        || any_screen_blocks(screens, p, q)
        || any_corner_blocks(corners, p, q)
}

/// Whether `p` and `q` see each other: they differ, the segment between them crosses no wall and no screen properly,
/// neither begins nor ends on a wall with the rest to its left, and passes through no corner into what is blocked.
/// Grazing a wall, a screen or a corner is free.
///
/// Cost: one pass over the walls, screens and corners, up to the first that is in the way, and mostly two orientations
/// a wall.
///
/// Source: mutual visibility after Turner, Doxa, O'Sullivan and Penn (2001); the rule at corners is this project's own.
#[tactic(auto, unfolding(sight_spec::specs::Sight::are_in_sight))]
pub fn free(scene: &Scene, p: Point, q: Point) -> bool
    requires p_in { InRange p }
    requires q_in { InRange q }
    ensures { result ≡ sight.are_in_sight scene.now p q }
{
    !same_point(p, q) && !is_blocked(scene.walls(), scene.screens(), scene.corners(), p, q)
}

/// Sight goes both ways.
pub fn sight_is_mutual()
    ensures { (scene : Scene) (p q : Point) → sight.are_in_sight scene p q ≡ sight.are_in_sight scene q p }
{}
