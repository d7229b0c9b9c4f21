//! How far a ray reaches.

ghost use Rattle.std.specs.Prelude.{All, IfSome, Some, ◌≡◌, ◌≤ℤ◌, ◌<◌, ◌+◌, ℕ, length, pos, true, false};
ghost use Rattle.std.specs.List.{filter_map, list_any, position};
ghost use Rattle.std.specs.Option.{option_map};
ghost use Rattle.exact_geom.specs.Parts.{HasStopParts};
ghost use Rattle.plane_spec.specs.declared.Point.{Point};
ghost use Rattle.plane_spec.specs.Fractions.{Fraction, reduced};
ghost use Rattle.plane_spec.specs.Vectors.{InRange, IsDirected, IsDirection, vector};
ghost use Rattle.sight_spec.specs.Scene.{Scene};
ghost use Rattle.sight_spec.specs.Sight.{are_in_sight, is_in_interior};
ghost use Rattle.sight_spec.specs.Stops as stops;
ghost use Rattle.sight_core.specs.Hits as hits;
ghost use Rattle.sight_core.specs.Scenes.{IsOfSoundPlan};
ghost use Rattle.plane_spec.specs.Segments.{IsSegmentInRange};
ghost use Rattle.plane_spec.specs.Cones.{IsCornerInRange};

use crate::hits::{Hit, blocker_hit, corner_hit, is_no_later, nearer, start_hit};
use crate::scene::Scene;
use exact_geom::Frac;
use plane_spec::{Corner, Point, Segment as Wall};

/// The first of the least among the best so far and where the ray meets walls or screens.
fn nearest_blocker(best: Option<Hit>, lines: &[Wall], p: Point, d: Point) -> Option<Hit>
    requires lines_in { All IsSegmentInRange lines.now }
    requires p_in { InRange p }
    requires d_in { IsDirection d }
    ensures { result ≡ hits.min_from best (filter_map (stops.blocker_hit p d) lines.now) }
{
    let mut nearest = best;
    for line in lines {
        nearest = nearer(nearest, blocker_hit(p, d, line));
    }
    nearest
}

/// The first of the least among the best so far and where the ray passes through corners into what is blocked.
fn nearest_corner(best: Option<Hit>, corners: &[Corner], p: Point, d: Point) -> Option<Hit>
    requires corners_in { All IsCornerInRange corners.now }
    requires p_in { InRange p }
    requires d_in { IsDirection d }
    requires directed { IsDirected d }
    ensures { result ≡ hits.min_from best (filter_map (stops.corner_hit p d) corners.now) }
{
    let mut nearest = best;
    for corner in corners {
        nearest = nearer(nearest, corner_hit(p, d, corner));
    }
    nearest
}

/// The first of the least among the best so far and where the ray begins, for each wall that it leaves to its left.
fn nearest_start(best: Option<Hit>, walls: &[Wall], p: Point, d: Point) -> Option<Hit>
    requires walls_in { All IsSegmentInRange walls.now }
    requires p_in { InRange p }
    requires d_in { IsDirection d }
    ensures { result ≡ hits.min_from best (filter_map (stops.start_hit p d) walls.now) }
{
    let mut nearest = best;
    for wall in walls {
        nearest = nearer(nearest, start_hit(p, d, wall));
    }
    nearest
}

/// The first of the least `t` at which the ray is stopped.
fn nearest_of(scene: &Scene, p: Point, d: Point) -> Option<Hit>
    requires p_in { InRange p }
    requires d_in { IsDirection d }
    requires directed { IsDirected d }
    ensures first { result ≡ hits.nearest_of scene.now p d }
    ensures of_plan { IsOfSoundPlan scene.now }
{
    let across_walls = nearest_blocker(None, scene.walls(), p, d);
    let across = nearest_blocker(across_walls, scene.screens(), p, d);
    let ahead = nearest_corner(across, scene.corners(), p, d);
    nearest_start(ahead, scene.walls(), p, d)
}

/// How far a ray reaches: the least `t` of at least 0 for which `p + t d` is where it meets a wall or a screen between
/// its ends, where it passes through a corner into what is blocked, or where it begins, if that is on a wall, not at
/// its ends, with what is blocked ahead. `None` exactly where nothing stops it.
///
/// Cost: two passes over the walls and one over the screens and corners, and the reduction of one fraction.
///
/// Source: the rays of an isovist after Benedikt (1979); the rules at corners and at the beginning are this project's
/// own.
#[tactic(auto, unfolding(sight_spec::specs::Stops::stop_of))]
pub fn stop(scene: &Scene, p: Point, d: Point) -> Option<Frac>
    requires p_in { InRange p }
    requires d_in { IsDirection d }
    requires directed { IsDirected d }
    ensures least { result ≡ stops.stop_of scene.now p d }
    ensures parts_bounded { IfSome result HasStopParts }
    ensures ahead { IfSome result (λ t. pos 0 ≤ℤ t.num) }
{
    nearest_of(scene, p, d).map(|hit| hit.reduced())
}

/// Stops are small and never behind: in each scene of a sound plan, where a ray from a point in range is stopped at
/// `t`, numerator and denominator are at most [`MAX_STOP_PART`](exact_geom::MAX_STOP_PART) in size, and `t` is at least
/// 0. So `RPoint::along` takes a stop of which only the definition is known.
///
/// Proofs cite these laws from `proofs/StopBounds.antt`.
pub fn stops_are_small()
    ensures parts_bounded { (scene : Scene) (p d : Point) (t : Fraction) → IsOfSoundPlan scene → InRange p → IsDirection d → stops.stop_of scene p d ≡ Some t → HasStopParts t }
    ensures ahead { (scene : Scene) (p d : Point) (t : Fraction) → IsOfSoundPlan scene → InRange p → IsDirection d → stops.stop_of scene p d ≡ Some t → pos 0 ≤ℤ t.num }
{}

/// The first of the least `t` at which the ray meets a wall or a screen.
fn nearest_line_of(scene: &Scene, p: Point, d: Point) -> Option<Hit>
    requires p_in { InRange p }
    requires d_in { IsDirection d }
    ensures { result ≡ hits.nearest_line_of scene.now p d }
{
    let across_walls = nearest_blocker(None, scene.walls(), p, d);
    nearest_blocker(across_walls, scene.screens(), p, d)
}

/// Whether the wall or screen is hit, and not after `other`.
fn is_hit_by(p: Point, d: Point, other: &Hit, line: &Wall) -> bool
    requires p_in { InRange p }
    requires d_in { IsDirection d }
    requires line_in { IsSegmentInRange line.now }
    ensures { result ≡ hits.is_hit_by p d other.now line.now }
{
    is_no_later(blocker_hit(p, d, line), other)
}

/// The index of the first that is hit, and not after `other`.
fn first_hit_by(lines: &[Wall], p: Point, d: Point, other: &Hit) -> Option<usize>
    requires lines_in { All IsSegmentInRange lines.now }
    requires p_in { InRange p }
    requires d_in { IsDirection d }
    ensures { result ≡ position (hits.is_hit_by p d other.now) lines.now }
{
    lines.iter().position(|line| is_hit_by(p, d, other, line))
}

/// The number of the wall or screen that a ray meets nearest, between its ends and after its beginning: walls are
/// numbered from 0 on, and then come the screens. Of those that it meets in one point it is the first. `None` where the
/// ray meets none.
///
/// Cost: two passes over the walls and screens.
pub fn near_wall(scene: &Scene, p: Point, d: Point) -> Option<u32>
    requires p_in { InRange p }
    requires d_in { IsDirection d }
    ensures nearest { result ≡ stops.near_wall_of scene.now p d }
    ensures numbered { IfSome result (λ k. k < length scene.now.walls + length scene.now.screens) }
{
    let (walls, screens) = (scene.walls(), scene.screens());
    match nearest_line_of(scene, p, d) {
        None => None,
        Some(nearest) => match first_hit_by(walls, p, d, &nearest) {
            Some(k) => Some(k as u32),
            None => match first_hit_by(screens, p, d, &nearest) {
                Some(k) => Some((walls.len() + k) as u32),
                None => None,
            },
        },
    }
}

/// The number of the nearest wall or screen is below the number of walls and screens, in any scene.
pub fn near_walls_are_numbered()
    ensures { (scene : Scene) (p d : Point) (k : ℕ) → stops.near_wall_of scene p d ≡ Some k → k < length scene.walls + length scene.screens }
{}

/// The stop from a later point of a ray that its beginning sees: the stop from the beginning, less one step, or none
/// with it. So one sweep at each of two points that see each other gives the stops of the line through both. The later
/// point isn't on a screen, but for its ends.
///
/// Proofs cite this law from `proofs/Onward.antt`.
pub fn stops_go_on()
    ensures { (scene : Scene) (p q : Point) → are_in_sight scene p q ≡ true → list_any (is_in_interior q) scene.screens ≡ false → stops.stop_of scene q (vector p q) ≡ option_map (λ t. reduced (hits.one_less t)) (stops.stop_of scene p (vector p q)) }
{}
