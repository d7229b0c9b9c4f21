//! The triangles of runs.

ghost use Rattle.std.specs.Prelude.{◌≡◌, ◌≢◌, ◌<◌, ◌≤ℤ◌, All, IfOk, length, map, pos};
ghost use Rattle.plane_spec.specs.Fractions as fractions;
ghost use Rattle.plane_spec.specs.Segments.{IsSegmentInRange};
ghost use Rattle.plane_spec.specs.Vectors.{InRange, cross_of, vector};
ghost use Rattle.sight_spec.specs.Isovist as isovists;
ghost use Rattle.sight_spec.specs.Isovist.{blocker_at, meeting_with};
ghost use Rattle.sight_spec.specs.Scene.{blockers_of_scene};
ghost use Rattle.isovist_laws.specs.Spans.{IsSpanned};
ghost use Rattle.isovist_core.specs.Sightings.{run_of};
ghost use Rattle.isovist_core.specs.Sums.{area_of_run, triangle_of_run};

use crate::area::Area;
use crate::heading::Heading;
use crate::sighted_run::SightedRun;
use crate::triangle::Triangle;
use crate::ways::way_to;
use exact_geom::RPoint;
use plane_spec::{Point, Segment as Wall};
use sight_core::{Hit, Scene, wall_parameter};
use std::alloc::Global;
use text_spec::NoMemory;

/// The wall or screen of a number: walls come first, and then screens.
fn blocker(scene: &Scene, number: usize) -> Wall
    requires { number < length (blockers_of_scene scene.now) }
    ensures value { result ≡ blocker_at (blockers_of_scene scene.now) number }
    ensures in_range { IsSegmentInRange result }
{
    let (walls, screens) = (scene.walls(), scene.screens());
    if number < walls.len() {
        walls[number]
    } else {
        screens[number - walls.len()]
    }
}

/// Where the ray in a direction meets the line of a wall or screen that isn't in that direction.
fn meeting_on(scene: &Scene, p: Point, heading: &Heading, number: u32) -> Hit
    requires p_in { InRange p }
    requires numbered { number < length (blockers_of_scene scene.now) }
    requires turned { let wall = blocker_at (blockers_of_scene scene.now) number in
        cross_of heading.now.step (vector wall.a wall.b) ≢ pos 0 }
    ensures value { result ≡ meeting_with scene.now p heading.now.step number }
    ensures wall_in { IsSegmentInRange (blocker_at (blockers_of_scene scene.now) number) }
{
    let wall = blocker(scene, number as usize);
    wall_parameter(p, way_to(heading), &wall)
}

/// The point at a hit.
fn point_at(p: Point, heading: &Heading, hit: &Hit) -> RPoint
    requires p_in { InRange p }
    requires positive { pos 1 ≤ℤ hit.now.den }
    ensures { result ≡ fractions.along p heading.now.step hit.now }
{
    RPoint::along(p, way_to(heading), &hit.reduced())
}

/// Where the ray in a run's first direction meets the line of its wall.
fn first_meeting(scene: &Scene, p: Point, run: &SightedRun) -> Hit
    requires p_in { InRange p }
    requires spanned { IsSpanned scene.now p (run_of run.now) }
    ensures value { result ≡ meeting_with scene.now p run.now.from.step run.now.wall }
    ensures positive { pos 1 ≤ℤ result.den }
    ensures wall_in { IsSegmentInRange (blocker_at (blockers_of_scene scene.now) run.now.wall) }
{
    meeting_on(scene, p, &run.from, run.wall)
}

/// Where the ray in its second direction does.
fn second_meeting(scene: &Scene, p: Point, run: &SightedRun) -> Hit
    requires p_in { InRange p }
    requires spanned { IsSpanned scene.now p (run_of run.now) }
    ensures value { result ≡ meeting_with scene.now p run.now.to.step run.now.wall }
    ensures positive { pos 1 ≤ℤ result.den }
{
    meeting_on(scene, p, &run.to, run.wall)
}

/// Twice the area of a run's triangle, not reduced.
pub(crate) fn area_of_run(scene: &Scene, p: Point, run: &SightedRun) -> Area
    requires p_in { InRange p }
    requires spanned { IsSpanned scene.now p (run_of run.now) }
    ensures value { result ≡ area_of_run scene.now p run.now }
    ensures wall_in { IsSegmentInRange (blocker_at (blockers_of_scene scene.now) run.now.wall) }
{
    let s = first_meeting(scene, p, run);
    let t = second_meeting(scene, p, run);
    Area::between(way_to(&run.from), way_to(&run.to), &s, &t)
}

/// The triangle of a run.
///
/// Cost: five greatest common divisors and some products.
#[tactic(auto, unfolding(sight_spec::specs::Isovist::triangle_of))]
fn triangle_of(scene: &Scene, p: Point, run: &SightedRun) -> Triangle
    requires p_in { InRange p }
    requires spanned { IsSpanned scene.now p (run_of run.now) }
    ensures { result ≡ triangle_of_run scene.now p run.now }
{
    let s = first_meeting(scene, p, run);
    let t = second_meeting(scene, p, run);
    Triangle {
        from: point_at(p, &run.from, &s),
        to: point_at(p, &run.to, &t),
        doubled_area: area_of_run(scene, p, run).reduced(),
        wall: run.wall,
    }
}

/// The triangles of runs, in their order.
pub(crate) fn triangles_of(
    alloc: Global,
    scene: &Scene,
    p: Point,
    runs: &[SightedRun],
) -> Result<Vec<Triangle>, NoMemory>
    requires p_in { InRange p }
    requires spanned { All (λ run. IsSpanned scene.now p (run_of run)) runs.now }
    ensures { IfOk result (λ triangles. triangles.items ≡ map (triangle_of_run scene.now p) runs.now) }
{
    let mut triangles = Vec::new(alloc);
    for run in runs {
        triangles.push(triangle_of(scene, p, run))?;
    }
    Ok(triangles)
}
