//! The walls, screens and corners of an accepted plan.

ghost use Rattle.std.specs.Prelude.{All, IfOk, IsTrue, OnOk, length, ◌≡◌, ◌≤◌, ◌++◌};
ghost use Rattle.std.specs.List.{flat_map};
ghost use Rattle.plane_spec.specs.Vectors.{InRange};
ghost use Rattle.plan_spec.specs.Accepted.{is_sound};
ghost use Rattle.plan_spec.specs.declared.limits.TheConstants.{MAX_CORNERS, MAX_SCREENS};
ghost use Rattle.sight_spec.specs.Scene as scenes;
ghost use Rattle.plane_spec.specs.Segments.{IsSegmentInRange};
ghost use Rattle.plane_spec.specs.Cones.{IsCornerInRange};
ghost use Rattle.sight_core.specs.Scenes.{IsOfSoundPlan};

use crate::orientation::{append, append_corners, append_walls};
use plan_check::Plan;
use plane_spec::{Corner, Orientation, Point, Segment as Wall};
use std::alloc::Global;
use std::marker::Model;
use text_spec::NoMemory;

/// The walls, screens and corners of an accepted plan, in order: the outer polygon's, then those of the obstacles, then
/// those of the screens, each in plan order. What is blocked lies left of each wall. Contracts see the three lists.
#[derive(Drop)]
pub struct Scene {
    walls: Vec<Wall>,
    screens: Vec<Wall>,
    corners: Vec<Corner>,
}

impl Model for Scene {
    ghost use Rattle.sight_spec.specs.Scene.{Scene as SceneParts};
    ghost use Rattle.sight_core.specs.Scenes.{IsOfSoundPlan};

    ghost Value = { SceneParts };

    ghost view = { λ a. record { walls = a.walls.items; screens = a.screens.items; corners = a.corners.items } };

    ghost invariant = { λ a. IsOfSoundPlan (record { walls = a.walls.items; screens = a.screens.items; corners = a.corners.items }) };
}

impl Scene {
    /// The walls, directed so that what is blocked lies on their left: at most `MAX_CORNERS`.
    pub fn walls(&self) -> &[Wall]
        ensures walls { result.now ≡ self.now.walls }
        ensures in_range { All IsSegmentInRange result.now }
        ensures at_most { length result.now ≤ MAX_CORNERS }
        ensures of_plan { IsOfSoundPlan self.now }
    {
        &self.walls
    }

    /// The screens, each from its first end to its second: at most `MAX_SCREENS`.
    pub fn screens(&self) -> &[Wall]
        ensures screens { result.now ≡ self.now.screens }
        ensures in_range { All IsSegmentInRange result.now }
        ensures at_most { length result.now ≤ MAX_SCREENS }
        ensures of_plan { IsOfSoundPlan self.now }
    {
        &self.screens
    }

    /// The corners between the walls, and then the ends of the screens: at most `MAX_CORNERS`.
    pub fn corners(&self) -> &[Corner]
        ensures corners { result.now ≡ self.now.corners }
        ensures in_range { All IsCornerInRange result.now }
        ensures at_most { length result.now ≤ MAX_CORNERS }
        ensures of_plan { IsOfSoundPlan self.now }
    {
        &self.corners
    }
}

/// The points of the outer polygon.
fn outer_of(plan: &Plan) -> &[Point]
    ensures points { result.now ≡ plan.now.outer }
    ensures in_range { All InRange result.now }
    ensures sound { IsTrue (is_sound plan.now) }
{
    plan.outer()
}

/// The walls of the outer polygon and then of the obstacles.
fn walls_of(alloc: Global, plan: &Plan) -> Result<Vec<Wall>, NoMemory>
    ensures walls { IfOk result (λ walls. walls.items ≡ scenes.walls_of plan.now) }
    ensures sound { IsTrue (is_sound plan.now) }
{
    let mut walls = Vec::new(alloc);
    append_walls(&mut walls, Orientation::Clockwise, outer_of(plan))?;
    for k in 0..plan.obstacles() {
        append_walls(&mut walls, Orientation::Counterclockwise, plan.obstacle(k))?;
    }
    Ok(walls)
}

/// The screens, each from its first end to its second.
fn screens_of(alloc: Global, plan: &Plan) -> Result<Vec<Wall>, NoMemory>
    ensures { IfOk result (λ screens. screens.items ≡ scenes.screens_of plan.now) }
{
    let mut screens = Vec::new(alloc);
    for k in 0..plan.screens() {
        let screen = plan.screen(k);
        append(
            &mut screens,
            Wall {
                a: screen.from,
                b: screen.to,
            },
        )?;
    }
    Ok(screens)
}

/// Appends the corners of the obstacles. Without memory some are appended.
fn append_obstacles(corners: &mut Vec<Corner>, plan: &Plan) -> Result<(), NoMemory>
    ensures { OnOk result (corners.new.items ≡ corners.old.items ++ flat_map scenes.corners_of_obstacle plan.now.obstacles) }
{
    for k in 0..plan.obstacles() {
        append_corners(corners, Orientation::Counterclockwise, plan.obstacle(k))?;
    }
    Ok(())
}

/// The end of a screen as a corner that has no direction in its cone.
fn screen_corner(v: Point) -> Corner
    ensures { result ≡ scenes.screen_corner v }
{
    Corner {
        prev: v,
        here: v,
        next: v,
    }
}

/// Appends the ends of the screens. Without memory some are appended.
fn append_ends(corners: &mut Vec<Corner>, plan: &Plan) -> Result<(), NoMemory>
    ensures { OnOk result (corners.new.items ≡ corners.old.items ++ flat_map scenes.ends_of_screen plan.now.screens) }
{
    for k in 0..plan.screens() {
        let screen = plan.screen(k);
        append(corners, screen_corner(screen.from))?;
        append(corners, screen_corner(screen.to))?;
    }
    Ok(())
}

/// The corners of the outer polygon, then of the obstacles, and then the ends of the screens.
fn corners_of(alloc: Global, plan: &Plan) -> Result<Vec<Corner>, NoMemory>
    ensures { IfOk result (λ corners. corners.items ≡ scenes.corners_of plan.now) }
{
    let mut corners = Vec::new(alloc);
    append_corners(&mut corners, Orientation::Clockwise, outer_of(plan))?;
    append_obstacles(&mut corners, plan)?;
    append_ends(&mut corners, plan)?;
    Ok(corners)
}

/// What is seen in a plan: its walls, screens and corners.
///
/// Cost: one pass over the corners of the plan, and memory for them.
pub fn scene_of(alloc: Global, plan: &Plan) -> Result<Scene, NoMemory>
    ensures { IfOk result (λ scene. scene ≡ scenes.scene_of plan.now) }
{
    let walls = walls_of(alloc, plan)?;
    let screens = screens_of(alloc, plan)?;
    let corners = corners_of(alloc, plan)?;
    Ok(Scene {
        walls,
        screens,
        corners,
    })
}

fn is_shared<T: Send + Sync>() {}

/// A scene may be moved to another thread and shared between threads.
pub fn types_are_shared() {
    is_shared::<Scene>();
}
