//! A scene with what a look finds in it.

ghost use Rattle.std.specs.Prelude.{◌≡◌, ◌++◌, ◌<◌, ◌≤◌, All, IfOk, IfSome, length};
ghost use Rattle.std.specs.Option.{option_map};
ghost use Rattle.std.proofs.Common.{get_or};
ghost use Rattle.plane_spec.specs.Cones.{IsCornerInRange};
ghost use Rattle.plane_spec.specs.Segments.{IsSegmentInRange};
ghost use Rattle.plane_spec.specs.Vectors.{InRange, IsDirection};
ghost use Rattle.plan_spec.specs.declared.limits.TheConstants.{MAX_CORNERS};
ghost use Rattle.sight_core.specs.Scenes.{IsOfSoundPlan};
ghost use Rattle.sight_spec.specs.Scene.{blockers_of_scene};
ghost use Rattle.front_laws.specs.Seen.{seen_at};
ghost use Rattle.sight_spec.specs.Isovist.{no_segment};
ghost use Rattle.sweep_laws.specs.Groups.{no_corner};
ghost use Rattle.sight_sweep.specs.Actives.{seen, IsOf};
ghost use Rattle.sight_sweep.specs.Events as parts;
ghost use Rattle.sight_sweep.specs.Tables.{AreAround};

use crate::around::{ends_of, numbers_of, ranges_of};
use crate::blocker::Blocker;
use crate::range::Range;
use crate::sides::seen_from;
use exact_geom::vector;
use plane_spec::{Corner, Point, Segment as Wall};
use sight_core::Scene;
use std::alloc::Global;
use std::marker::Model;
use text_spec::NoMemory;

/// A scene with what a look finds in it: the walls and screens in one list, and those that end at each corner.
/// Contracts see the scene.
#[derive(Drop)]
pub struct SceneTable {
    walls: Vec<Wall>,
    screens: Vec<Wall>,
    corners: Vec<Corner>,
    lines: Vec<Wall>,
    ranges: Vec<Range>,
    numbers: Vec<u32>,
}

impl Model for SceneTable {
    ghost use Rattle.sight_spec.specs.Scene.{Scene as SceneParts};
    ghost use Rattle.sight_sweep.specs.Tables.{IsTable};

    ghost Value = { SceneParts };

    ghost view = { λ a. record { walls = a.walls.items; screens = a.screens.items; corners = a.corners.items } };

    ghost invariant = { λ a. IsTable
        (record { walls = a.walls.items; screens = a.screens.items; corners = a.corners.items }) a.lines.items
        a.ranges.items a.numbers.items };
}

impl SceneTable {
    /// How many walls and screens there are.
    pub(crate) fn count(&self) -> u32
        ensures value { result ≡ length (blockers_of_scene self.now) }
        ensures of_plan { IsOfSoundPlan self.now }
    {
        self.lines.len() as u32
    }

    pub(crate) fn walls(&self) -> &[Wall]
        ensures walls { result.now ≡ self.now.walls }
        ensures in_range { All IsSegmentInRange result.now }
        ensures of_plan { IsOfSoundPlan self.now }
    {
        &self.walls
    }

    pub(crate) fn corners(&self) -> &[Corner]
        ensures corners { result.now ≡ self.now.corners }
        ensures in_range { All IsCornerInRange result.now }
        ensures at_most { length result.now ≤ MAX_CORNERS }
        ensures of_plan { IsOfSoundPlan self.now }
    {
        &self.corners
    }

    pub(crate) fn corner(&self, number: usize) -> Corner
        requires within { number < length self.now.corners }
        ensures corner { result ≡ get_or self.now.corners number no_corner }
        ensures in_range { IsCornerInRange result }
    {
        self.corners()[number]
    }

    /// The vector from `p` to the corner.
    pub(crate) fn way(&self, p: Point, number: usize) -> Point
        requires p_in { InRange p }
        requires within { number < length self.now.corners }
        ensures way { result ≡ parts.way_at p self.now.corners number }
        ensures direction { IsDirection result }
    {
        vector(p, self.corner(number).here)
    }

    /// The numbers of the walls and screens that end at the corner.
    pub(crate) fn around(&self, corner: usize) -> &[u32]
        requires within { corner < length self.now.corners }
        ensures of_plan { IsOfSoundPlan self.now }
        ensures around { AreAround self.now (get_or self.now.corners corner no_corner).here result.now }
    {
        let range = self.ranges[corner];
        &self.numbers[range.from..range.upto]
    }

    /// The wall or screen of the number.
    pub(crate) fn line(&self, number: u32) -> Wall
        requires within { number < length (blockers_of_scene self.now) }
        ensures line { result ≡ get_or (blockers_of_scene self.now) number no_segment }
        ensures in_range { IsSegmentInRange result }
    {
        self.lines[number as usize]
    }

    /// The wall or screen of the number as it is seen from `p`, or `None` where it is in line with `p`.
    pub(crate) fn seen(&self, p: Point, number: u32) -> Option<Blocker>
        requires p_in { InRange p }
        requires within { number < length (blockers_of_scene self.now) }
        ensures seen { option_map seen result ≡ seen_at p (blockers_of_scene self.now) number }
        ensures number { IfSome result (λ b. b.number ≡ number) }
        ensures known { IfSome result (IsOf self.now p) }
    {
        seen_from(
            p,
            &self.lines[number as usize],
            number,
            (number as usize) < self.walls.len(),
        )
    }
}

fn copy_walls(alloc: Global, lines: &[Wall]) -> Result<Vec<Wall>, NoMemory>
    ensures { IfOk result (λ copy. copy.items ≡ lines.now) }
{
    match lines.iter().copied().collect(alloc) {
        Ok(copy) => Ok(copy),
        Err(_refused) => Err(NoMemory),
    }
}

fn copy_corners(alloc: Global, corners: &[Corner]) -> Result<Vec<Corner>, NoMemory>
    ensures { IfOk result (λ copy. copy.items ≡ corners.now) }
{
    match corners.iter().copied().collect(alloc) {
        Ok(copy) => Ok(copy),
        Err(_refused) => Err(NoMemory),
    }
}

/// The walls and then the screens.
fn lines_of(alloc: Global, walls: &[Wall], screens: &[Wall]) -> Result<Vec<Wall>, NoMemory>
    ensures { IfOk result (λ lines. lines.items ≡ walls.now ++ screens.now) }
{
    match walls.iter().chain(screens.iter()).copied().collect(alloc) {
        Ok(lines) => Ok(lines),
        Err(_refused) => Err(NoMemory),
    }
}

/// What a look finds in the scene. Make it once for all looks.
///
/// Cost: one sort of the ends of all walls and screens, and a search in them for each corner.
pub fn table_of(alloc: Global, scene: &Scene) -> Result<SceneTable, NoMemory>
    ensures { IfOk result (λ table. table ≡ scene.now) }
{
    let walls = copy_walls(alloc, scene.walls())?;
    let screens = copy_walls(alloc, scene.screens())?;
    let corners = copy_corners(alloc, scene.corners())?;
    let lines = lines_of(alloc, &walls, &screens)?;
    let ends = ends_of(alloc, &lines)?;
    let ranges = ranges_of(alloc, &corners, &ends)?;
    let numbers = numbers_of(alloc, &ends)?;
    Ok(SceneTable {
        walls,
        screens,
        corners,
        lines,
        ranges,
        numbers,
    })
}
