//! Dirty lines and dirty corners of a removal.

ghost use Rattle.std.specs.Prelude.{All, IfOk, ◌≡◌, filter};
ghost use Rattle.std.specs.List.{list_any};
ghost use Rattle.plane_spec.specs.Vectors.{InRange};
ghost use Rattle.plan_spec.specs.Ranges.{IsBoxInRange};
ghost use Rattle.sight_spec.specs.Dirty as dirty;
ghost use Rattle.dirty_laws.specs.Scenes.{removal_of};
ghost use Rattle.axial_lines.specs.Found.{IsEndInRange};
ghost use Rattle.axial_lines.specs.Removal as lists;
ghost use Rattle.axial_lines.specs.Removal.{IsKnownLine};

use crate::corners::{append, corner_point};
use crate::line::AxialLine;
use exact_geom::{extent_meets_box, meets_box, on_extent, same_point};
use plane_spec::{PlanBox, Point};
use sight_core::Scene;
use std::alloc::Global;
use text_spec::NoMemory;

/// Whether the whole extent of a line of the scene meets the box.
#[tactic(auto, unfolding(sight_spec::specs::Dirty::is_dirty_line))]
pub(crate) fn is_dirty_line(area: PlanBox, scene: &Scene, line: &AxialLine) -> bool
    requires area_in { IsBoxInRange area }
    requires line_of { IsKnownLine scene.now line.now }
    ensures { result ≡ dirty.is_dirty_line (removal_of area) scene.now line.now }
{
    extent_meets_box(
        corner_point(scene, line.first),
        corner_point(scene, line.second),
        &line.from,
        &line.to,
        area,
    )
}

/// Whether the point lies on the extent of a line of the scene.
fn is_on_axial_line(scene: &Scene, p: Point, line: &AxialLine) -> bool
    requires p_in { InRange p }
    requires line_of { IsKnownLine scene.now line.now }
    ensures { result ≡ dirty.is_on_axial_line scene.now p line.now }
{
    on_extent(
        p,
        corner_point(scene, line.first),
        corner_point(scene, line.second),
        &line.from,
        &line.to,
    )
}

/// Whether a corner stands there.
fn was_corner(scene: &Scene, p: Point) -> bool
    ensures { result ≡ dirty.was_corner scene.now p }
{
    scene.corners().iter().any(|c| same_point(c.here, p))
}

/// Whether the segment of a pair meets the box.
#[tactic(auto, unfolding(sight_spec::specs::Dirty::is_dirty_pair))]
fn is_dirty_pair(area: PlanBox, p: Point, q: Point) -> bool
    requires area_in { IsBoxInRange area }
    requires p_in { InRange p }
    requires q_in { InRange q }
    ensures { result ≡ dirty.is_dirty_pair (removal_of area) p q }
{
    meets_box(p, q, area)
}

/// Whether the pair of the point and another corner meets the box.
fn is_dirty_to_another(area: PlanBox, scene: &Scene, p: Point) -> bool
    requires area_in { IsBoxInRange area }
    requires p_in { InRange p }
    ensures { result ≡ dirty.is_dirty_to_another (removal_of area) scene.now p }
{
    scene.corners().iter().any(|c| !same_point(c.here, p) && is_dirty_pair(area, p, c.here))
}

/// Whether the point lies on one of the lines.
fn is_on_any(scene: &Scene, p: Point, lines: &[AxialLine]) -> bool
    requires p_in { InRange p }
    requires lines_of { All (IsKnownLine scene.now) lines.now }
    ensures { result ≡ list_any (dirty.is_on_axial_line scene.now p) lines.now }
{
    lines.iter().any(|line| is_on_axial_line(scene, p, line))
}

/// The lines whose whole extent meets the box.
///
/// Cost: eight to sixteen products a line.
pub(crate) fn dirty_lines(
    alloc: Global,
    area: PlanBox,
    scene: &Scene,
    lines: &[AxialLine],
) -> Result<Vec<AxialLine>, NoMemory>
    requires area_in { IsBoxInRange area }
    requires lines_of { All (IsKnownLine scene.now) lines.now }
    ensures lines { IfOk result (λ found. found.items
        ≡ filter (dirty.is_dirty_line (removal_of area) scene.now) lines.now) }
{
    let mut found = Vec::new(alloc);
    for k in 0..lines.len() {
        if is_dirty_line(area, scene, &lines[k]) {
            append(&mut found, lines[k])?;
        }
    }
    Ok(found)
}

/// Whether the corner of the new scene is dirty; `dirty` are the dirty ones among the lines of the old scene.
fn is_dirty_corner(area: PlanBox, old: &Scene, dirty: &[AxialLine], new: &Scene, p: Point) -> bool
    requires area_in { IsBoxInRange area }
    requires p_in { InRange p }
    requires lines_of { All (IsKnownLine old.now) dirty.now }
    ensures { result ≡ lists.is_dirty_by area old.now dirty.now new.now p }
{
    !was_corner(old, p) || (is_dirty_to_another(area, new, p) || is_on_any(old, p, dirty))
}

/// The dirty corners of the new scene, each with its number.
///
/// Cost: for each corner a pass over the corners, and one over the dirty lines.
pub(crate) fn dirty_corners(
    alloc: Global,
    area: PlanBox,
    old: &Scene,
    dirty: &[AxialLine],
    new: &Scene,
    ends: &[(u32, Point)],
) -> Result<Vec<(u32, Point)>, NoMemory>
    requires area_in { IsBoxInRange area }
    requires lines_of { All (IsKnownLine old.now) dirty.now }
    requires ends_in { All IsEndInRange ends.now }
    ensures corners { IfOk result (λ found. found.items
        ≡ filter (λ c. lists.is_dirty_by area old.now dirty.now new.now c.1) ends.now) }
    ensures in_range { IfOk result (λ found. All IsEndInRange found.items) }
{
    let mut found = Vec::new(alloc);
    for k in 0..ends.len() {
        if is_dirty_corner(area, old, dirty, new, ends[k].1) {
            append(&mut found, ends[k])?;
        }
    }
    Ok(found)
}
