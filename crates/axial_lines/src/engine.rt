//! The lines between numbered points.

ghost use Rattle.std.specs.Prelude.{Err, IfOk, IfSome, OnOk, ◌≡◌, ◌≤◌, ◌<◌, ◌+◌, ◌∷◌, [], drop, length, map};
ghost use Rattle.plane_spec.specs.Vectors.{InRange};
ghost use Rattle.plane_spec.specs.Lists.{distinct_by, pairs, with_each};
ghost use Rattle.plan_spec.specs.Ranges.{IsBoxInRange};
ghost use Rattle.plan_spec.specs.declared.limits.TheConstants.{MAX_AXIAL_LINES};
ghost use Rattle.sight_spec.specs.Axial as axial;
ghost use Rattle.exact_geom.specs.Parts.{HasRPointParts};
ghost use Rattle.axial_lines.specs.declared.fault.LinesFault.TheVariants.{TooManyLines};
ghost use Rattle.axial_lines.specs.Found as found;
ghost use Rattle.axial_lines.specs.Found.{lines_added, lines_with};
ghost use Rattle.axial_lines.specs.Looks.{end_at};

use crate::fault::LinesFault;
use crate::line::AxialLine;
use crate::line_set::LineSet;
use crate::outlooks::Outlooks;
use crate::pair::seen_line;
use exact_geom::extent_meets_box;
use plane_spec::{PlanBox, Point};
use sight_core::Scene;
use std::alloc::Global;

/// Whether the line through two corners meets the box, where there is one.
fn is_wanted(area: Option<PlanBox>, p: Point, q: Point, line: &AxialLine) -> bool
    requires area_in { IfSome area IsBoxInRange }
    requires p_in { InRange p }
    requires q_in { InRange q }
    requires from_in { HasRPointParts line.now.from }
    requires to_in { HasRPointParts line.now.to }
    ensures { result ≡ found.is_wanted_extent area p q line.now.from line.now.to }
{
    match area {
        None => true,
        Some(area) => extent_meets_box(p, q, &line.from, &line.to, area),
    }
}

/// Adds the line of the points at two places, where they see each other, the line is wanted, and none of the others has
/// its ends.
fn add_pair(
    lines: &mut LineSet,
    scene: &Scene,
    outlooks: &Outlooks,
    area: Option<PlanBox>,
    i: usize,
    j: usize,
) -> Result<(), LinesFault>
    requires of_scene { outlooks.now.scene ≡ scene.now }
    requires area_in { IfSome area IsBoxInRange }
    requires i_in { i < length outlooks.now.ends }
    requires j_in { j < length outlooks.now.ends }
    ensures added { OnOk result (lines.new
        ≡ lines_added scene.now area lines.old ((end_at outlooks.now.ends i, end_at outlooks.now.ends j) ∷ [])) }
    ensures too_many { result ≡ Err TooManyLines → MAX_AXIAL_LINES < length
        (lines_added scene.now area lines.old ((end_at outlooks.now.ends i, end_at outlooks.now.ends j) ∷ [])) }
{
    let Some(line) = seen_line(scene, outlooks, i, j) else {
        return Ok(());
    };
    if !is_wanted(area, outlooks.end(i).1, outlooks.end(j).1, &line) {
        return Ok(());
    }
    lines.add(line)
}

/// Adds the lines of the point at a place and each of those after it.
fn add_row(
    lines: &mut LineSet,
    scene: &Scene,
    outlooks: &Outlooks,
    area: Option<PlanBox>,
    i: usize,
) -> Result<(), LinesFault>
    requires of_scene { outlooks.now.scene ≡ scene.now }
    requires area_in { IfSome area IsBoxInRange }
    requires i_in { i < length outlooks.now.ends }
    ensures added { OnOk result (lines.new ≡ lines_added scene.now area lines.old
        (map (with_each (end_at outlooks.now.ends i)) (drop (i + 1) outlooks.now.ends))) }
    ensures too_many { result ≡ Err TooManyLines → MAX_AXIAL_LINES < length (lines_added scene.now area lines.old
        (map (with_each (end_at outlooks.now.ends i)) (drop (i + 1) outlooks.now.ends))) }
{
    let count = outlooks.count();
    for k in i + 1..count {
        if let Err(fault) = add_pair(lines, scene, outlooks, area, i, k) {
            return Err(fault);
        }
    }
    Ok(())
}

/// Adds the lines of all pairs.
fn add_rows(
    lines: &mut LineSet,
    scene: &Scene,
    outlooks: &Outlooks,
    area: Option<PlanBox>,
) -> Result<(), LinesFault>
    requires of_scene { outlooks.now.scene ≡ scene.now }
    requires area_in { IfSome area IsBoxInRange }
    ensures added { OnOk result (lines.new
        ≡ lines_added scene.now area lines.old (pairs outlooks.now.ends)) }
    ensures too_many { result ≡ Err TooManyLines
        → MAX_AXIAL_LINES < length (lines_added scene.now area lines.old (pairs outlooks.now.ends)) }
{
    for k in 0..outlooks.count() {
        if let Err(fault) = add_row(lines, scene, outlooks, area, k) {
            return Err(fault);
        }
    }
    Ok(())
}

/// The lines of the pairs that see each other and whose line meets the box, where there is one, each where none before
/// it has its ends.
///
/// Cost: for each pair sight; for those in sight two stops, and a look-up by a hash of the line's ends.
#[tactic(auto, using(crate::proofs::Distinct::added_are_distinct))]
pub(crate) fn lines_between(
    alloc: Global,
    scene: &Scene,
    outlooks: &Outlooks,
    area: Option<PlanBox>,
) -> Result<Vec<AxialLine>, LinesFault>
    requires of_scene { outlooks.now.scene ≡ scene.now }
    requires area_in { IfSome area IsBoxInRange }
    ensures lines { IfOk result (λ lines. lines.items
        ≡ distinct_by axial.same_ends (lines_with scene.now area (pairs outlooks.now.ends))) }
    ensures at_most { IfOk result (λ lines. length lines.items ≤ MAX_AXIAL_LINES) }
    ensures too_many { result ≡ Err TooManyLines → MAX_AXIAL_LINES
        < length (distinct_by axial.same_ends (lines_with scene.now area (pairs outlooks.now.ends))) }
{
    let mut lines = LineSet::empty(alloc);
    if let Err(fault) = add_rows(&mut lines, scene, outlooks, area) {
        return Err(fault);
    }
    match lines.to_list(alloc) {
        Ok(list) => Ok(list),
        Err(_) => Err(LinesFault::NoMemory),
    }
}
