//! The axial lines after an edit.

ghost use Rattle.std.specs.Prelude.{All, Err, IfOk, ◌≡◌, ◌≤◌, ◌<◌, length};
ghost use Rattle.plan_spec.specs.Ranges.{IsBoxInRange};
ghost use Rattle.plan_spec.specs.declared.limits.TheConstants.{MAX_AXIAL_LINES};
ghost use Rattle.sight_spec.specs.Axial.{axial_lines};
ghost use Rattle.sight_spec.specs.Dirty as dirty;
ghost use Rattle.dirty_laws.specs.Scenes.{IsEdited, removal_of};
ghost use Rattle.axial_lines.specs.Found.{IsEndInRange};
ghost use Rattle.axial_lines.specs.Looks.{HasCountedUpTo, more_by};
ghost use Rattle.axial_lines.specs.Removal.{IsKnownLine, updated};
ghost use Rattle.axial_lines.specs.declared.fault.LinesFault.TheVariants.{TooManyLines};

use crate::all::{all_lines, all_lines_without_looks};
use crate::corners::numbered_corners;
use crate::dirty::{dirty_corners, dirty_lines};
use crate::engine::lines_between;
use crate::fault::LinesFault;
use crate::gap::gap;
use crate::kept::{append_from, kept_lines, merge};
use crate::line::AxialLine;
use crate::outlooks::Outlooks;
use crate::stopped::are_stopped;
use plan_spec::{Changed, MAX_AXIAL_LINES};
use plane_spec::{PlanBox, Point};
use sight_core::Scene;
use sight_sweep::Steps;
use std::alloc::Global;
use text_spec::NoMemory;

/// The dirty corners of a removal, each with its number.
fn fresh_ends(
    alloc: Global,
    area: PlanBox,
    before: &Scene,
    after: &Scene,
    old: &[AxialLine],
) -> Result<Vec<(u32, Point)>, NoMemory>
    requires area_in { IsBoxInRange area }
    requires known { All (IsKnownLine before.now) old.now }
    ensures corners { IfOk result (λ ends. ends.items
        ≡ dirty.dirty_corners (removal_of area) before.now old.now after.now) }
    ensures in_range { IfOk result (λ ends. All IsEndInRange ends.items) }
{
    let dirty = dirty_lines(alloc, area, before, old)?;
    let ends = numbered_corners(alloc, after)?;
    let found = dirty_corners(alloc, area, before, &dirty, after, &ends)?;
    Ok(found)
}

/// The dirty corners of a removal with the views from them, by one look each.
fn fresh_views(
    alloc: Global,
    area: PlanBox,
    before: &Scene,
    after: &Scene,
    old: &[AxialLine],
    steps: &mut Steps,
) -> Result<Outlooks, NoMemory>
    requires area_in { IsBoxInRange area }
    requires known { All (IsKnownLine before.now) old.now }
    ensures scene { IfOk result (λ outlooks. outlooks.scene ≡ after.now) }
    ensures corners { IfOk result (λ outlooks. outlooks.ends
        ≡ dirty.dirty_corners (removal_of area) before.now old.now after.now) }
    ensures counted { IfOk result (λ outlooks. steps.new
        ≡ more_by (dirty.dirty_corner_count (removal_of area) before.now old.now after.now) steps.old) }
    ensures at_most { HasCountedUpTo (dirty.dirty_corner_count (removal_of area) before.now old.now after.now)
        steps.old steps.new }
{
    let ends = fresh_ends(alloc, area, before, after, old)?;
    Outlooks::by_looks(alloc, after, ends, steps)
}

/// The kept lines with their numbers closed up, merged with those between the ends whose extent meets the box.
fn kept_and_fresh(
    alloc: Global,
    area: PlanBox,
    before: &Scene,
    after: &Scene,
    old: &[AxialLine],
    gone: (u32, u32),
    outlooks: &Outlooks,
) -> Result<Vec<AxialLine>, LinesFault>
    requires area_in { IsBoxInRange area }
    requires known { All (IsKnownLine before.now) old.now }
    requires of_scene { outlooks.now.scene ≡ after.now }
    ensures lines { IfOk result (λ lines. lines.items
        ≡ updated area before.now after.now old.now gone.0 gone.1 outlooks.now.ends) }
    ensures at_most { IfOk result (λ lines. length lines.items ≤ MAX_AXIAL_LINES) }
    ensures too_many { result ≡ Err TooManyLines
        → MAX_AXIAL_LINES < length (updated area before.now after.now old.now gone.0 gone.1 outlooks.now.ends) }
{
    let fresh = match lines_between(alloc, after, outlooks, Some(area)) {
        Ok(fresh) => fresh,
        Err(fault) => return Err(fault),
    };
    let Ok(kept) = kept_lines(alloc, area, before, old, gone.0, gone.1) else {
        return Err(LinesFault::NoMemory);
    };
    let Ok(all) = merge(alloc, &kept, &fresh) else {
        return Err(LinesFault::NoMemory);
    };
    if all.len() > MAX_AXIAL_LINES {
        return Err(LinesFault::TooManyLines);
    }
    Ok(all)
}

/// The lines after a removal: the old ones whose extent misses the box, and those between dirty corners whose extent
/// meets it. Where nothing stops an end of a line between dirty corners, all lines are found anew, without a look.
fn lines_after_removal(
    alloc: Global,
    area: PlanBox,
    before: &Scene,
    after: &Scene,
    old: &[AxialLine],
    steps: &mut Steps,
) -> Result<Vec<AxialLine>, LinesFault>
    requires area_in { IsBoxInRange area }
    requires known { All (IsKnownLine before.now) old.now }
    requires old_are { old.now ≡ axial_lines before.now }
    requires edited { IsEdited before.now after.now (removal_of area) }
    ensures lines { IfOk result (λ lines. lines.items ≡ axial_lines after.now) }
    ensures at_most { IfOk result (λ lines. length lines.items ≤ MAX_AXIAL_LINES) }
    ensures too_many { result ≡ Err TooManyLines → MAX_AXIAL_LINES < length (axial_lines after.now) }
    ensures counted { IfOk result (λ lines. steps.new
        ≡ more_by (dirty.dirty_corner_count (removal_of area) before.now old.now after.now) steps.old) }
    ensures counted_at_most { HasCountedUpTo
        (dirty.dirty_corner_count (removal_of area) before.now old.now after.now) steps.old steps.new }
{
    let gone = gap(before, after);
    let Ok(outlooks) = fresh_views(alloc, area, before, after, old, steps) else {
        return Err(LinesFault::NoMemory);
    };
    if !are_stopped(after, &outlooks) {
        return all_lines_without_looks(alloc, after);
    }
    kept_and_fresh(alloc, area, before, after, old, gone, &outlooks)
}

/// The lines as they were.
fn unchanged(alloc: Global, old: &[AxialLine]) -> Result<Vec<AxialLine>, LinesFault>
    ensures lines { IfOk result (λ lines. lines.items ≡ old.now) }
    ensures at_most { IfOk result (λ lines. length lines.items ≤ MAX_AXIAL_LINES) }
    ensures too_many { result ≡ Err TooManyLines → MAX_AXIAL_LINES < length old.now }
{
    if old.len() > MAX_AXIAL_LINES {
        return Err(LinesFault::TooManyLines);
    }
    let mut lines = Vec::new(alloc);
    let Ok(()) = append_from(&mut lines, old, 0) else {
        return Err(LinesFault::NoMemory);
    };
    Ok(lines)
}

/// The axial lines after an edit, from those before it: those that [`all_lines`] finds in the scene after it. A removal
/// keeps the lines whose extent misses the box and asks the pairs of dirty corners alone; an edit without boxes, of a
/// route, keeps all. After an addition or a move every corner is dirty, and all lines are found anew.
///
/// Counts one sweep for each dirty corner: none for an edit of a route, and one for each corner after an addition or a
/// move. Without memory it may be fewer.
///
/// `before` and `after` are the scenes of a plan and of that plan after an edit that it accepts, and `boxes` those of
/// the edit, as `Plan::with` and `Plan::changed` give them.
///
/// Where there is memory, `Err(TooManyLines)` is answered exactly where there are more than [`MAX_AXIAL_LINES`].
///
/// Cost: after a removal a pass over the old lines, one over the dirty lines for each corner, a look for each dirty
/// corner, and for each pair of these twice a search in a view, and where they see each other twice two more. Where
/// nothing stops an end of a line between dirty corners, sight and stops are asked of all pairs of corners, one by one.
pub fn update_lines(
    alloc: Global,
    old: &[AxialLine],
    before: &Scene,
    after: &Scene,
    boxes: Changed,
    steps: &mut Steps,
) -> Result<Vec<AxialLine>, LinesFault>
    requires old_are { old.now ≡ axial_lines before.now }
    requires edited { IsEdited before.now after.now boxes }
    ensures lines { IfOk result (λ lines. lines.items ≡ axial_lines after.now) }
    ensures at_most { IfOk result (λ lines. length lines.items ≤ MAX_AXIAL_LINES) }
    ensures too_many { result ≡ Err TooManyLines → MAX_AXIAL_LINES < length (axial_lines after.now) }
    ensures counted { IfOk result (λ lines. steps.new
        ≡ more_by (dirty.dirty_corner_count boxes before.now old.now after.now) steps.old) }
    ensures counted_at_most { HasCountedUpTo
        (dirty.dirty_corner_count boxes before.now old.now after.now) steps.old steps.new }
{
    match boxes.second {
        Some(_) => all_lines(alloc, after, steps),
        None => match boxes.first {
            None => unchanged(alloc, old),
            Some(area) => lines_after_removal(alloc, area, before, after, old, steps),
        },
    }
}
