//! The rows of a fill, each worked by the seat that holds it.

ghost use Rattle.std.specs.Prelude.{◌≡◌, ◌<◌, ℕ, false, IfErr, IfOk, None, Some, if◌then◌else◌, ◌&&◌, ◌⊎◌};
ghost use Rattle.plan_spec.specs.Edits.{IsEditBetween};
ghost use Rattle.plan_spec.specs.Grid.{grid_points};
ghost use Rattle.sight_spec.specs.Dirty as dirty;
ghost use Rattle.sight_spec.specs.Scene.{scene_of};
ghost use Rattle.sight_spec.specs.Visibility.{visibility_graph};
ghost use Rattle.sight_sweep.specs.Steps.{one_more};
ghost use Rattle.vga_grid.specs.Openness.{is_number_open};
ghost use Rattle.vga_grid.specs.Rows.{graph_of};
ghost use Rattle.vga_fill.specs.DirtyNumbers.{AreDirtyBelow, AreSeen};
ghost use Rattle.vga_fill.specs.DoneRows.{IsDone};
ghost use Rattle.vga_fill.specs.Graphs.{is_to_join, was_joined};
ghost use Rattle.vga_fill.specs.Seats.{IsSeatOf, count_of, held_by, task_of, view_of};
ghost use Rattle.vga_fill.specs.Sights.{AreBoxesOf, IsJobOf, IsLook};
ghost use Rattle.vga_fill.specs.Views.{GoesOn};

use crate::fill::Fill;
use crate::job::Job;
use crate::looks::{is_edge, look_at, look_from, seen_at, sights_of};
use crate::runs::dirty_numbers;
use crate::seat::FillSeat;
use crate::sights::Sights;
use plan_check::Plan;
use plan_spec::Changed;
use sight_core::Scene;
use sight_sweep::Steps;
use std::alloc::Global;
use text_spec::NoMemory;

/// Writes the edges of the row. The old graph has none.
fn write_edges(fill: &Fill, seat: &mut FillSeat, row: u32, plan: &Plan, seen: &[bool])
    requires of { IsSeatOf fill.now seat.old }
    requires held { held_by seat.old ≡ Some row }
    requires within { row < count_of fill.now }
    requires plan { plan.now ≡ (task_of fill.now).after.value }
    requires empty { (i j : ℕ) → was_joined (task_of fill.now) i j ≡ false }
    requires look { IsLook plan.now row seen.now }
    ensures of { IsSeatOf fill.now seat.new }
    ensures held { held_by seat.new ≡ Some row }
    ensures more { GoesOn (view_of seat.old) (view_of seat.new) }
    ensures done { IsDone (was_joined (task_of fill.now)) (is_to_join (task_of fill.now)) (count_of fill.now)
        (view_of seat.new) row }
{
    for j in row + 1..fill.count {
        if is_edge(plan, row, seen, j) {
            fill.write_pair(seat, row, j, true);
        }
    }
}

/// Writes the row's dirty pairs, as edges or not. The numbers are those of all of them, and a look answered of each.
fn write_dirty(
    fill: &Fill,
    seat: &mut FillSeat,
    row: u32,
    plan: &Plan,
    boxes: Changed,
    numbers: &[u32],
    seen: &[bool],
)
    requires of { IsSeatOf fill.now seat.old }
    requires held { held_by seat.old ≡ Some row }
    requires within { row < count_of fill.now }
    requires plan { plan.now ≡ (task_of fill.now).after.value }
    requires boxes { AreBoxesOf (task_of fill.now) boxes }
    requires numbers { AreDirtyBelow plan.now boxes row (count_of fill.now) numbers.now }
    requires look { AreSeen plan.now row numbers.now seen.now }
    ensures of { IsSeatOf fill.now seat.new }
    ensures held { held_by seat.new ≡ Some row }
    ensures more { GoesOn (view_of seat.old) (view_of seat.new) }
    ensures done { IsDone (was_joined (task_of fill.now)) (is_to_join (task_of fill.now)) (count_of fill.now)
        (view_of seat.new) row }
{
    let _ = plan;
    let _ = boxes;
    for k in 0..numbers.len() {
        let joined = seen_at(seen, k);
        fill.write_pair(seat, row, numbers[k], joined);
    }
}

/// Looks from the point of the row, writes its edges, and ends the holding of the row. The old graph has no edges.
fn fill_whole_row(
    alloc: Global,
    fill: &Fill,
    seat: &mut FillSeat,
    row: u32,
    plan: &Plan,
    sights: &Sights,
    steps: &mut Steps,
) -> Result<(), NoMemory>
    requires of { IsSeatOf fill.now seat.old }
    requires held { held_by seat.old ≡ Some row }
    requires within { row < count_of fill.now }
    requires plan { plan.now ≡ (task_of fill.now).after.value }
    requires same { plan.now ≡ sights.now.plan.value }
    requires empty { (i j : ℕ) → was_joined (task_of fill.now) i j ≡ false }
    ensures of { IsSeatOf fill.now seat.new }
    ensures row { IfOk result (λ u. held_by seat.new ≡ None) }
    ensures more { GoesOn (view_of seat.old) (view_of seat.new) }
{
    let seen = look_from(alloc, plan, sights, row, steps)?;
    write_edges(fill, seat, row, plan, &seen);
    fill.finish(seat);
    Ok(())
}

/// Looks from the point of the row at those that make a dirty pair with it, writes these pairs, and ends the holding of
/// the row. A row without a dirty pair is left as it was.
fn mend_row(
    alloc: Global,
    fill: &Fill,
    seat: &mut FillSeat,
    row: u32,
    plan: &Plan,
    sights: &Sights,
    boxes: Changed,
    steps: &mut Steps,
) -> Result<(), NoMemory>
    requires of { IsSeatOf fill.now seat.old }
    requires held { held_by seat.old ≡ Some row }
    requires within { row < count_of fill.now }
    requires plan { plan.now ≡ (task_of fill.now).after.value }
    requires same { plan.now ≡ sights.now.plan.value }
    requires boxes { AreBoxesOf (task_of fill.now) boxes }
    ensures of { IsSeatOf fill.now seat.new }
    ensures row { IfOk result (λ u. held_by seat.new ≡ None) }
    ensures still_held { IfErr result (λ e. held_by seat.new ≡ Some row) }
    ensures more { GoesOn (view_of seat.old) (view_of seat.new) }
    ensures counted { IfOk result (λ u. steps.new
        ≡ if dirty.is_dirty_row boxes (grid_points plan.now.grid) row && is_number_open plan.now row
        then one_more steps.old else steps.old) }
    ensures at_most { (steps.new ≡ steps.old) ⊎ (steps.new ≡ one_more steps.old) }
    ensures none { dirty.is_dirty_row boxes (grid_points plan.now.grid) row ≡ false → steps.new ≡ steps.old }
{
    let numbers = dirty_numbers(alloc, sights, boxes, row, fill.count)?;
    if numbers.is_empty() {
        fill.finish(seat);
        return Ok(());
    }
    let seen = look_at(alloc, plan, sights, row, &numbers, steps)?;
    write_dirty(fill, seat, row, plan, boxes, &numbers, &seen);
    fill.finish(seat);
    Ok(())
}

/// Finishes a row that the seat holds.
pub(crate) fn work_row(
    alloc: Global,
    fill: &Fill,
    seat: &mut FillSeat,
    row: u32,
    plan: &Plan,
    sights: &Sights,
    job: Job,
    steps: &mut Steps,
) -> Result<(), NoMemory>
    requires of { IsSeatOf fill.now seat.old }
    requires held { held_by seat.old ≡ Some row }
    requires within { row < count_of fill.now }
    requires plan { plan.now ≡ (task_of fill.now).after.value }
    requires same { plan.now ≡ sights.now.plan.value }
    requires job { IsJobOf (task_of fill.now) job }
    ensures of { IsSeatOf fill.now seat.new }
    ensures row { IfOk result (λ u. held_by seat.new ≡ None) }
    ensures more { GoesOn (view_of seat.old) (view_of seat.new) }
{
    match job {
        Job::All => fill_whole_row(alloc, fill, seat, row, plan, sights, steps),
        Job::Dirty(boxes) => mend_row(alloc, fill, seat, row, plan, sights, boxes, steps),
    }
}

/// Finishes a row that the seat holds, after the edit that makes `after` of `before` and has these boxes: asks the
/// pairs of the row's point with later ones whose segments meet a box, and writes them. The fill turns the graph of
/// `before` into that of `after`, and the scene is that of `after`.
///
/// Counts one sweep where such a pair is there and the row's point is open, and else none. Without memory the row is
/// still held, what was written is new, and at most one sweep was counted.
///
/// Cost: that of making the plan ready, of the tests of pairs with the boxes, and, where one is dirty, of a look between
/// the outermost directions to the points of dirty pairs. `refill` makes the plan ready once for all rows.
pub fn fill_row(
    alloc: Global,
    fill: &Fill,
    seat: &mut FillSeat,
    row: u32,
    before: &Plan,
    after: &Plan,
    scene: &Scene,
    boxes: Changed,
    steps: &mut Steps,
) -> Result<(), NoMemory>
    requires of { IsSeatOf fill.now seat.old }
    requires held { held_by seat.old ≡ Some row }
    requires within { row < count_of fill.now }
    requires old_graph { graph_of (task_of fill.now).old.value ≡ visibility_graph before.now }
    requires after_plan { (task_of fill.now).after.value ≡ after.now }
    requires edited { IsEditBetween before.now after.now boxes }
    requires scene { scene.now ≡ scene_of after.now }
    ensures of { IsSeatOf fill.now seat.new }
    ensures row { IfOk result (λ u. held_by seat.new ≡ None) }
    ensures still_held { IfErr result (λ e. held_by seat.new ≡ Some row) }
    ensures more { GoesOn (view_of seat.old) (view_of seat.new) }
    ensures counted { IfOk result (λ u. steps.new
        ≡ if dirty.is_dirty_row boxes (grid_points after.now.grid) row && is_number_open after.now row
        then one_more steps.old else steps.old) }
    ensures at_most { (steps.new ≡ steps.old) ⊎ (steps.new ≡ one_more steps.old) }
    ensures none { dirty.is_dirty_row boxes (grid_points after.now.grid) row ≡ false → steps.new ≡ steps.old }
{
    let _ = before;
    let sights = sights_of(alloc, after, scene)?;
    mend_row(alloc, fill, seat, row, after, &sights, boxes, steps)
}
