//! The dirty pairs of a row, and runs of grid points that an edit's boxes are far from.

ghost use Rattle.std.specs.Prelude.{◌≡◌, ◌<◌, ◌≤◌, ℕ, false, IfOk, int_le, int_lt, length, true};
ghost use Rattle.plan_spec.specs.Grid.{grid_points};
ghost use Rattle.plan_spec.specs.Ranges.{AreBoxesInRange};
ghost use Rattle.vga_fill.specs.Runs as runs;
ghost use Rattle.vga_fill.specs.Runs.{Rises};
ghost use Rattle.vga_fill.specs.DirtyNumbers.{AreDirtyBelow};
ghost use Rattle.vga_fill.specs.Sights.{is_dirty};

use crate::dirty::{is_dirty_at, place};
use crate::sights::Sights;
use plan_spec::Changed;
use plane_spec::{PlanBox, Point};
use std::alloc::Global;
use text_spec::NoMemory;
use vga_looks::later_points_are_above;

/// How many points of a run are asked one by one.
const SHORT: u32 = 16;

/// Whether `a` is below `b`.
fn is_less(a: i64, b: i64) -> bool
    ensures { result ≡ int_lt a b }
{
    a < b
}

/// Whether `m` and all numbers from `first` to `last` lie on one side of those from `low` to `high`.
fn is_outside(m: i64, first: i64, last: i64, low: i64, high: i64) -> bool
    ensures { result ≡ runs.is_outside m first last low high }
{
    (is_less(m, low) && is_less(last, low)) || (is_less(high, m) && is_less(high, first))
}

/// Whether `p` and all points up to `last`, none below it, lie below or above the box.
fn is_beside_along(p: Point, last: Point, area: PlanBox) -> bool
    ensures { result ≡ runs.is_beside_along p last area }
{
    is_less(area.high.y, p.y) || is_less(last.y, area.low.y)
}

/// Whether `last` isn't above `first`.
fn is_level(first: Point, last: Point) -> bool
    ensures { result ≡ int_le last.y first.y }
{
    last.y <= first.y
}

/// Whether `p` and all points of a line from `first` to `last` lie left or right of the box.
fn is_beside_across(p: Point, first: Point, last: Point, area: PlanBox) -> bool
    ensures { result ≡ runs.is_outside p.x first.x last.x area.low.x area.high.x }
{
    is_outside(p.x, first.x, last.x, area.low.x, area.high.x)
}

/// Whether `p` and all points from `first` to `last`, none below it, lie on one side of the box.
fn is_beside(p: Point, first: Point, last: Point, area: PlanBox) -> bool
    ensures { result ≡ runs.is_beside p first last area }
{
    is_beside_along(p, last, area)
        || (is_level(first, last) && is_beside_across(p, first, last, area))
}

/// The same, where there is a box.
fn is_beside_if_there(p: Point, first: Point, last: Point, area: Option<PlanBox>) -> bool
    ensures { result ≡ runs.is_beside_if_there p first last area }
{
    match area {
        Some(area) => is_beside(p, first, last, area),
        None => true,
    }
}

/// The same of both boxes.
fn is_beside_both(boxes: Changed, p: Point, first: Point, last: Point) -> bool
    ensures { result ≡ runs.is_beside_both boxes p first last }
{
    is_beside_if_there(p, first, last, boxes.first)
        && is_beside_if_there(p, first, last, boxes.second)
}

/// Whether the boxes are seen to miss the segments from the row's point to those from number `from` to `last`, by where
/// the first and the last of these stand.
fn misses_run(sights: &Sights, boxes: Changed, row: u32, from: u32, last: u32) -> bool
    requires rises { Rises sights.now.plan.value.grid }
    requires later { row < from }
    requires order { from ≤ last }
    requires within { last < length (grid_points sights.now.plan.value.grid) }
    ensures { result ≡ true → (j : ℕ) → from ≤ j → j ≤ last → is_dirty sights.now.plan.value boxes row j ≡ false }
{
    is_beside_both(
        boxes,
        place(sights, row),
        place(sights, from),
        place(sights, last),
    )
}

/// Adds to the row's dirty numbers below `from` those from there up to `to`, not with it. They are asked one by one.
fn add_dirty_one_by_one(
    sights: &Sights,
    boxes: Changed,
    row: u32,
    from: u32,
    to: u32,
    numbers: &mut Vec<u32>,
) -> Result<(), NoMemory>
    requires boxes_in { AreBoxesInRange boxes }
    requires later { row < from }
    requires order { from ≤ to }
    requires within { to ≤ length (grid_points sights.now.plan.value.grid) }
    requires so_far { AreDirtyBelow sights.now.plan.value boxes row from numbers.old.items }
    ensures { IfOk result (λ u. AreDirtyBelow sights.now.plan.value boxes row to numbers.new.items) }
{
    for j in from..to {
        if is_dirty_at(sights, boxes, row, j) {
            numbers.push(j)?;
        }
    }
    Ok(())
}

/// Adds to the row's dirty numbers below `from` those from there up to `to`, not with it. Halves that the boxes miss
/// aren't gone through.
fn add_dirty(
    sights: &Sights,
    boxes: Changed,
    row: u32,
    from: u32,
    to: u32,
    numbers: &mut Vec<u32>,
) -> Result<(), NoMemory>
    requires rises { Rises sights.now.plan.value.grid }
    requires boxes_in { AreBoxesInRange boxes }
    requires later { row < from }
    requires order { from ≤ to }
    requires within { to ≤ length (grid_points sights.now.plan.value.grid) }
    requires so_far { AreDirtyBelow sights.now.plan.value boxes row from numbers.old.items }
    ensures { IfOk result (λ u. AreDirtyBelow sights.now.plan.value boxes row to numbers.new.items) }
{
    if from == to || misses_run(sights, boxes, row, from, to - 1) {
        return Ok(());
    }
    if to - from <= SHORT {
        return add_dirty_one_by_one(sights, boxes, row, from, to, numbers);
    }
    let middle = from + (to - from) / 2;
    add_dirty(sights, boxes, row, from, middle, numbers)?;
    add_dirty(sights, boxes, row, middle, to, numbers)
}

/// The numbers of all later points that make a dirty pair with that of the row.
///
/// Cost: constant where both boxes lie below the row's point; else some steps for each line of the grid, and one for
/// each point of a line that a box isn't seen to miss.
pub(crate) fn dirty_numbers(
    alloc: Global,
    sights: &Sights,
    boxes: Changed,
    row: u32,
    count: u32,
) -> Result<Vec<u32>, NoMemory>
    requires boxes_in { AreBoxesInRange boxes }
    requires count { count ≡ length (grid_points sights.now.plan.value.grid) }
    requires row_in { row < count }
    ensures { IfOk result (λ numbers. AreDirtyBelow sights.now.plan.value boxes row count numbers.items) }
{
    later_points_are_above();
    let mut numbers = Vec::new(alloc);
    add_dirty(sights, boxes, row, row + 1, count, &mut numbers)?;
    Ok(numbers)
}
