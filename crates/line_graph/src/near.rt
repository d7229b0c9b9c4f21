//! The lines that a line may meet.

ghost use Rattle.std.specs.Prelude.{◌≡◌, ◌<◌, ◌≤◌, ◌+◌, ◌-◌, ℕ, Bool, filter, if◌then◌else◌};
ghost use Rattle.std.specs.Prelude.{length, slice_index, take};
ghost use Rattle.std.specs.List.{range_with_len};
ghost use Rattle.plan_spec.specs.declared.limits.TheConstants.{MAX_AXIAL_LINES};
ghost use Rattle.line_graph.specs.Extents as extents;
ghost use Rattle.line_graph.specs.Rows.{AreColumns, near_below};

use crate::extents::{Columns, Extent, are_near};

/// 1 or 0, without a branch.
fn one_if(b: bool) -> u8
    ensures { result ≡ (if b then 1 else 0) }
{
    b as u8
}

/// Marks each number after `i` whose extent shares a point with the given one. Nothing branches, and each list is read
/// in order.
fn mark(
    flags: &mut [u8],
    left: &[u32],
    right: &[u32],
    below: &[u32],
    above: &[u32],
    i: usize,
    here: Extent,
)
    requires few { length flags.old ≤ MAX_AXIAL_LINES }
    requires within { i < length flags.old }
    requires left { length left.now ≡ length flags.old }
    requires right { length right.now ≡ length flags.old }
    requires below { length below.now ≡ length flags.old }
    requires above { length above.now ≡ length flags.old }
    ensures { (j : ℕ) → i < j → j < length flags.new → slice_index flags.new j
        ≡ (if extents.are_near here (record {
          left = slice_index left.now j;
          right = slice_index right.now j;
          below = slice_index below.now j;
          above = slice_index above.now j;
        }) then 1 else 0) }
{
    for j in i + 1..flags.len() {
        let there = Extent {
            left: left[j],
            right: right[j],
            below: below[j],
            above: above[j],
        };
        flags[j] = one_if(are_near(here, there));
    }
}

/// Writes the numbers after `i` that are marked to the front of `near`, in order, and answers how many they are. Each
/// number is written, and stays where it counts.
fn pick(flags: &[u8], i: usize, near: &mut [u32]) -> usize
    requires few { length flags.now ≤ MAX_AXIAL_LINES }
    requires within { i < length flags.now }
    requires sized { length near.old ≡ length flags.now }
    requires bits { (j : ℕ) → i < j → j < length flags.now → slice_index flags.now j ≤ 1 }
    ensures within { result ≤ length near.new }
    ensures near { (test : ℕ → Bool)
        → ((j : ℕ) → i < j → j < length flags.now → slice_index flags.now j ≡ (if test j then 1 else 0))
        → take result near.new ≡ filter test (range_with_len (i + 1) (length flags.now - (i + 1))) }
{
    let end = flags.len();
    let mut count = 0;
    for j in i + 1..end {
        near[count] = j as u32;
        count += flags[j] as usize;
    }
    count
}

/// Writes the numbers after `i` of the extents that share a point with that of `i` to the front of `near`, in order,
/// and answers how many they are. `flags` is room for marks.
pub(crate) fn gather(
    extents: &[Extent],
    columns: &Columns,
    i: usize,
    flags: &mut [u8],
    near: &mut [u32],
) -> usize
    requires few { length extents.now ≤ MAX_AXIAL_LINES }
    requires columns { AreColumns columns.now.left.items columns.now.right.items columns.now.below.items
        columns.now.above.items extents.now }
    requires flags { length flags.old ≡ length extents.now }
    requires sized { length near.old ≡ length extents.now }
    requires within { i < length extents.now }
    ensures within { result ≤ length near.new }
    ensures near { take result near.new ≡ near_below extents.now i (length extents.now) }
{
    mark(
        flags,
        &columns.left,
        &columns.right,
        &columns.below,
        &columns.above,
        i,
        extents[i],
    );
    pick(flags, i, near)
}
