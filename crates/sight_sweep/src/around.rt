//! Which walls and screens end at which points, as numbers that are sorted.

ghost use Rattle.std.specs.Prelude.{◌≡◌, ◌+◌, ◌*◌, ◌%◌, ◌<◌, ◌≤◌, ◌+ℤ◌, ◌++◌, ◌∷◌, [], pos, unsigned_abs, map, length};
ghost use Rattle.std.specs.Prelude.{slice_index, All, IfOk, ℕ};
ghost use Rattle.std.specs.List.Sorted.{IsNonDecreasing};
ghost use Rattle.plane_spec.specs.Cones.{IsCornerInRange};
ghost use Rattle.plane_spec.specs.Segments.{IsSegmentInRange};
ghost use Rattle.plane_spec.specs.Vectors.{InRange, IsWithin};
ghost use Rattle.sight_sweep.specs.Tables as tables;
ghost use Rattle.sight_sweep.specs.Tables.{AreEnds, AreRanges, HasEnds, IsRangeAt, end_of};

use crate::places::size;
use crate::push::push;
use crate::range::Range;
use plane_spec::{Corner, Point, Segment as Wall};
use std::alloc::Global;
use text_spec::NoMemory;

/// A coordinate moved so that none in range is negative.
fn moved(z: i64) -> i64
    requires { IsWithin (pos 100000) z }
    ensures value { result ≡ z +ℤ pos 100000 }
    ensures within { IsWithin (pos 400000) result }
{
    z + 100_000
}

/// The number of a point, another for each other point in range.
#[tactic(auto, unfolding(crate::specs::Tables::key_of))]
fn key_of(p: Point) -> u64
    requires { InRange p }
    ensures value { result ≡ tables.key_of p }
    ensures within { result ≤ 100000000000 }
{
    size(moved(p.y)) * 200_001 + size(moved(p.x))
}

/// Lists that the wall or screen of the number ends at `x`.
fn push_end(ends: &mut Vec<u64>, x: Point, number: usize) -> Result<(), NoMemory>
    requires x_in { InRange x }
    requires number_in { number < 2048 }
    ensures { IfOk result (λ u. ends.new.items ≡ ends.old.items ++ end_of x number ∷ []) }
{
    push(ends, key_of(x) * 2048 + number as u64)
}

/// Lists both ends of the wall or screen.
fn push_ends(ends: &mut Vec<u64>, line: &Wall, number: usize) -> Result<(), NoMemory>
    requires line_in { IsSegmentInRange line.now }
    requires number_in { number < 2048 }
    ensures { IfOk result (λ u. ends.new.items ≡ (ends.old.items ++ end_of line.now.a number ∷ [])
        ++ end_of line.now.b number ∷ []) }
{
    push_end(ends, line.a, number)?;
    push_end(ends, line.b, number)
}

/// The ends of all walls and screens, in their own order.
fn line_ends(alloc: Global, lines: &[Wall]) -> Result<Vec<u64>, NoMemory>
    requires lines_in { All IsSegmentInRange lines.now }
    requires few { length lines.now ≤ 2048 }
    ensures { IfOk result (λ ends. HasEnds lines.now (length lines.now) ends.items) }
{
    let mut ends = Vec::new(alloc);
    for k in 0..lines.len() {
        let line = lines[k];
        push_ends(&mut ends, &line, k)?;
    }
    Ok(ends)
}

/// The ends of all walls and screens: the number of the point, and then that of the wall or screen, in order.
pub(crate) fn ends_of(alloc: Global, lines: &[Wall]) -> Result<Vec<u64>, NoMemory>
    requires lines_in { All IsSegmentInRange lines.now }
    requires few { length lines.now ≤ 2048 }
    ensures { IfOk result (λ ends. AreEnds lines.now ends.items) }
{
    let mut ends = line_ends(alloc, lines)?;
    ends.sort_unstable();
    Ok(ends)
}

/// How many of the ends are below the bound.
fn count_below(ends: &[u64], bound: u64) -> usize
    requires sorted { IsNonDecreasing ends.now }
    ensures within { result ≤ length ends.now }
    ensures below { (k : ℕ) → k < result → slice_index ends.now k < bound }
    ensures others { (k : ℕ) → result ≤ k → k < length ends.now → bound ≤ slice_index ends.now k }
{
    ends.partition_point(|end: &u64| *end < bound)
}

/// The ends that are at the point.
fn range_at(ends: &[u64], x: Point) -> Range
    requires x_in { InRange x }
    requires sorted { IsNonDecreasing ends.now }
    ensures { IsRangeAt ends.now (tables.key_of x) result }
{
    let key = key_of(x);
    Range {
        from: count_below(ends, key * 2048),
        upto: count_below(ends, (key + 1) * 2048),
    }
}

/// For each corner the ends that are there.
pub(crate) fn ranges_of(
    alloc: Global,
    corners: &[Corner],
    ends: &[u64],
) -> Result<Vec<Range>, NoMemory>
    requires corners_in { All IsCornerInRange corners.now }
    requires sorted { IsNonDecreasing ends.now }
    ensures { IfOk result (λ ranges. AreRanges ends.now corners.now (length corners.now) ranges.items) }
{
    let mut ranges = Vec::new(alloc);
    for k in 0..corners.len() {
        let corner = corners[k];
        push(&mut ranges, range_at(ends, corner.here))?;
    }
    Ok(ranges)
}

/// The numbers of the walls and screens at the ends.
pub(crate) fn numbers_of(alloc: Global, ends: &[u64]) -> Result<Vec<u32>, NoMemory>
    ensures { IfOk result (λ numbers. numbers.items ≡ map (λ end. end % 2048) ends.now) }
{
    match ends.iter().map(|end| (*end % 2048) as u32).collect(alloc) {
        Ok(numbers) => Ok(numbers),
        Err(_refused) => Err(NoMemory),
    }
}
