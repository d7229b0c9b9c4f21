//! What a look leaves out: walls and screens that near ones hide, and corners that are behind them.
//!
//! ```text
//!        x───x          A near wall is a cover. What has both ends between the directions to the cover's ends, and
//!         ╲ ╱           behind its line, is hidden by it: each direction that meets it meets the cover first. So it
//!       ───────         changes nothing that is seen, and neither do corners that a cover hides.
//!          p
//! ```
//!
//! One cover must hide both ends: two covers may leave a gap between them. Corners at which something ends that isn't
//! left out stay, since the round takes it out there or puts it in. Covers themselves stay.

ghost use Rattle.std.specs.Prelude.{◌≡◌, ◌<◌, ℕ, All, IfOk, IfSome, length, false};
ghost use Rattle.plane_spec.specs.Vectors.{InRange};
ghost use Rattle.sight_core.specs.Scenes.{IsOfSoundPlan};
ghost use Rattle.sight_spec.specs.Scene.{blockers_of_scene};
ghost use Rattle.sight_sweep.specs.Arcs.{IsArc};
ghost use Rattle.sight_sweep.specs.LeftOut as words;
ghost use Rattle.sight_sweep.specs.LeftOut.{AreLeftOut, AreLinesHidden, AreCornersHidden};
ghost use Rattle.sight_sweep.specs.LeftOut.{AreCoversKept, IsCornerHidden};

use crate::arcs::is_in_arc;
use crate::bins::no_covers;
use crate::blocker::Blocker;
use crate::covers::{are_hidden_at, cover_of_point, covers_of};
use crate::flags::{all_set, clear, is_set, set};
use crate::left_out::LeftOut;
use crate::nearest::{nearest, way_to_pair};
use crate::push::{push, with_room};
use crate::table::SceneTable;
use exact_geom::vector;
use plane_spec::Point;
use std::alloc::Global;
use text_spec::NoMemory;
use view_laws::Arc;

/// Leaves the wall or screen of the number out, if the cover hides both of its ends.
fn leave_out(
    kept: &mut [bool],
    table: &SceneTable,
    p: Point,
    covers: &[Blocker],
    at: usize,
    number: u32,
)
    requires p_in { InRange p }
    requires within { number < length (blockers_of_scene table.now) }
    ensures { AreLinesHidden table.now p covers.now kept.old → AreLinesHidden table.now p covers.now kept.new }
{
    let line = table.line(number);
    if are_hidden_at(covers, at, vector(p, line.a), vector(p, line.b)) {
        clear(kept, number as usize);
    }
}

/// Leaves both of a pair out, if they are hidden by the cover that hides where the second begins. Answers that cover, or
/// the last one that hid something.
fn leave_out_pair(
    kept: &mut [bool],
    table: &SceneTable,
    p: Point,
    arc: Arc,
    covers: &[Blocker],
    bins: &[u8],
    last: usize,
    first: u32,
    second: u32,
) -> usize
    requires p_in { InRange p }
    requires arc { IsArc arc }
    requires first_in { first < length (blockers_of_scene table.now) }
    requires second_in { second < length (blockers_of_scene table.now) }
    ensures { AreLinesHidden table.now p covers.now kept.old → AreLinesHidden table.now p covers.now kept.new }
{
    let Some(way) = way_to_pair(table, p, arc, second) else {
        return last;
    };
    let Some(at) = cover_of_point(covers, bins, last, way) else {
        return last;
    };
    leave_out(kept, table, p, covers, at, first);
    leave_out(kept, table, p, covers, at, second);
    at
}

/// For each wall and screen whether no cover hides it.
fn line_flags(
    alloc: Global,
    table: &SceneTable,
    p: Point,
    arc: Arc,
    covers: &[Blocker],
    bins: &[u8],
) -> Result<Vec<bool>, NoMemory>
    requires p_in { InRange p }
    requires arc { IsArc arc }
    ensures { IfOk result (λ kept. AreLinesHidden table.now p covers.now kept.items) }
{
    let count = table.count();
    let mut kept = all_set(alloc, count as usize)?;
    let mut last = 0;
    for pair in 0..count / 2 {
        let first = 2 * pair;
        last = leave_out_pair(
            &mut kept,
            table,
            p,
            arc,
            covers,
            bins,
            last,
            first,
            first + 1,
        );
    }
    Ok(kept)
}

/// Sets the flags of the covers.
fn keep_covers(kept: &mut [bool], covers: &[Blocker])
    ensures covers { AreCoversKept covers.now kept.new }
    ensures others { (n : ℕ) → words.is_set kept.new n ≡ false → words.is_set kept.old n ≡ false }
{
    for k in 0..covers.len() {
        set(kept, covers[k].number as usize);
    }
}

/// For each wall and screen whether the round has it.
fn kept_lines(
    alloc: Global,
    table: &SceneTable,
    p: Point,
    arc: Arc,
    covers: &[Blocker],
    bins: &[u8],
) -> Result<Vec<bool>, NoMemory>
    requires p_in { InRange p }
    requires arc { IsArc arc }
    ensures hidden { IfOk result (λ kept. AreLinesHidden table.now p covers.now kept.items) }
    ensures covers { IfOk result (λ kept. AreCoversKept covers.now kept.items) }
{
    let mut kept = line_flags(alloc, table, p, arc, covers, bins)?;
    keep_covers(&mut kept, covers);
    Ok(kept)
}

/// Whether one of the numbers has a flag that is set.
fn is_any_set(flags: &[bool], numbers: &[u32]) -> bool
    ensures { result ≡ false → All (λ n. words.is_set flags.now n ≡ false) numbers.now }
{
    for k in 0..numbers.len() {
        if is_set(flags, numbers[k] as usize) {
            return true;
        }
    }
    false
}

/// A cover that hides the corner, if nothing that is kept ends there.
fn cover_of_corner(
    table: &SceneTable,
    p: Point,
    arc: Arc,
    covers: &[Blocker],
    bins: &[u8],
    kept: &[bool],
    last: usize,
    corner: usize,
) -> Option<usize>
    requires p_in { InRange p }
    requires arc { IsArc arc }
    requires within { corner < length table.now.corners }
    ensures { IfSome result (λ at. IsCornerHidden table.now p covers.now kept.now corner) }
{
    let way = table.way(p, corner);
    if !is_in_arc(arc, way) || is_any_set(kept, table.around(corner)) {
        return None;
    }
    cover_of_point(covers, bins, last, way)
}

/// For each corner whether the round comes by it, where it is in the arc.
fn shown_corners(
    alloc: Global,
    table: &SceneTable,
    p: Point,
    arc: Arc,
    covers: &[Blocker],
    bins: &[u8],
    kept: &[bool],
) -> Result<Vec<bool>, NoMemory>
    requires p_in { InRange p }
    requires arc { IsArc arc }
    ensures { IfOk result (λ shown. AreCornersHidden table.now p covers.now kept.now shown.items) }
{
    let count = table.corners().len();
    let mut shown = with_room(alloc, count)?;
    let mut last = 0;
    for corner in 0..count {
        match cover_of_corner(table, p, arc, covers, bins, kept, last, corner) {
            None => push(&mut shown, true)?,
            Some(at) => {
                push(&mut shown, false)?;
                last = at;
            }
        }
    }
    Ok(shown)
}

/// What isn't left out of a look.
///
/// Cost: a pass over the walls and screens for those that are nearest, and one over these and the corners with a few
/// products for each.
pub(crate) fn what_to_look_at(
    alloc: Global,
    table: &SceneTable,
    p: Point,
    arc: Arc,
) -> Result<LeftOut, NoMemory>
    requires p_in { InRange p }
    requires arc { IsArc arc }
    ensures left { IfOk result (λ left. AreLeftOut table.now p arc (words.is_set left.kept.items)
        (words.is_set left.shown.items)) }
    ensures of_plan { IsOfSoundPlan table.now }
{
    let _count = table.count();
    let near = nearest(alloc, table, p, arc)?;
    let mut bins = no_covers(alloc)?;
    let covers = covers_of(alloc, &mut bins, table, p, &near)?;
    let kept = kept_lines(alloc, table, p, arc, &covers, &bins)?;
    let shown = shown_corners(alloc, table, p, arc, &covers, &bins, &kept)?;
    Ok(LeftOut { kept, shown })
}
