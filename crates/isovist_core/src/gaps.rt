//! The gaps between directions, and where one looks into them.

ghost use Rattle.std.specs.Prelude.{◌≡◌, ◌<◌, ◌+ℤ◌, length, IfOk, map, true};
ghost use Rattle.sight_spec.specs.Isovist as isovists;
ghost use Rattle.sight_spec.specs.Isovist.{gaps_of};
ghost use Rattle.plane_spec.specs.Vectors.{IsDirected, IsDirection, IsWithin, turns_left};
ghost use Rattle.plane_spec.specs.declared.TheConstants.{MAX_COMPONENT};
ghost use Rattle.exact_geom.specs.declared.limits.TheConstants.{MAX_DIFFERENCE};
ghost use Rattle.isovist_core.specs.Headings.{step_of};
ghost use Rattle.isovist_core.specs.Gaps.{direction_at, next_of, pair_of};

use crate::gap::Gap;
use crate::heading::Heading;
use crate::room::with_room;
use plane_spec::Point;
use std::alloc::Global;
use text_spec::NoMemory;

/// The direction after the `k`-th: after the last one comes the first.
fn next_heading(headings: &[Heading], k: usize) -> Heading
    requires { k < length headings.now }
    ensures { result.step ≡ next_of (map step_of headings.now) k }
{
    if k + 1 < headings.len() {
        headings[k + 1]
    } else {
        headings[0]
    }
}

/// The gap that begins at the `k`-th direction.
fn gap_from(headings: &[Heading], k: usize) -> Gap
    requires { k < length headings.now }
    ensures { pair_of result ≡ (direction_at (map step_of headings.now) k, next_of (map step_of headings.now) k) }
{
    Gap {
        from: headings[k],
        to: next_heading(headings, k),
    }
}

/// The gaps from each direction to the next, and from the last to the first.
pub(crate) fn gaps_between(alloc: Global, headings: &[Heading]) -> Result<Vec<Gap>, NoMemory>
    ensures { IfOk result (λ gaps. map pair_of gaps.items ≡ gaps_of (map step_of headings.now)) }
{
    let mut gaps = with_room(alloc, headings.len())?;
    for k in 0..headings.len() {
        gaps.push(gap_from(headings, k))?;
    }
    Ok(gaps)
}

/// The sum of a component of two directions.
fn plus(a: i64, b: i64) -> i64
    requires a_in { IsWithin MAX_DIFFERENCE a }
    requires b_in { IsWithin MAX_DIFFERENCE b }
    ensures value { result ≡ a +ℤ b }
    ensures within { IsWithin MAX_COMPONENT result }
{
    a + b
}

/// The sum of the two directions of a gap that is less than a half turn.
pub(crate) fn sum_of(gap: &Gap) -> Point
    requires { turns_left gap.now.from.step gap.now.to.step ≡ true }
    ensures value { result ≡ isovists.sum_of gap.now.from.step gap.now.to.step }
    ensures direction { IsDirection result }
    ensures directed { IsDirected result }
{
    let (e, f) = (gap.from.step, gap.to.step);
    Point {
        x: plus(e.x, f.x),
        y: plus(e.y, f.y),
    }
}
