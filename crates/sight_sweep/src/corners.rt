//! The corners of one direction.

ghost use Rattle.std.specs.Prelude.{◌≡◌, ◌≤◌, if◌then◌else◌};
ghost use Rattle.plane_spec.specs.Vectors.{IsDirection, reversed_direction};
ghost use Rattle.plane_spec.specs.Cones.{IsCornerInRange, is_in_cone};
ghost use Rattle.view_laws.specs.Views.{length_of};
ghost use Rattle.sight_sweep.specs.Rounds as rounds;

use crate::places::size;
use crate::products::back;
use plane_spec::{Corner, Point};
use sight_core::in_cone;

/// How far a vector leads, in the sum of both coordinates.
pub(crate) fn length(d: Point) -> u64
    requires { IsDirection d }
    ensures value { result ≡ length_of d }
    ensures within { result ≤ 800000 }
{
    size(d.x) + size(d.y)
}

/// The lesser of two lengths.
fn lesser(best: Option<u64>, far: u64) -> Option<u64>
    ensures { result ≡ rounds.lesser_of best far }
{
    match best {
        None => Some(far),
        Some(least) => Some(if far < least { far } else { least }),
    }
}

/// The lesser of the length so far and that of a corner at `v`, if `v` leads into what is blocked there.
pub(crate) fn ahead(least: Option<u64>, corner: Corner, v: Point) -> Option<u64>
    requires corner_in { IsCornerInRange corner }
    requires v_in { IsDirection v }
    ensures { result ≡ (if is_in_cone corner v then rounds.lesser_of least (length_of v) else least) }
{
    if in_cone(corner, v) {
        lesser(least, length(v))
    } else {
        least
    }
}

/// The lesser of the length so far and that of a corner at `v`, if the way back leads into what is blocked there.
pub(crate) fn behind(least: Option<u64>, corner: Corner, v: Point) -> Option<u64>
    requires corner_in { IsCornerInRange corner }
    requires v_in { IsDirection v }
    ensures { result ≡ (if is_in_cone corner (reversed_direction v) then rounds.lesser_of least (length_of v) else least) }
{
    if in_cone(corner, back(v)) {
        lesser(least, length(v))
    } else {
        least
    }
}
