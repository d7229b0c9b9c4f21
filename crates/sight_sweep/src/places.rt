//! Directions as numbers: their places on the circle.

ghost use Rattle.std.specs.Prelude.{◌≡◌, ◌&&◌, ◌<◌, ◌≤◌, ◌+◌, pos, int_lt, int_le, unsigned_abs};
ghost use Rattle.plane_spec.specs.Vectors.{IsDirection, IsDirected, IsWithin};
ghost use Rattle.turn_laws.specs.Places as places;

use crate::products::{is_negative, is_positive};
use plane_spec::Point;

fn is_at_least_zero(z: i64) -> bool
    ensures { result ≡ int_le (pos 0) z }
{
    0 <= z
}

fn is_at_most_zero(z: i64) -> bool
    ensures { result ≡ int_le z (pos 0) }
{
    z <= 0
}

/// Whether it leads to the right, and not down.
pub(crate) fn is_first(d: Point) -> bool
    ensures { result ≡ (int_lt (pos 0) d.x && int_le (pos 0) d.y) }
{
    is_positive(d.x) && is_at_least_zero(d.y)
}

/// Whether it leads up, and not to the right.
pub(crate) fn is_second(d: Point) -> bool
    ensures { result ≡ (int_le d.x (pos 0) && int_lt (pos 0) d.y) }
{
    is_at_most_zero(d.x) && is_positive(d.y)
}

/// Whether it leads to the left, and not up.
pub(crate) fn is_third(d: Point) -> bool
    ensures { result ≡ (int_lt d.x (pos 0) && int_le d.y (pos 0)) }
{
    is_negative(d.x) && is_at_most_zero(d.y)
}

/// The size of a component.
pub(crate) fn size(z: i64) -> u64
    requires { IsWithin (pos 400000) z }
    ensures value { result ≡ unsigned_abs z }
    ensures within { result ≤ 400000 }
{
    z.unsigned_abs()
}

/// The part of a quarter turn, for a direction that leads so far along the quarter's first side and so far along its
/// second.
fn part_of(first: u64, second: u64) -> u64
    requires some { 0 < first + second }
    requires first_in { first ≤ 400000 }
    requires second_in { second ≤ 400000 }
    ensures value { result ≡ places.part_of first second }
    ensures within { result ≤ 1099511627776 }
{
    second * 1_099_511_627_776 / (first + second)
}

/// `quarters` quarter turns more.
fn turned(quarters: u64, part: u64) -> u64
    requires quarters_in { quarters ≤ 3298534883328 }
    requires part_in { part ≤ 1099511627776 }
    ensures value { result ≡ quarters + part }
    ensures within { result ≤ 4398046511104 }
{
    quarters + part
}

/// The place of a direction, counterclockwise from (1,0): the quarter turn, and the part of it. Directions have one
/// place exactly where they point the same way.
///
/// Cost: one division.
#[tactic(auto, unfolding(turn_laws::specs::Places::place_of))]
pub fn place_of(d: Point) -> u64
    requires d_in { IsDirection d }
    requires directed { IsDirected d }
    ensures value { result ≡ places.place_of d }
    ensures within { result ≤ 4398046511104 }
{
    let (x, y) = (size(d.x), size(d.y));
    if is_first(d) {
        turned(0, part_of(x, y))
    } else if is_second(d) {
        turned(1_099_511_627_776, part_of(y, x))
    } else if is_third(d) {
        turned(2_199_023_255_552, part_of(x, y))
    } else {
        turned(3_298_534_883_328, part_of(y, x))
    }
}
