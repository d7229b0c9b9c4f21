//! What a view shows between two directions.

ghost use Rattle.std.specs.Prelude.{◌≡◌, ◌<◌, ◌≤◌, ◌||◌, length, int_le, pos, true};
ghost use Rattle.plane_spec.specs.Cones.{IsCornerInRange};
ghost use Rattle.plane_spec.specs.Segments.{IsSegmentInRange};
ghost use Rattle.plane_spec.specs.Vectors as vectors;
ghost use Rattle.plane_spec.specs.Vectors.{IsDirected, IsDirection, cross_of};
ghost use Rattle.sight_spec.specs.Isovist as isovists;
ghost use Rattle.sight_sweep.specs.Grounds.{IsGroundInRange};
ghost use Rattle.turn_laws.specs.Places as places;
ghost use Rattle.view_laws.specs.Views as views;
ghost use Rattle.view_laws.specs.Views.{AreInOrder, radial_by, radial_of};
ghost use Rattle.isovist_core.specs.Gaps.{pair_of};
ghost use Rattle.isovist_core.specs.Shown.{IsCountBetween, IsCountUpTo, wall_shown};

use crate::gap::Gap;
use crate::gaps::sum_of;
use exact_geom::{turns_left, vector};
use plane_spec::Point;
use sight_core::in_cone;
use sight_sweep::{Front, Ground, Sector, View, place_of};

/// Whether a gap is a half turn or more, or one direction round to itself.
pub(crate) fn is_half_turn(gap: &Gap) -> bool
    ensures { result ≡ int_le (cross_of gap.now.from.step gap.now.to.step) (pos 0) }
{
    !turns_left(gap.from.step, gap.to.step)
}

/// Whether the direction leads from what the station stands on into what is blocked.
#[tactic(auto, unfolding(view_laws::specs::Views::is_led_into))]
fn is_led_into(ground: Ground, d: Point) -> bool
    requires in_range { IsGroundInRange ground }
    requires d_in { IsDirection d }
    ensures { result ≡ views.is_led_into ground d }
{
    match ground {
        Ground::Free => false,
        Ground::Corner(corner) => in_cone(corner, d),
        Ground::Wall(wall) => turns_left(vector(wall.a, wall.b), d),
    }
}

/// Whether so many sectors have a place up to this one.
fn is_count(sectors: &[Sector], count: usize, place: u64) -> bool
    ensures { result ≡ true → IsCountUpTo sectors.now place count }
{
    count <= sectors.len()
        && (count == 0 || sectors[count - 1].place <= place)
        && (count == sectors.len() || place < sectors[count].place)
}

/// How many of the sectors have a place up to this one. Where that is `near` or one more, it is found at once.
fn count_up_to(sectors: &[Sector], near: usize, place: u64) -> usize
    requires order { AreInOrder sectors.now }
    ensures { IsCountUpTo sectors.now place result }
{
    if is_count(sectors, near, place) {
        near
    } else if near < sectors.len() && is_count(sectors, near + 1, place) {
        near + 1
    } else {
        sectors.partition_point(|sector: &Sector| sector.place <= place)
    }
}

/// The number of what is seen first.
fn number_of(front: Option<Front>) -> Option<u32>
    ensures { result ≡ views.number_by front }
{
    match front {
        None => None,
        Some(front) => Some(front.number),
    }
}

/// The number of what is seen first after a sector.
fn number_after(sector: &Sector) -> Option<u32>
    ensures { result ≡ views.number_by sector.now.after }
{
    number_of(sector.after)
}

/// What a sector shows at a place that is its own, or comes before the next sector's.
fn number_by(sector: &Sector, place: u64) -> Option<u32>
    ensures { result ≡ views.number_by (views.radial_at sector.now place).front }
{
    if place == sector.place {
        number_of(sector.on)
    } else {
        number_after(sector)
    }
}

/// The number of the wall or screen that is seen first at a place. The search begins where it stood last.
fn number_at(view: &View, near: &mut usize, place: u64) -> Option<u32>
    requires order { AreInOrder view.now.sectors.items }
    ensures { result ≡ views.number_by (radial_by view.now.before view.now.sectors.items place).front }
{
    let count = count_up_to(&view.sectors, *near, place);
    *near = count;
    if count == 0 {
        return number_of(view.before);
    }
    number_by(&view.sectors[count - 1], place)
}

/// Whether so many sectors have a place up to that where the gap begins, and the others one from that on where it ends.
/// It is so of no gap past (1,0).
fn is_count_between(view: &View, count: usize, gap: &Gap) -> bool
    ensures { result ≡ true → IsCountBetween view.now.sectors.items gap.now.from.place gap.now.to.place count }
{
    let sectors = &view.sectors;
    gap.from.place < gap.to.place
        && count <= sectors.len()
        && (count == 0 || sectors[count - 1].place <= gap.from.place)
        && (count == sectors.len() || gap.to.place <= sectors[count].place)
}

/// The number of the wall or screen that is seen first in a gap without a sector, after so many of them.
///
/// Cost: no division.
fn number_between(view: &View, count: usize, gap: &Gap) -> Option<u32>
    requires order { AreInOrder view.now.sectors.items }
    requires turned { vectors.turns_left gap.now.from.step gap.now.to.step ≡ true }
    requires between { IsCountBetween view.now.sectors.items gap.now.from.place gap.now.to.place count }
    ensures { result ≡ views.number_by (radial_of view.now
        (isovists.sum_of gap.now.from.step gap.now.to.step)).front }
{
    if count == 0 {
        return number_of(view.before);
    }
    number_after(&view.sectors[count - 1])
}

/// The number of the wall or screen that is seen first in the direction of the sum of a gap's two. No place is computed
/// where no sector is in the gap, and the search stood at it or at the sector before it.
fn number_in(view: &View, near: &mut usize, gap: &Gap, way: Point) -> Option<u32>
    requires order { AreInOrder view.now.sectors.items }
    requires turned { vectors.turns_left gap.now.from.step gap.now.to.step ≡ true }
    requires way { way ≡ isovists.sum_of gap.now.from.step gap.now.to.step }
    requires direction { IsDirection way }
    requires directed { IsDirected way }
    ensures { result ≡ views.number_by (radial_of view.now way).front }
{
    let count = *near;
    if is_count_between(view, count, gap) {
        return number_between(view, count, gap);
    }
    if count < view.sectors.len() && is_count_between(view, count + 1, gap) {
        *near = count + 1;
        return number_between(view, count + 1, gap);
    }
    number_at(view, near, place_of(way))
}

/// The wall or screen that a view shows in a gap: the first one in the direction of the sum of its two, but none in a
/// gap of a half turn or more, nor where that direction leads into what is blocked.
///
/// Cost: a few comparisons where the last gap was just before; else one division and a search in the sectors.
pub(crate) fn wall_in(view: &View, near: &mut usize, gap: &Gap) -> Option<u32>
    requires order { AreInOrder view.now.sectors.items }
    requires ground_in { IsGroundInRange view.now.ground }
    ensures { result ≡ wall_shown view.now (pair_of gap.now) }
{
    if is_half_turn(gap) {
        return None;
    }
    let way = sum_of(gap);
    if is_led_into(view.ground, way) {
        return None;
    }
    number_in(view, near, gap, way)
}
