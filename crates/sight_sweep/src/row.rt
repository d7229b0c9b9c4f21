//! Sight of many points from one station, asked one after another.

ghost use Rattle.std.specs.Prelude.{◌≡◌, ◌<◌, ◌≤◌, length, true};
ghost use Rattle.std.proofs.Common.{get_or};
ghost use Rattle.plane_spec.specs.Vectors.{InRange, IsDirection, vector};
ghost use Rattle.sight_core.specs.Scenes.{IsOfSoundPlan};
ghost use Rattle.sight_spec.specs.Sight.{are_in_sight};
ghost use Rattle.turn_laws.specs.Places.{place_of};
ghost use Rattle.view_laws.specs.declared.view.Sector.{Sector};
ghost use Rattle.view_laws.specs.Views as views;
ghost use Rattle.view_laws.specs.Views.{AreInOrder, is_in_arc, radial_by};
ghost use Rattle.sight_sweep.specs.Answers.{IsOther, IsSeenFrom};
ghost use Rattle.sight_sweep.specs.Told.{IsCount, IsGapOf, IsIn, IsTold, radial};
ghost use Rattle.sight_sweep.specs.declared.told.Told.{Told};

use crate::bearing::{Bearing, place_by, way_between};
use crate::reach::{count_up_to, is_led_into, is_seen_by, told_between, told_by};
use crate::table::SceneTable;
use plane_spec::Point;
use view_laws::{Arc, Front, Sector, View};

/// Whether the sector of the number, if there is one, has a place up to this one.
fn is_reached(sectors: &[Sector], number: usize, place: u64) -> bool
    ensures { result ≡ true → number < length sectors.now → (s : Sector)
        → (get_or sectors.now number s).place ≤ place }
{
    match sectors.get(number) {
        None => true,
        Some(sector) => sector.place <= place,
    }
}

/// Whether the sector of the number, if there is one, has a place past this one.
fn is_beyond(sectors: &[Sector], number: usize, place: u64) -> bool
    ensures { result ≡ true → number < length sectors.now → (s : Sector)
        → place < (get_or sectors.now number s).place }
{
    match sectors.get(number) {
        None => true,
        Some(sector) => place < sector.place,
    }
}

/// Whether so many of the sectors, and no more, have a place up to this one.
fn is_count(sectors: &[Sector], place: u64, count: usize) -> bool
    requires order { AreInOrder sectors.now }
    ensures { result ≡ true → IsCount sectors.now place count }
{
    if sectors.len() < count || !is_beyond(sectors, count, place) {
        return false;
    }
    if count == 0 {
        return true;
    }
    is_reached(sectors, count - 1, place)
}

/// How many of the sectors have a place up to this one. It comes sooner where it is `near`, or one less.
fn count_near(sectors: &[Sector], place: u64, near: usize) -> usize
    requires order { AreInOrder sectors.now }
    ensures { IsCount sectors.now place result }
{
    if is_count(sectors, place, near) {
        return near;
    }
    if near == 0 {
        return count_up_to(sectors, place);
    }
    if is_count(sectors, place, near - 1) {
        return near - 1;
    }
    count_up_to(sectors, place)
}

/// Whether the point at `d` is seen, where `place` is that of its direction and so many sectors have a place up to it.
///
/// Most points are in no corner's direction, and then less is asked of what is told.
fn is_seen_after(view: &View, place: u64, count: usize, begins: bool, d: Point) -> bool
    requires order { AreInOrder view.now.sectors.items }
    requires count { IsCount view.now.sectors.items place count }
    requires d_in { IsDirection d }
    requires told_in { (told : Told) → radial told ≡ radial_by view.now.before view.now.sectors.items place
        → IsTold d told }
    ensures { result ≡ views.is_seen_by begins (radial_by view.now.before view.now.sectors.items place) d }
{
    if count == 0 {
        return is_seen_by(begins, told_between(view.before), d);
    }
    let sector = &view.sectors[count - 1];
    if place == sector.place {
        return is_seen_by(begins, told_by(sector, place), d);
    }
    is_seen_by(begins, told_between(sector.after), d)
}

/// Whether a point is seen, and how many sectors the view has up to it.
#[derive(Clone, Copy, Debug)]
pub struct Sighting {
    /// Whether the point is seen.
    pub is_seen: bool,
    /// How many of the view's sectors have a direction up to that of the point.
    pub near: usize,
}

/// What a view from `p` tells of a point in its arc: whether it is seen. The answer doesn't hang on the bearing nor on
/// `near`, but comes sooner where the bearing is that of the point's direction, and `near` that of an answer for a
/// point beside it. It also gives the `near` of this point: how many sectors have a place up to that of its direction.
///
/// Cost: constant where both are so, and otherwise a division and a search in the sectors.
pub fn sight_by(
    table: &SceneTable,
    p: Point,
    arc: Arc,
    view: &View,
    q: Point,
    bearing: Option<Bearing>,
    near: usize,
) -> Sighting
    requires p_in { InRange p }
    requires of_plan { IsOfSoundPlan table.now }
    requires view { IsSeenFrom table.now p arc view.now }
    requires other { IsOther p q }
    requires in_arc { is_in_arc arc (vector p q) ≡ true }
    ensures seen { result.is_seen ≡ are_in_sight table.now p q }
    ensures near { IsCount view.now.sectors.items (place_of (vector p q)) result.near }
{
    let d = way_between(p, q);
    let place = place_by(bearing, d);
    let count = count_near(&view.sectors, place, near);
    let begins = is_led_into(view.ground, d);
    Sighting {
        is_seen: is_seen_after(view, place, count, begins, d),
        near: count,
    }
}

/// Directions between two neighbouring sectors of a view, before the first or after the last: one wall, or none, is seen
/// first in all of them.
#[derive(Clone, Copy, Debug)]
pub struct Gap {
    /// The first place that may be one of a direction of the gap.
    pub from: u64,
    /// The first place after all of these.
    pub upto: u64,
    /// What is seen first in each of the directions.
    pub front: Option<Front>,
    /// How many sectors come before the gap.
    pub past: usize,
}

/// The place of the sector of the number, or one past all where there is no such sector.
fn place_of_sector(sectors: &[Sector], number: usize) -> u64
    ensures { number < length sectors.now → (s : Sector) → result ≡ (get_or sectors.now number s).place }
{
    match sectors.get(number) {
        None => u64::MAX,
        Some(sector) => sector.place,
    }
}

/// The gap after so many sectors.
fn gap_after(view: &View, count: usize) -> Gap
    requires order { AreInOrder view.now.sectors.items }
    requires within { count ≤ length view.now.sectors.items }
    ensures { IsGapOf view.now result }
{
    let upto = place_of_sector(&view.sectors, count);
    if count == 0 {
        return Gap {
            from: 0,
            upto,
            front: view.before,
            past: 0,
        };
    }
    let sector = &view.sectors[count - 1];
    Gap {
        from: sector.place.saturating_add(1),
        upto,
        front: sector.after,
        past: count,
    }
}

/// The gap before the first sector of a view.
pub fn first_gap(view: &View) -> Gap
    requires order { AreInOrder view.now.sectors.items }
    ensures { IsGapOf view.now result }
{
    gap_after(view, 0)
}

/// Whether the place is that of a direction of the gap.
fn is_in(gap: &Gap, place: u64) -> bool
    ensures { result ≡ true → IsIn gap.now place }
{
    gap.from <= place && place < gap.upto
}

/// Whether the point at `d` is seen, where the gap is one of directions with that of `d`.
fn is_seen_in(view: &View, place: u64, gap: &Gap, begins: bool, d: Point) -> bool
    requires gap { IsGapOf view.now gap.now }
    requires inside { IsIn gap.now place }
    requires d_in { IsDirection d }
    requires told_in { (told : Told) → radial told ≡ radial_by view.now.before view.now.sectors.items place
        → IsTold d told }
    ensures { result ≡ views.is_seen_by begins (radial_by view.now.before view.now.sectors.items place) d }
{
    let _ = view;
    let _ = place;
    is_seen_by(begins, told_between(gap.front), d)
}

/// What a view from `p` tells of a point in its arc: whether it is seen. The answer doesn't hang on the bearing nor on
/// the gap, but comes sooner where the bearing is that of the point's direction, and the gap the one that was left by
/// the answer for a point beside it. The gap that it leaves is that of the point, if a sector doesn't have its
/// direction.
///
/// Cost: constant where both are so, and otherwise a division and a search in the sectors.
pub fn sight_near(
    table: &SceneTable,
    p: Point,
    arc: Arc,
    view: &View,
    q: Point,
    bearing: Option<Bearing>,
    gap: &mut Gap,
) -> bool
    requires p_in { InRange p }
    requires of_plan { IsOfSoundPlan table.now }
    requires view { IsSeenFrom table.now p arc view.now }
    requires other { IsOther p q }
    requires in_arc { is_in_arc arc (vector p q) ≡ true }
    requires gap { IsGapOf view.now gap.old }
    ensures seen { result ≡ are_in_sight table.now p q }
    ensures gap { IsGapOf view.now gap.new }
{
    let d = way_between(p, q);
    let place = place_by(bearing, d);
    let begins = is_led_into(view.ground, d);
    if is_in(gap, place) {
        return is_seen_in(view, place, gap, begins, d);
    }
    let count = count_near(&view.sectors, place, gap.past);
    *gap = gap_after(view, count);
    is_seen_after(view, place, count, begins, d)
}
