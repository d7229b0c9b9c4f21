//! The corners of an arc, in the order of their directions.

ghost use Rattle.std.specs.Prelude.{◌≡◌, ◌<◌, ◌≤◌, ◌+◌, ◌*◌, ◌/◌, ◌%◌, IfOk, length, true, false};
ghost use Rattle.plane_spec.specs.Vectors.{InRange, IsDirected, IsDirection};
ghost use Rattle.sight_core.specs.Scenes.{IsOfSoundPlan};
ghost use Rattle.view_laws.specs.Views as views;
ghost use Rattle.sight_sweep.specs.Arcs.{IsArc};
ghost use Rattle.sight_sweep.specs.Events.{AreEvents, AreFirstEvents};
ghost use Rattle.sight_sweep.specs.LeftOut.{is_set};

use crate::arcs::is_in_arc;
use crate::flags::is_set;
use crate::places::place_of;
use crate::products::is_directed;
use crate::push::{push, with_room};
use crate::table::SceneTable;
use plane_spec::Point;
use std::alloc::Global;
use text_spec::NoMemory;
use view_laws::Arc;

/// A corner on the way round: the place of its direction, and its number, in one number.
fn event(place: u64, number: usize) -> u64
    requires place_in { place ≤ 4398046511104 }
    requires number_in { number < 2048 }
    ensures { result ≡ place * 2048 + number }
{
    place * 2048 + number as u64
}

/// The place of an event's direction.
pub(crate) fn place_at(event: u64) -> u64
    ensures { result ≡ event / 2048 }
{
    event / 2048
}

/// The number of an event's corner.
pub(crate) fn corner_at(event: u64) -> usize
    ensures { result ≡ event % 2048 }
{
    (event % 2048) as usize
}

/// Whether the vector leads somewhere in the arc.
fn is_way_in(arc: Arc, way: Point) -> bool
    requires arc { IsArc arc }
    requires way_in { IsDirection way }
    ensures directed { result ≡ true → IsDirected way }
    ensures in_arc { result ≡ true → views.is_in_arc arc way ≡ true }
    ensures otherwise { result ≡ false → IsDirected way → views.is_in_arc arc way ≡ false }
{
    is_directed(way) && is_in_arc(arc, way)
}

/// Lists the corner of the number, if it is shown and in the arc.
fn push_if_in_arc(
    events: &mut Vec<u64>,
    table: &SceneTable,
    shown: &[bool],
    p: Point,
    arc: Arc,
    number: usize,
) -> Result<(), NoMemory>
    requires p_in { InRange p }
    requires few { length table.now.corners ≤ 1024 }
    requires arc { IsArc arc }
    requires within { number < length table.now.corners }
    ensures { AreFirstEvents table.now.corners p arc (is_set shown.now) number events.old.items
        → IfOk result (λ u. AreFirstEvents table.now.corners p arc (is_set shown.now) (number + 1) events.new.items) }
{
    if !is_set(shown, number) {
        return Ok(());
    }
    let way = table.way(p, number);
    if !is_way_in(arc, way) {
        return Ok(());
    }
    push(events, event(place_of(way), number))
}

/// The corners of the arc that are shown, in their own order.
fn corner_events(
    alloc: Global,
    table: &SceneTable,
    shown: &[bool],
    p: Point,
    arc: Arc,
) -> Result<Vec<u64>, NoMemory>
    requires p_in { InRange p }
    requires arc { IsArc arc }
    ensures listed { IfOk result (λ events. AreFirstEvents table.now.corners p arc (is_set shown.now)
        (length table.now.corners) events.items) }
    ensures of_plan { IsOfSoundPlan table.now }
{
    let count = table.corners().len();
    let mut events = with_room(alloc, count)?;
    for number in 0..count {
        push_if_in_arc(&mut events, table, shown, p, arc, number)?;
    }
    Ok(events)
}

/// The corners of the arc that are shown, in the order of their directions.
pub(crate) fn events_of(
    alloc: Global,
    table: &SceneTable,
    shown: &[bool],
    p: Point,
    arc: Arc,
) -> Result<Vec<u64>, NoMemory>
    requires p_in { InRange p }
    requires arc { IsArc arc }
    ensures listed { IfOk result (λ events. AreEvents table.now.corners p arc (is_set shown.now) events.items) }
    ensures of_plan { IsOfSoundPlan table.now }
{
    let mut events = corner_events(alloc, table, shown, p, arc)?;
    events.sort_unstable();
    Ok(events)
}
