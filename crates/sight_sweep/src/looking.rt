//! The view from a station.

ghost use Rattle.std.specs.Prelude.{◌≡◌, ◌<◌, ◌+◌, All, IfOk, length};
ghost use Rattle.sight_spec.specs.Scene.{blockers_of_scene};
ghost use Rattle.plane_spec.specs.Vectors.{InRange, IsDirection, IsDirected};
ghost use Rattle.front_laws.specs.Seen as order;
ghost use Rattle.view_laws.specs.Views.{IsViewOf};
ghost use Rattle.station_laws.specs.Grounds.{IsGroundOf};
ghost use Rattle.sight_sweep.specs.Actives.{seen, IsActive};
ghost use Rattle.sight_sweep.specs.Arcs.{IsArc};
ghost use Rattle.sight_sweep.specs.LeftOut.{is_set};
ghost use Rattle.sight_sweep.specs.Rounds as words;
ghost use Rattle.sight_sweep.specs.Rounds.{spanned_so_far};
ghost use Rattle.sight_sweep.specs.Stations.{IsStation};
ghost use Rattle.sight_sweep.specs.Steps.{one_more};
ghost use Rattle.sight_sweep.specs.Ways.{IsToCorner};

use crate::active::put_in;
use crate::arcs::start_of;
use crate::blocker::Blocker;
use crate::count::Steps;
use crate::events::events_of;
use crate::flags::is_set;
use crate::grounds::ground_of;
use crate::hiding::what_to_look_at;
use crate::products::is_left;
use crate::push::with_room;
use crate::round::{first_of, go_round};
use crate::table::SceneTable;
use exact_geom::vector;
use plane_spec::Point;
use std::alloc::Global;
use text_spec::NoMemory;
use view_laws::{Arc, View};

/// Whether the direction leads between the ends.
fn is_spanned(blocker: &Blocker, d: Point) -> bool
    requires { IsDirection d }
    ensures { result ≡ order.spans d (seen blocker.now) }
{
    is_left(blocker.from, d) && is_left(d, blocker.to)
}

/// Whether both vectors lead to the left of the direction, or both to its right.
fn are_beside(d: Point, a: Point, b: Point) -> bool
    requires d_in { IsDirection d }
    requires a_in { IsDirection a }
    requires b_in { IsDirection b }
    ensures { result ≡ words.are_beside d a b }
{
    (is_left(d, a) && is_left(d, b)) || (is_left(a, d) && is_left(b, d))
}

/// Puts the wall or screen of the number in, if it is kept and the direction spans it.
fn put_if_spanned(
    active: &mut Vec<Blocker>,
    table: &SceneTable,
    kept: &[bool],
    p: Point,
    d: Point,
    number: u32,
) -> Result<(), NoMemory>
    requires p_in { InRange p }
    requires station { IsStation table.now p }
    requires d_in { IsDirection d }
    requires within { number < length (blockers_of_scene table.now) }
    ensures { IsActive table.now p (is_set kept.now) (spanned_so_far d number) active.old.items
        → IfOk result (λ u. IsActive table.now p (is_set kept.now) (spanned_so_far d (number + 1)) active.new.items) }
{
    if !is_set(kept, number as usize) {
        return Ok(());
    }
    let line = table.line(number);
    if are_beside(d, vector(p, line.a), vector(p, line.b)) {
        return Ok(());
    }
    let Some(blocker) = table.seen(p, number) else {
        return Ok(());
    };
    if !is_spanned(&blocker, d) {
        return Ok(());
    }
    put_in(active, blocker)
}

/// The walls and screens that are kept and that the direction spans, from the station outwards.
fn spanned_by(
    alloc: Global,
    table: &SceneTable,
    kept: &[bool],
    p: Point,
    d: Point,
) -> Result<Vec<Blocker>, NoMemory>
    requires p_in { InRange p }
    requires station { IsStation table.now p }
    requires d_in { IsDirection d }
    ensures { IfOk result (λ active. IsActive table.now p (is_set kept.now) (λ n s. order.spans d s) active.items) }
{
    let count = table.count();
    let mut active = with_room(alloc, count as usize)?;
    for number in 0..count {
        put_if_spanned(&mut active, table, kept, p, d, number)?;
    }
    Ok(active)
}

/// The view, once it is counted.
fn view_from(alloc: Global, table: &SceneTable, p: Point, arc: Arc) -> Result<View, NoMemory>
    requires p_in { InRange p }
    requires arc { IsArc arc }
    ensures view { IfOk result (λ view. IsViewOf table.now p arc view) }
    ensures under { IfOk result (λ view. IsGroundOf table.now p view.ground) }
    ensures corners { IfOk result (λ view. All (IsToCorner table.now p) view.sectors.items) }
{
    let left = what_to_look_at(alloc, table, p, arc)?;
    let events = events_of(alloc, table, &left.shown, p, arc)?;
    let start = start_of(arc);
    let mut active = spanned_by(alloc, table, &left.kept, p, start)?;
    let mut sectors = with_room(alloc, events.len())?;
    let before = first_of(&active);
    go_round(&mut active, &mut sectors, table, &left.kept, p, &events)?;
    let under = ground_of(table, p);
    Ok(View {
        ground: under,
        before,
        sectors,
    })
}

/// What is seen from `p` in the directions of the arc: what is seen first in each, and the nearest corners that lead
/// into what is blocked, told in sectors. Counts one sweep, whatever it answers.
///
/// Cost: a few products for each wall and screen, to leave out what near walls hide; one sort of the directions of the
/// corners in the arc that are left, and for each of them a step whose cost grows with the number of walls that one
/// direction spans.
///
/// Source: the plane sweep by angle after Lee (1978) and Asano (1985); the rules at corners and walls are those of
/// sight.
pub fn look(
    alloc: Global,
    table: &SceneTable,
    p: Point,
    arc: Arc,
    steps: &mut Steps,
) -> Result<View, NoMemory>
    requires p_in { InRange p }
    requires arc { IsArc arc }
    ensures view { IfOk result (λ view. IsViewOf table.now p arc view) }
    ensures under { IfOk result (λ view. IsGroundOf table.now p view.ground) }
    ensures corners { IfOk result (λ view. All (IsToCorner table.now p) view.sectors.items) }
    ensures counted { steps.new ≡ one_more steps.old }
{
    steps.count_one();
    view_from(alloc, table, p, arc)
}
