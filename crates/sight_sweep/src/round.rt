//! The way round, from one direction of corners to the next.

ghost use Rattle.std.specs.Prelude.{◌≡◌, ◌≤◌, ◌<◌, ◌+◌, ◌&&◌, ◌||◌, All, IfOk, ℕ, Bool, true, not, ◌==◌, length};
ghost use Rattle.std.specs.Prelude.{Option, Some, None};
ghost use Rattle.std.specs.Option.{option_map};
ghost use Rattle.std.proofs.Common.{get_or};
ghost use Rattle.plane_spec.specs.declared.Point.{Point};
ghost use Rattle.plane_spec.specs.Vectors.{InRange, IsDirection, same_point};
ghost use Rattle.sight_sweep.specs.Stations.{IsStation};
ghost use Rattle.sight_spec.specs.Scene.{blockers_of_scene};
ghost use Rattle.front_laws.specs.Seen as order;
ghost use Rattle.front_laws.specs.Seen.{seen_at};
ghost use Rattle.view_laws.specs.Views as views;
ghost use Rattle.view_laws.specs.declared.view.Arc.{Arc};
ghost use Rattle.view_laws.specs.declared.view.Front as fronts;
ghost use Rattle.sight_sweep.specs.Actives as actives;
ghost use Rattle.sight_sweep.specs.Actives.{front, IsActive, SpansAll, unless_ended, or_begun};
ghost use Rattle.sight_sweep.specs.Events as parts;
ghost use Rattle.sight_sweep.specs.Events.{way_at, AreEvents};
ghost use Rattle.sight_sweep.specs.Rounds as rounds;
ghost use Rattle.sight_sweep.specs.Rounds.{IsGroup, IsGoing, IsUnderway};
ghost use Rattle.sight_sweep.specs.Arcs.{IsArc, start_place, end_place};
ghost use Rattle.sight_sweep.specs.LeftOut.{is_set, AreLeftOut};

use crate::active::{put_in, take_out};
use crate::blocker::Blocker;
use crate::corners::{ahead, behind};
use crate::events::{corner_at, place_at};
use crate::flags::is_set;
use crate::products::is_negative;
use crate::push::push;
use crate::table::SceneTable;
use exact_geom::same_point;
use plane_spec::Point;
use text_spec::NoMemory;
use view_laws::{Front, Sector};

/// Takes the wall or screen of the number out, if it ends at `v`.
fn take_if_ended(active: &mut Vec<Blocker>, table: &SceneTable, p: Point, v: Point, number: u32)
    requires p_in { InRange p }
    requires within { number < length (blockers_of_scene table.now) }
    ensures taken { (kept : ℕ → Bool) (test : ℕ → order.Seen → Bool) → IsActive table.now p kept test active.old.items
        → IsActive table.now p kept (λ n s. test n s && not ((number == n) && same_point s.to v)) active.new.items }
{
    let Some(blocker) = table.seen(p, number) else {
        return;
    };
    if !same_point(blocker.to, v) {
        return;
    }
    take_out(active, number);
}

/// Takes out what ends at the corner.
fn take_ended(active: &mut Vec<Blocker>, table: &SceneTable, p: Point, corner: usize)
    requires p_in { InRange p }
    requires within { corner < length table.now.corners }
    ensures taken { (kept : ℕ → Bool) (test : ℕ → order.Seen → Bool) → IsActive table.now p kept test active.old.items
        → IsActive table.now p kept (unless_ended (way_at p table.now.corners corner) test) active.new.items }
{
    let v = table.way(p, corner);
    let numbers = table.around(corner);
    for k in 0..numbers.len() {
        take_if_ended(active, table, p, v, numbers[k]);
    }
}

/// Puts the wall or screen of the number in, if it is kept and begins at `v`.
fn put_if_begun(
    active: &mut Vec<Blocker>,
    table: &SceneTable,
    kept: &[bool],
    p: Point,
    v: Point,
    number: u32,
) -> Result<(), NoMemory>
    requires p_in { InRange p }
    requires station { IsStation table.now p }
    requires within { number < length (blockers_of_scene table.now) }
    ensures put { (test : ℕ → order.Seen → Bool) (way : Point)
        → IsActive table.now p (is_set kept.now) test active.old.items
        → SpansAll table.now p (is_set kept.now) test way
        → ((s : order.Seen) → is_set kept.now number ≡ true → seen_at p (blockers_of_scene table.now) number ≡ Some s
        → same_point s.from v ≡ true → order.spans way s ≡ true)
        → IfOk result (λ u. IsActive table.now p (is_set kept.now)
        (λ n s. test n s || ((number == n) && same_point s.from v)) active.new.items) }
{
    if !is_set(kept, number as usize) {
        return Ok(());
    }
    let Some(blocker) = table.seen(p, number) else {
        return Ok(());
    };
    if !same_point(blocker.from, v) {
        return Ok(());
    }
    put_in(active, blocker)
}

/// Puts in what is kept and begins at the corner.
fn put_begun(
    active: &mut Vec<Blocker>,
    table: &SceneTable,
    kept: &[bool],
    p: Point,
    corner: usize,
) -> Result<(), NoMemory>
    requires p_in { InRange p }
    requires station { IsStation table.now p }
    requires within { corner < length table.now.corners }
    ensures put { (test : ℕ → order.Seen → Bool) (way : Point)
        → IsActive table.now p (is_set kept.now) test active.old.items
        → SpansAll table.now p (is_set kept.now) test way
        → SpansAll table.now p (is_set kept.now) (λ n s. same_point s.from (way_at p table.now.corners corner)) way
        → IfOk result (λ u. IsActive table.now p (is_set kept.now)
        (or_begun (way_at p table.now.corners corner) test) active.new.items) }
{
    let v = table.way(p, corner);
    let numbers = table.around(corner);
    for k in 0..numbers.len() {
        put_if_begun(active, table, kept, p, v, numbers[k])?;
    }
    Ok(())
}

/// What is seen first.
pub(crate) fn first_of(active: &[Blocker]) -> Option<Front>
    ensures { result ≡ option_map front (actives.first_of active.now) }
{
    match active.first() {
        None => None,
        Some(blocker) => Some(blocker.front()),
    }
}

/// Whether both are one wall or screen, or none.
fn is_same(a: Option<Front>, b: Option<Front>) -> bool
    ensures { result ≡ true → views.number_by a ≡ views.number_by b }
{
    match (a, b) {
        (None, None) => true,
        (Some(a), Some(b)) => a.number == b.number,
        _ => false,
    }
}

/// Whether `v` is strictly behind the line of what is seen first.
fn is_past(active: &[Blocker], v: Point) -> bool
    requires { IsDirection v }
    ensures { result ≡ rounds.is_past (actives.first_of active.now) v }
{
    match active.first() {
        None => false,
        Some(blocker) => is_negative(blocker.side(v)),
    }
}

/// Whether all corners of the group are strictly behind the line of what is seen first.
fn are_past(active: &[Blocker], table: &SceneTable, p: Point, group: &[u64]) -> bool
    requires p_in { InRange p }
    requires within { All (λ e. parts.corner_of e < length table.now.corners) group.now }
    ensures { result ≡ true → All (λ e. rounds.is_past (actives.first_of active.now)
        (way_at p table.now.corners (parts.corner_of e)) ≡ true) group.now }
{
    for k in 0..group.len() {
        if !is_past(active, table.way(p, corner_at(group[k]))) {
            return false;
        }
    }
    true
}

/// How far off the nearest corner of the group is that leads into what is blocked.
fn nearest_ahead(table: &SceneTable, p: Point, group: &[u64]) -> Option<u64>
    requires p_in { InRange p }
    requires within { All (λ e. parts.corner_of e < length table.now.corners) group.now }
    ensures { result ≡ rounds.least_from (rounds.leads_ahead p table.now.corners)
        (rounds.far_of p table.now.corners) None group.now }
{
    let mut least = None;
    for k in 0..group.len() {
        let corner = corner_at(group[k]);
        least = ahead(least, table.corner(corner), table.way(p, corner));
    }
    least
}

/// How far off the nearest corner of the group is that leads into what is blocked on the way back.
fn nearest_behind(table: &SceneTable, p: Point, group: &[u64]) -> Option<u64>
    requires p_in { InRange p }
    requires within { All (λ e. parts.corner_of e < length table.now.corners) group.now }
    ensures { result ≡ rounds.least_from (rounds.leads_behind p table.now.corners)
        (rounds.far_of p table.now.corners) None group.now }
{
    let mut least = None;
    for k in 0..group.len() {
        let corner = corner_at(group[k]);
        least = behind(least, table.corner(corner), table.way(p, corner));
    }
    least
}

/// Takes out all that end at the corners of the group.
fn take_all_ended(active: &mut Vec<Blocker>, table: &SceneTable, p: Point, group: &[u64])
    requires p_in { InRange p }
    requires within { All (λ e. parts.corner_of e < length table.now.corners) group.now }
    ensures taken { (kept : ℕ → Bool) (test : ℕ → order.Seen → Bool) → IsActive table.now p kept test active.old.items
        → IsActive table.now p kept (λ n s. test n s && not (rounds.ends_among p table.now.corners group.now s))
        active.new.items }
{
    for k in 0..group.len() {
        take_ended(active, table, p, corner_at(group[k]));
    }
}

/// Puts in all that are kept and begin at the corners of the group.
fn put_all_begun(
    active: &mut Vec<Blocker>,
    table: &SceneTable,
    kept: &[bool],
    p: Point,
    group: &[u64],
) -> Result<(), NoMemory>
    requires p_in { InRange p }
    requires station { IsStation table.now p }
    requires within { All (λ e. parts.corner_of e < length table.now.corners) group.now }
    ensures put { (test : ℕ → order.Seen → Bool) (way : Point)
        → IsActive table.now p (is_set kept.now) test active.old.items
        → SpansAll table.now p (is_set kept.now) test way
        → SpansAll table.now p (is_set kept.now) (λ n s. rounds.begins_among p table.now.corners group.now s) way
        → IfOk result (λ u. IsActive table.now p (is_set kept.now)
        (λ n s. test n s || rounds.begins_among p table.now.corners group.now s) active.new.items) }
{
    for k in 0..group.len() {
        put_begun(active, table, kept, p, corner_at(group[k]))?;
    }
    Ok(())
}

/// Whether nothing need be told of a group: all its corners are behind what is seen first, and that stays as it is.
fn is_silent(hidden: bool, before: Option<Front>, on: Option<Front>, after: Option<Front>) -> bool
    ensures hidden { result ≡ true → hidden ≡ true }
    ensures on { result ≡ true → views.number_by before ≡ views.number_by on }
    ensures after { result ≡ true → views.number_by on ≡ views.number_by after }
{
    hidden && (is_same(before, on) && is_same(on, after))
}

/// What is told of a group.
fn sector_of(
    table: &SceneTable,
    p: Point,
    group: &[u64],
    on: Option<Front>,
    after: Option<Front>,
) -> Sector
    requires p_in { InRange p }
    requires some { 0 < length group.now }
    requires within { All (λ e. parts.corner_of e < length table.now.corners) group.now }
    ensures place { result.place ≡ parts.place_at (get_or group.now 0 0) }
    ensures way { result.way ≡ way_at p table.now.corners (parts.corner_of (get_or group.now 0 0)) }
    ensures on { result.on ≡ on }
    ensures after { result.after ≡ after }
    ensures ahead { result.ahead ≡ rounds.least_from (rounds.leads_ahead p table.now.corners)
        (rounds.far_of p table.now.corners) None group.now }
    ensures behind { result.behind
        ≡ rounds.least_from (rounds.leads_behind p table.now.corners)
        (rounds.far_of p table.now.corners) None group.now }
{
    Sector {
        place: place_at(group[0]),
        way: table.way(p, corner_at(group[0])),
        on,
        ahead: nearest_ahead(table, p, group),
        behind: nearest_behind(table, p, group),
        after,
    }
}

/// Goes on past the corners of one direction: first all that end there go, then the corners are told, then all that
/// begin there come. Nothing is told of corners that are all behind what is seen first, before them and after them.
fn pass(
    active: &mut Vec<Blocker>,
    sectors: &mut Vec<Sector>,
    table: &SceneTable,
    kept: &[bool],
    p: Point,
    group: &[u64],
) -> Result<(), NoMemory>
    requires p_in { InRange p }
    requires station { IsStation table.now p }
    requires some { 0 < length group.now }
    requires within { All (λ e. parts.corner_of e < length table.now.corners) group.now }
    ensures passed { (arc : Arc) (shown : ℕ → Bool) (start : ℕ) (before : Option fronts.Front) (place : ℕ)
        → AreLeftOut table.now p arc (is_set kept.now) shown
        → IsGroup table.now p arc (is_set kept.now) shown place group.now
        → IsUnderway table.now p arc (is_set kept.now) start before sectors.old.items place active.old.items
        → IfOk result (λ u. IsUnderway table.now p arc (is_set kept.now) start before sectors.new.items (place + 1)
        active.new.items) }
{
    let before = first_of(active);
    take_all_ended(active, table, p, group);
    let on = first_of(active);
    let hidden = are_past(active, table, p, group);
    put_all_begun(active, table, kept, p, group)?;
    let after = first_of(active);
    if is_silent(hidden, before, on, after) {
        return Ok(());
    }
    push(sectors, sector_of(table, p, group, on, after))
}

/// Whether the event is the last one of its direction.
fn is_last(events: &[u64], k: usize) -> bool
    requires within { k < length events.now }
    ensures end { k + 1 ≡ length events.now → result ≡ true }
    ensures on { k + 1 < length events.now → result
        ≡ not (parts.place_at (get_or events.now k 0) == parts.place_at (get_or events.now (k + 1) 0)) }
{
    k + 1 == events.len() || place_at(events[k]) != place_at(events[k + 1])
}

/// Passes the group that ends with the event, if one does: where the next group begins.
fn pass_if_last(
    active: &mut Vec<Blocker>,
    sectors: &mut Vec<Sector>,
    table: &SceneTable,
    kept: &[bool],
    p: Point,
    events: &[u64],
    from: usize,
    k: usize,
) -> Result<usize, NoMemory>
    requires p_in { InRange p }
    requires station { IsStation table.now p }
    requires order { from ≤ k }
    requires inside { k < length events.now }
    requires within { All (λ e. parts.corner_of e < length table.now.corners) events.now }
    ensures next { IfOk result (λ next. next ≤ k + 1) }
    ensures going { (arc : Arc) (shown : ℕ → Bool) (before : Option fronts.Front) → IsArc arc
        → AreLeftOut table.now p arc (is_set kept.now) shown
        → AreEvents table.now.corners p arc shown events.now
        → IsGoing table.now p arc (is_set kept.now) before sectors.old.items events.now from k active.old.items
        → IfOk result (λ next. IsGoing table.now p arc (is_set kept.now) before sectors.new.items events.now next
        (k + 1) active.new.items) }
{
    if !is_last(events, k) {
        return Ok(from);
    }
    let group = &events[from..k + 1];
    pass(active, sectors, table, kept, p, group)?;
    Ok(k + 1)
}

/// Goes past all corners, and tells what is seen.
pub(crate) fn go_round(
    active: &mut Vec<Blocker>,
    sectors: &mut Vec<Sector>,
    table: &SceneTable,
    kept: &[bool],
    p: Point,
    events: &[u64],
) -> Result<(), NoMemory>
    requires p_in { InRange p }
    requires station { IsStation table.now p }
    requires within { All (λ e. parts.corner_of e < length table.now.corners) events.now }
    ensures round { (arc : Arc) (shown : ℕ → Bool) (before : Option fronts.Front) → IsArc arc
        → AreLeftOut table.now p arc (is_set kept.now) shown
        → AreEvents table.now.corners p arc shown events.now
        → IsUnderway table.now p arc (is_set kept.now) (start_place arc) before sectors.old.items (start_place arc)
        active.old.items
        → IfOk result (λ u. IsUnderway table.now p arc (is_set kept.now) (start_place arc) before sectors.new.items
        (end_place arc) active.new.items) }
{
    let mut from = 0;
    for k in 0..events.len() {
        from = pass_if_last(active, sectors, table, kept, p, events, from, k)?;
    }
    Ok(())
}
