//! Covers: near walls and screens, by which others are hidden.

ghost use Rattle.std.specs.Prelude.{◌≡◌, ◌<◌, All, IfOk, IfSome, true};
ghost use Rattle.plane_spec.specs.Vectors.{InRange, IsDirection};
ghost use Rattle.sight_sweep.specs.Actives.{seen, IsOf};
ghost use Rattle.sight_sweep.specs.LeftOut as words;
ghost use Rattle.sight_sweep.specs.LeftOut.{AreHiddenAt, IsHiddenAt};

use crate::bins::{cover_bins, proposed};
use crate::blocker::Blocker;
use crate::nearest::number_of;
use crate::products::{is_left, is_negative};
use crate::push::{push, with_room};
use crate::table::SceneTable;
use plane_spec::Point;
use std::alloc::Global;
use text_spec::NoMemory;

/// Whether the direction of `v` spans the cover and `v` is strictly behind its line.
fn is_hidden(cover: &Blocker, v: Point) -> bool
    requires { IsDirection v }
    ensures { result ≡ words.is_hidden (seen cover.now) v }
{
    is_left(cover.from, v) && is_left(v, cover.to) && is_negative(cover.side(v))
}

/// Whether the cover of the number hides the point at `v`.
fn is_hidden_at(covers: &[Blocker], at: usize, v: Point) -> bool
    requires { IsDirection v }
    ensures { result ≡ true → IsHiddenAt covers.now at v }
{
    match covers.get(at) {
        None => false,
        Some(cover) => is_hidden(cover, v),
    }
}

/// A cover that hides the point at `v`, if the last one that hid something does or the one that its bin proposes.
pub(crate) fn cover_of_point(
    covers: &[Blocker],
    bins: &[u8],
    last: usize,
    v: Point,
) -> Option<usize>
    requires { IsDirection v }
    ensures { IfSome result (λ at. IsHiddenAt covers.now at v) }
{
    if is_hidden_at(covers, last, v) {
        return Some(last);
    }
    let at = proposed(bins, v);
    if at != last && is_hidden_at(covers, at, v) {
        return Some(at);
    }
    None
}

/// Whether the cover of the number hides the points at `v` and `w`.
pub(crate) fn are_hidden_at(covers: &[Blocker], at: usize, v: Point, w: Point) -> bool
    requires v_in { IsDirection v }
    requires w_in { IsDirection w }
    ensures { result ≡ true → AreHiddenAt covers.now at v w }
{
    is_hidden_at(covers, at, v) && is_hidden_at(covers, at, w)
}

/// Makes the wall or screen a cover, where it faces the station and its bins want one.
fn push_cover(
    covers: &mut Vec<Blocker>,
    bins: &mut Vec<u8>,
    table: &SceneTable,
    p: Point,
    number: u32,
) -> Result<(), NoMemory>
    requires p_in { InRange p }
    ensures { All (IsOf table.now p) covers.old.items
        → IfOk result (λ u. All (IsOf table.now p) covers.new.items) }
{
    if table.count() <= number {
        return Ok(());
    }
    let Some(blocker) = table.seen(p, number) else {
        return Ok(());
    };
    let count = covers.len();
    if blocker.hides || 255 <= count || !cover_bins(bins, &blocker, count as u8) {
        return Ok(());
    }
    push(covers, blocker)
}

/// The covers among the nearest walls and screens, with their bins.
pub(crate) fn covers_of(
    alloc: Global,
    bins: &mut Vec<u8>,
    table: &SceneTable,
    p: Point,
    near: &[u64],
) -> Result<Vec<Blocker>, NoMemory>
    requires p_in { InRange p }
    ensures { IfOk result (λ covers. All (IsOf table.now p) covers.items) }
{
    let mut covers = with_room(alloc, 96)?;
    for k in 0..near.len() {
        let second = number_of(near[k]);
        push_cover(&mut covers, bins, table, p, second.saturating_sub(1))?;
        push_cover(&mut covers, bins, table, p, second)?;
    }
    Ok(covers)
}
