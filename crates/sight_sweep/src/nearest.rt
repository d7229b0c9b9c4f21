//! The walls and screens that are nearest to the station, as numbers that are sorted.
//!
//! They are only proposed as covers: what is left out is told by what they hide, whichever they are. They are taken two
//! by two, as the edges of a polygon that meet in a corner mostly have numbers that follow each other.

ghost use Rattle.std.specs.Prelude.{◌≤◌, IfSome};
ghost use Rattle.plane_spec.specs.Vectors.{InRange, IsDirection};
ghost use Rattle.sight_sweep.specs.Arcs.{IsArc};

use crate::arcs::is_in_arc;
use crate::corners::length;
use crate::push::with_room;
use crate::table::SceneTable;
use exact_geom::vector;
use plane_spec::Point;
use std::alloc::Global;
use text_spec::NoMemory;
use view_laws::Arc;

/// So many pairs are proposed at most.
const MANY: usize = 48;

/// How far off it is, and the number, in one number.
fn key(far: u64, number: u32) -> u64
    requires far_in { far ≤ 800000 }
{
    far * 4_294_967_296 + number as u64
}

/// The number of the second of a pair.
pub(crate) fn number_of(key: u64) -> u32 {
    (key % 4_294_967_296) as u32
}

/// Whether there are as many already, and all are less.
fn is_too_far(near: &[u64], key: u64) -> bool {
    match near.get(MANY - 1) {
        None => false,
        Some(last) => *last < key,
    }
}

/// Puts the number into its place, where it is one of the least.
fn put_near(near: &mut Vec<u64>, key: u64) -> Result<(), NoMemory> {
    if is_too_far(near, key) {
        return Ok(());
    }
    let place = near.partition_point(|other: &u64| *other < key);
    if MANY <= place {
        return Ok(());
    }
    match near.insert(place, key) {
        Ok(()) => {
            near.truncate(MANY);
            Ok(())
        }
        Err(_refused) => Err(NoMemory),
    }
}

/// The vector to where the second of a pair begins: mostly the corner in which both meet. `None` where there is no such
/// pair, or the vector leads outside the arc.
pub(crate) fn way_to_pair(table: &SceneTable, p: Point, arc: Arc, second: u32) -> Option<Point>
    requires p_in { InRange p }
    requires arc { IsArc arc }
    ensures { IfSome result IsDirection }
{
    if table.count() <= second {
        return None;
    }
    let way = vector(p, table.line(second).a);
    if is_in_arc(arc, way) { Some(way) } else { None }
}

/// Puts the pair in, where it is one of the nearest so far.
fn put_if_near(
    near: &mut Vec<u64>,
    table: &SceneTable,
    p: Point,
    arc: Arc,
    second: u32,
) -> Result<(), NoMemory>
    requires p_in { InRange p }
    requires arc { IsArc arc }
{
    match way_to_pair(table, p, arc, second) {
        None => Ok(()),
        Some(way) => put_near(near, key(length(way), second)),
    }
}

/// The nearest pairs, nearest first.
pub(crate) fn nearest(
    alloc: Global,
    table: &SceneTable,
    p: Point,
    arc: Arc,
) -> Result<Vec<u64>, NoMemory>
    requires p_in { InRange p }
    requires arc { IsArc arc }
{
    let mut near = with_room(alloc, MANY + 1)?;
    for pair in 0..table.count() / 2 {
        put_if_near(&mut near, table, p, arc, 2 * pair + 1)?;
    }
    Ok(near)
}
