//! The walls and corners of one polygon, whichever way round its points were given.

ghost use Rattle.std.specs.Prelude.{All, OnErr, OnOk, ◌≡◌, ◌∷◌, ◌++◌, []};
ghost use Rattle.plane_spec.specs.Cones as cones;
ghost use Rattle.plane_spec.specs.Polygons as polygons;
ghost use Rattle.plane_spec.specs.Vectors.{InRange};
ghost use Rattle.sight_spec.specs.Scene as scenes;
ghost use Rattle.sight_core.specs.Turned as turned;

use exact_geom::{cross, edge, is_positive};
use plane_spec::{Corner, Orientation, Point, Segment};
use text_spec::NoMemory;

/// Appends an element. Without memory the elements are as before.
pub(crate) fn append<T: Copy>(list: &mut Vec<T>, x: T) -> Result<(), NoMemory>
    ensures added { OnOk result (list.new.items ≡ list.old.items ++ x ∷ []) }
    ensures unchanged { OnErr result (list.new.items ≡ list.old.items) }
{
    list.push(x).map_err(|_| NoMemory)
}

/// Whether the points go round counterclockwise, by the sign of the doubled area.
fn is_counterclockwise(points: &[Point]) -> bool
    requires { All InRange points.now }
    ensures { result ≡ polygons.is_counterclockwise points.now }
{
    let mut area = 0;
    for k in 0..points.len() {
        let e = edge(points, k);
        area += cross(e.a, e.b);
    }
    is_positive(area)
}

/// Whether the points go round this way.
fn has_orientation(way: Orientation, points: &[Point]) -> bool
    requires { All InRange points.now }
    ensures { result ≡ scenes.has_orientation way points.now }
{
    match way {
        Orientation::Counterclockwise => is_counterclockwise(points),
        Orientation::Clockwise => !is_counterclockwise(points),
    }
}

/// The edge in its own direction, or in the other.
fn directed_edge(keep: bool, e: Segment) -> Segment
    ensures { result ≡ turned.directed_edge keep e }
{
    if keep { e } else { Segment { a: e.b, b: e.a } }
}

/// Appends the edges of the polygon, each directed so that they go round this way. Without memory some are appended.
pub(crate) fn append_walls(
    walls: &mut Vec<Segment>,
    way: Orientation,
    points: &[Point],
) -> Result<(), NoMemory>
    requires { All InRange points.now }
    ensures { OnOk result (walls.new.items ≡ walls.old.items ++ scenes.oriented_walls way points.now) }
{
    let keep = has_orientation(way, points);
    for k in 0..points.len() {
        append(walls, directed_edge(keep, edge(points, k)))?;
    }
    Ok(())
}

/// The corner at which `e` begins, after the edge `before`, or the same in the other direction.
fn directed_corner(keep: bool, before: Segment, e: Segment) -> Corner
    ensures { result ≡ turned.directed_corner keep (cones.corner before.a e.a e.b) }
{
    if keep {
        Corner {
            prev: before.a,
            here: e.a,
            next: e.b,
        }
    } else {
        Corner {
            prev: e.b,
            here: e.a,
            next: before.a,
        }
    }
}

/// Appends the corners of the polygon in the order of its points, each between its neighbours in the direction of the
/// walls. Without memory some are appended.
pub(crate) fn append_corners(
    corners: &mut Vec<Corner>,
    way: Orientation,
    points: &[Point],
) -> Result<(), NoMemory>
    requires { All InRange points.now }
    ensures { OnOk result (corners.new.items ≡ corners.old.items ++ scenes.oriented_corners way points.now) }
{
    let keep = has_orientation(way, points);
    let Some(last) = points.len().checked_sub(1) else {
        return Ok(());
    };
    let mut before = edge(points, last);
    for k in 0..points.len() {
        let e = edge(points, k);
        append(corners, directed_corner(keep, before, e))?;
        before = e;
    }
    Ok(())
}
