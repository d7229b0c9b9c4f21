//! The directions in which corners lie, in order.

ghost use Rattle.std.specs.Prelude.{◌≡◌, ◌∷◌, ◌++◌, [], IfOk, OnOk, map, filter, false};
ghost use Rattle.plane_spec.specs.Cones.{IsCornerInRange};
ghost use Rattle.plane_spec.specs.Vectors as vectors;
ghost use Rattle.plane_spec.specs.Vectors.{InRange, turn_order_of, turns_before};
ghost use Rattle.sight_core.specs.Scenes.{IsOfSoundPlan};
ghost use Rattle.sight_spec.specs.Isovist as isovists;
ghost use Rattle.std.specs.List.{dedup};
ghost use Rattle.std.specs.List.Sorted.{IsSortedBy, IsStableBy};
ghost use Rattle.isovist_laws.specs.Vectors.{is_elsewhere, vectors_to_corners};
ghost use Rattle.isovist_core.specs.Headings.{step_of, tied, comes_before};

use crate::heading::Heading;
use crate::room::with_room;
use exact_geom::{same_point, vector};
use plane_spec::{Corner, Point};
use sight_core::Scene;
use sight_sweep::place_of;
use std::alloc::Global;
use std::cmp::Ordering;
use text_spec::NoMemory;

/// The vector from `p` to another point.
fn heading_to(p: Point, q: Point) -> Heading
    requires p_in { InRange p }
    requires q_in { InRange q }
    requires apart { vectors.same_point q p ≡ false }
    ensures { result.step ≡ vectors.vector p q }
{
    let step = vector(p, q);
    Heading {
        step,
        place: place_of(step),
    }
}

/// Appends the vector from `p` to a corner, unless it is at `p`.
fn put_heading(headings: &mut Vec<Heading>, p: Point, corner: &Corner) -> Result<(), NoMemory>
    requires p_in { InRange p }
    requires corner_in { IsCornerInRange corner.now }
    ensures { OnOk result (map step_of headings.new.items ≡ map step_of headings.old.items
        ++ map (isovists.vector_to_corner p) (filter (is_elsewhere p) (corner.now ∷ []))) }
{
    if !same_point(corner.here, p) {
        headings.push(heading_to(p, corner.here))?;
    }
    Ok(())
}

/// The vectors from `p` to the corners other than `p`, in the order of the corners.
fn headings_to_corners(alloc: Global, scene: &Scene, p: Point) -> Result<Vec<Heading>, NoMemory>
    requires { InRange p }
    ensures vectors { IfOk result (λ headings. map step_of headings.items ≡ vectors_to_corners scene.now p) }
    ensures of_plan { IsOfSoundPlan scene.now }
{
    let corners = scene.corners();
    let mut headings = with_room(alloc, corners.len())?;
    for corner in corners {
        put_heading(&mut headings, p, corner)?;
    }
    Ok(headings)
}

/// The order of two directions, counterclockwise from (1,0).
fn order_of(a: &Heading, b: &Heading) -> Ordering
    ensures { result ≡ turn_order_of a.now.step b.now.step }
{
    a.place.cmp(&b.place)
}

/// Whether two directions point the same way.
fn point_alike(a: &Heading, b: &Heading) -> bool
    ensures { result ≡ isovists.same_way a.now.step b.now.step }
{
    order_of(a, b).is_eq()
}

/// Puts directions in order; those that point the same way stay as they stood. Without memory nothing changes.
fn sort_headings(headings: &mut Vec<Heading>) -> Result<(), NoMemory>
    ensures sorted { OnOk result (IsSortedBy comes_before headings.new.items) }
    ensures stable { OnOk result (IsStableBy comes_before headings.old.items headings.new.items) }
{
    headings.sort_by(
        |a: &Heading, b: &Heading| -> Ordering
            ensures { result ≡ turn_order_of a.now.step b.now.step }
        { order_of(a, b) },
    )?;
    Ok(())
}

/// Leaves out each direction that points the same way as the last one kept.
fn drop_repeats(headings: &mut Vec<Heading>)
    ensures { headings.new.items ≡ dedup tied headings.old.items }
{
    headings.dedup_by(|later, kept| point_alike(later, kept));
}

/// The directions in which corners other than `p` lie, counterclockwise from (1,0); of the corners that lie in one
/// direction the first gives the vector.
///
/// Cost: one stable sort of the corners.
pub(crate) fn corner_directions(
    alloc: Global,
    scene: &Scene,
    p: Point,
) -> Result<Vec<Heading>, NoMemory>
    requires { InRange p }
    ensures directions { IfOk result (λ headings. map step_of headings.items ≡ isovists.corner_directions scene.now p) }
    ensures of_plan { IsOfSoundPlan scene.now }
{
    let mut headings = headings_to_corners(alloc, scene, p)?;
    sort_headings(&mut headings)?;
    drop_repeats(&mut headings);
    Ok(headings)
}
