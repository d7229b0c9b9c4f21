//! What a view tells of one direction, and what follows from it for a point and for a ray.

ghost use Rattle.std.specs.Prelude.{◌≡◌, IfSome};
ghost use Rattle.std.specs.Option.{option_map};
ghost use Rattle.plane_spec.specs.Cones.{IsCornerInRange};
ghost use Rattle.plane_spec.specs.Fractions as fractions;
ghost use Rattle.plane_spec.specs.Vectors.{IsDirected, IsDirection};
ghost use Rattle.plane_spec.specs.Segments.{IsSegmentInRange};
ghost use Rattle.view_laws.specs.Views as views;
ghost use Rattle.view_laws.specs.Views.{AreInOrder, radial_at, radial_between, radial_by};
ghost use Rattle.sight_sweep.specs.Told.{IsCount, IsFrontTo, IsTold, radial};
ghost use Rattle.sight_sweep.specs.Grounds.{IsGroundInRange};

use crate::corners::length;
use crate::hits::{corner_by, hit_by, nearer, start_stop};
use crate::products::{cross, is_left, is_negative, is_zero, plus_cross};
use crate::told::Told;
use exact_geom::{Frac, vector};
use plane_spec::Point;
use sight_core::in_cone;
use view_laws::{Front, Ground, Sector, View};

/// How many of the sectors have a place up to this one.
pub(crate) fn count_up_to(sectors: &[Sector], place: u64) -> usize
    requires order { AreInOrder sectors.now }
    ensures { IsCount sectors.now place result }
{
    sectors.partition_point(|sector: &Sector| sector.place <= place)
}

/// What is told between two sectors.
pub(crate) fn told_between(front: Option<Front>) -> Told
    ensures { radial result ≡ radial_between front }
{
    Told {
        front,
        ahead: None,
        behind: None,
    }
}

/// What the sector tells of a place that is its own, or comes before the next sector's.
pub(crate) fn told_by(sector: &Sector, place: u64) -> Told
    ensures { radial result ≡ radial_at sector.now place }
{
    if place == sector.place {
        Told {
            front: sector.on,
            ahead: sector.ahead,
            behind: sector.behind,
        }
    } else {
        told_between(sector.after)
    }
}

/// What the view tells of the direction whose place it is.
///
/// Cost: a search in the sectors.
pub(crate) fn told_at(view: &View, place: u64) -> Told
    requires order { AreInOrder view.now.sectors.items }
    ensures { radial result ≡ radial_by view.now.before view.now.sectors.items place }
{
    let count = count_up_to(&view.sectors, place);
    if count == 0 {
        return told_between(view.before);
    }
    told_by(&view.sectors[count - 1], place)
}

/// Whether the direction leads from what the station stands on into what is blocked.
///
/// Cost: at most three orientations.
#[tactic(auto, unfolding(view_laws::specs::Views::is_led_into))]
pub fn is_led_into(ground: Ground, d: Point) -> bool
    requires in_range { IsGroundInRange ground }
    requires d_in { IsDirection d }
    ensures { result ≡ views.is_led_into ground d }
{
    match ground {
        Ground::Free => false,
        Ground::Corner(corner) => in_cone(corner, d),
        Ground::Wall(wall) => is_left(vector(wall.a, wall.b), d),
    }
}

/// Positive on the station's side of the front's line.
fn side_at(front: Front, d: Point) -> i64
    requires front_to { IsFrontTo d front }
    requires d_in { IsDirection d }
    ensures { result ≡ views.side_at front d }
{
    plus_cross(front.spread, cross(front.edge, d))
}

fn is_hidden_by(front: Option<Front>, d: Point) -> bool
    requires front_to { IfSome front (IsFrontTo d) }
    requires d_in { IsDirection d }
    ensures { result ≡ views.is_hidden_by front d }
{
    match front {
        None => false,
        Some(front) => {
            is_negative(side_at(front, d)) || (is_zero(side_at(front, d)) && front.hides)
        }
    }
}

fn is_before_end_of(far: Option<u64>, d: Point) -> bool
    requires { IsDirection d }
    ensures { result ≡ views.is_before_end_of far d }
{
    match far {
        None => false,
        Some(far) => far < length(d),
    }
}

fn is_up_to_end_of(far: Option<u64>, d: Point) -> bool
    requires { IsDirection d }
    ensures { result ≡ views.is_up_to_end_of far d }
{
    match far {
        None => false,
        Some(far) => !(length(d) < far),
    }
}

/// Whether the point at `d` is seen.
#[tactic(auto, unfolding(view_laws::specs::Views::is_seen_by))]
pub(crate) fn is_seen_by(begins: bool, told: Told, d: Point) -> bool
    requires told_in { IsTold d told }
    requires d_in { IsDirection d }
    ensures { result ≡ views.is_seen_by begins (radial told) d }
{
    !(begins
        || (is_hidden_by(told.front, d)
            || (is_before_end_of(told.ahead, d) || is_up_to_end_of(told.behind, d))))
}

/// How far the ray reaches.
#[tactic(auto, unfolding(view_laws::specs::Views::stop_by))]
pub(crate) fn stop_by(begins: bool, told: Told, d: Point) -> Option<Frac>
    requires told_in { IsTold d told }
    requires d_in { IsDirection d }
    requires directed { IsDirected d }
    ensures { result ≡ option_map fractions.reduced (views.stop_by begins (radial told) d) }
{
    let blocked = nearer(corner_by(d, told.ahead), start_stop(begins));
    nearer(hit_by(d, told.front), blocked).map(|hit| hit.lowest())
}

/// The number of what the ray meets first.
pub(crate) fn number_by(front: Option<Front>) -> Option<u32>
    ensures { result ≡ views.number_by front }
{
    match front {
        None => None,
        Some(front) => Some(front.number),
    }
}
