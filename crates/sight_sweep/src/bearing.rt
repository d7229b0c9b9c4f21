//! Directions whose places are known.

ghost use Rattle.std.specs.Prelude.{◌≡◌};
ghost use Rattle.plane_spec.specs.Vectors.{InRange, IsDirected, IsDirection, vector};
ghost use Rattle.turn_laws.specs.Places as places;
ghost use Rattle.sight_sweep.specs.Answers.{IsOther};

use crate::places::place_of;
use exact_geom::{same_point, vector};
use plane_spec::Point;
use std::marker::Model;

/// A direction with its place, for those who ask for one direction many times. Contracts see the direction.
#[derive(Clone, Copy, Debug)]
pub struct Bearing {
    way: Point,
    place: u64,
}

impl Model for Bearing {
    ghost use Rattle.std.specs.Prelude.{◌≡◌};
    ghost use Rattle.plane_spec.specs.declared.Point.{Point as Direction};
    ghost use Rattle.turn_laws.specs.Places.{place_of};

    ghost Value = { Direction };

    ghost view = { λ a. a.way };

    ghost invariant = { λ a. a.place ≡ place_of a.way };

    ghost inverse = { λ d. record { way = d; place = place_of d } };
}

impl Bearing {
    /// The direction.
    fn way(&self) -> Point
        ensures { result ≡ self.now }
    {
        self.way
    }

    /// Its place.
    fn place(&self) -> u64
        ensures { result ≡ places.place_of self.now }
    {
        self.place
    }
}

/// The direction in which another point is.
pub(crate) fn way_between(p: Point, q: Point) -> Point
    requires p_in { InRange p }
    requires other { IsOther p q }
    ensures way { result ≡ vector p q }
    ensures direction { IsDirection result }
    ensures directed { IsDirected result }
{
    vector(p, q)
}

/// The direction in which another point is, with its place.
///
/// Cost: one division.
pub fn bearing_between(p: Point, q: Point) -> Bearing
    requires p_in { InRange p }
    requires other { IsOther p q }
    ensures { result ≡ vector p q }
{
    let way = way_between(p, q);
    Bearing {
        way,
        place: place_of(way),
    }
}

/// The place of a direction, without a division where the bearing is its own.
pub(crate) fn place_by(bearing: Option<Bearing>, d: Point) -> u64
    requires d_in { IsDirection d }
    requires directed { IsDirected d }
    ensures { result ≡ places.place_of d }
{
    match bearing {
        None => place_of(d),
        Some(known) => {
            if same_point(known.way(), d) {
                known.place()
            } else {
                place_of(d)
            }
        }
    }
}
