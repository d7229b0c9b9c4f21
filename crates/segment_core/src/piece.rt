//! Pieces of routes.

use exact_geom::{Point, RPoint};
use std::marker::Model;

/// A part of a route between two cuts or ends, in the plan's own unit.
#[derive(Clone, Copy, Debug, PartialEq, Eq)]
pub struct Piece {
    /// The number of the route, counted from 0 in plan order.
    pub route: u32,
    /// Where the part begins, along the route.
    pub from: RPoint,
    /// Where it ends.
    pub to: RPoint,
    /// The vector from the route's first point to its second.
    pub direction: Point,
}

impl Model for Piece {
    ghost use Rattle.route_spec.specs.Routes.{Piece as PieceOfRoute};

    ghost Value = { PieceOfRoute };

    ghost view = { λ a. record { route = a.route; from = a.from; to = a.to; direction = a.direction } };

    ghost inverse = { λ p. record { route = p.route; from = p.from; to = p.to; direction = p.direction } };
}
