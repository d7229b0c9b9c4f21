//! One triangle of an isovist.

use exact_geom::{Frac, RPoint};
use std::marker::Model;

/// A triangle of an isovist: its corners are the point that sees, `from` and `to`, counterclockwise.
#[derive(Clone, Copy, Debug)]
pub struct Triangle {
    /// Where the far side begins.
    pub from: RPoint,
    /// Where the far side ends.
    pub to: RPoint,
    /// Twice the area, in the plan's own unit.
    pub doubled_area: Frac,
    /// The number of the wall or screen that the far side is a part of: walls are numbered from 0 on, and then come the screens.
    pub wall: u32,
}

impl Model for Triangle {
    ghost use Rattle.sight_spec.specs.Isovist.{Triangle as TriangleParts};

    ghost Value = { TriangleParts };

    ghost view = { λ a. record { from = a.from; to = a.to; doubled_area = a.doubled_area; wall = a.wall } };

    ghost inverse = { λ t. record { from = t.from; to = t.to; doubled_area = t.doubled_area; wall = t.wall } };
}
