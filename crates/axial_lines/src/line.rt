//! One axial line.

use exact_geom::RPoint;
use std::marker::Model;

/// The line through two corners of a scene, as far as nothing stops it.
#[derive(Clone, Copy, Debug)]
pub struct AxialLine {
    /// The number of the first corner, in the order of the scene's corners, from 0.
    pub first: u32,
    /// The number of the second corner, above that of the first.
    pub second: u32,
    /// Where the line ends beyond the first corner.
    pub from: RPoint,
    /// Where it ends beyond the second corner.
    pub to: RPoint,
}

impl Model for AxialLine {
    ghost use Rattle.sight_spec.specs.Axial.{AxialLine as LineParts};

    ghost Value = { LineParts };

    ghost view = { λ a. record { first = a.first; second = a.second; from = a.from; to = a.to } };

    ghost inverse = { λ l. record { first = l.first; second = l.second; from = l.from; to = l.to } };
}
