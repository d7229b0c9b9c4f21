//! Directions of corners as directions of rays.

ghost use Rattle.std.specs.Prelude.{◌≡◌};
ghost use Rattle.plane_spec.specs.Vectors.{IsDirection};

use crate::heading::Heading;
use plane_spec::Point;

/// The vector itself, which is a direction.
pub(crate) fn way_to(heading: &Heading) -> Point
    ensures value { result ≡ heading.now.step }
    ensures direction { IsDirection result }
{
    heading.step
}
