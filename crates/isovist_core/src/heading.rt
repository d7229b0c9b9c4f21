//! A direction in which a corner lies.

ghost use Rattle.std.specs.Prelude.{◌≡◌};
ghost use Rattle.plane_spec.specs.Vectors.{IsDirected};
ghost use Rattle.turn_laws.specs.Places.{place_of};
ghost use Rattle.isovist_core.specs.Steps.{IsStep};

use plane_spec::Point;

/// The vector from the point that sees to a corner elsewhere, with its place on the circle. It is small enough that the
/// sum of two is a direction.
#[derive(Clone, Copy, Debug)]
pub(crate) struct Heading {
    pub(crate) step: Point,
    pub(crate) place: u64,
    ghost small: { IsStep step },
    ghost directed: { IsDirected step },
    ghost placed: { place ≡ place_of step },
}
