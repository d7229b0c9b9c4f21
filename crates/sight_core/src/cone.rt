//! The directions that lead from a corner into what is blocked.

ghost use Rattle.std.specs.Prelude.{◌≡◌};
ghost use Rattle.plane_spec.specs.Vectors.{IsDirection};
ghost use Rattle.plane_spec.specs.Cones.{IsCornerInRange, is_in_cone};

use exact_geom::{is_left_of_line, turns_left, vector};
use plane_spec::{Corner, Point};

/// Whether `d` leads from the corner into what is blocked: strictly left of both of its walls where the corner turns
/// left, and otherwise of at least one of them. No direction does so at the end of a screen.
///
/// Cost: at most three orientations.
#[tactic(auto, unfolding(plane_spec::specs::Cones::is_in_cone))]
pub fn in_cone(corner: Corner, d: Point) -> bool
    requires corner_in { IsCornerInRange corner }
    requires d_in { IsDirection d }
    ensures { result ≡ is_in_cone corner d }
{
    let before = turns_left(vector(corner.prev, corner.here), d);
    let after = turns_left(vector(corner.here, corner.next), d);
    if is_left_of_line(corner.prev, corner.here, corner.next) {
        before && after
    } else {
        before || after
    }
}
