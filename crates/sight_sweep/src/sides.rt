//! How walls and screens are seen from the station, and on which side of them points lie.

ghost use Rattle.std.specs.Prelude.{◌≡◌, ◌&&◌, IfSome, int_lt, pos, ◌<ℤ◌};
ghost use Rattle.std.specs.Option.{option_map};
ghost use Rattle.plane_spec.specs.Vectors.{IsDirection, InRange, cross_of, vector};
ghost use Rattle.plane_spec.specs.Segments.{IsSegmentInRange};
ghost use Rattle.front_laws.specs.Seen.{side_of, seen_of};
ghost use Rattle.sight_sweep.specs.Actives.{seen, front};

use crate::blocker::Blocker;
use crate::products::{cross, is_negative, is_positive, plus_cross};
use exact_geom::vector;
use plane_spec::{Point, Segment as Wall};
use view_laws::Front;

impl Blocker {
    /// Positive on the station's side of the blocker's line, negative behind it.
    pub(crate) fn side(&self, c: Point) -> i64
        requires { IsDirection c }
        ensures { result ≡ side_of (seen self.now) c }
    {
        plus_cross(self.spread, cross(self.edge, c))
    }

    /// What is told of it where it is seen first.
    pub(crate) fn front(&self) -> Front
        ensures { result ≡ front self.now }
    {
        Front {
            edge: self.edge,
            spread: self.spread,
            number: self.number,
            hides: self.hides,
        }
    }
}

/// A blocker between these ends.
fn blocker(from: Point, to: Point, edge: Point, number: u32, hides: bool) -> Blocker
    requires from_in { IsDirection from }
    requires to_in { IsDirection to }
    requires edge_in { IsDirection edge }
    requires edge_is { edge ≡ vector from to }
    requires up { pos 0 <ℤ cross_of from to }
    ensures seen { seen result ≡ record { from = from; to = to } }
    ensures number { result.number ≡ number }
    ensures hides { result.hides ≡ hides }
{
    Blocker {
        from,
        to,
        edge,
        spread: cross(from, to),
        number,
        hides,
    }
}

/// The wall or screen as it is seen from `p`, or `None` where it is in line with `p`.
pub(crate) fn seen_from(p: Point, line: &Wall, number: u32, is_wall: bool) -> Option<Blocker>
    requires p_in { InRange p }
    requires line_in { IsSegmentInRange line.now }
    ensures seen { option_map seen result ≡ seen_of p line.now }
    ensures number { IfSome result (λ b. b.number ≡ number) }
    ensures hides { IfSome result (λ b. b.hides
        ≡ (is_wall && int_lt (pos 0) (cross_of (vector p line.now.a) (vector p line.now.b)))) }
{
    let (a, b) = (vector(p, line.a), vector(p, line.b));
    let spread = cross(a, b);
    if is_positive(spread) {
        Some(blocker(a, b, vector(line.a, line.b), number, is_wall))
    } else if is_negative(spread) {
        Some(blocker(b, a, vector(line.b, line.a), number, false))
    } else {
        None
    }
}
