//! Segments: what lies on one, and what two of them share.

ghost use Rattle.std.specs.Prelude.{◌≡◌};
ghost use Rattle.plane_spec.specs.Vectors.{InRange};
ghost use Rattle.plane_spec.specs.Segments.{cross_properly, do_touch, is_between, is_on_segment};

use crate::compare::{are_opposite, is_zero};
use crate::products::orient;
use plane_spec::Point;

/// Whether `m` is from the smaller of `a` and `b` to the greater.
fn between(m: i64, a: i64, b: i64) -> bool
    ensures { result ≡ is_between m a b }
{
    (a <= m && m <= b) || (b <= m && m <= a)
}

/// Whether `x` lies on the closed segment from `a` to `b`, which may be one point.
///
/// Cost: one orientation.
pub fn on_segment(x: Point, a: Point, b: Point) -> bool
    requires x_in { InRange x }
    requires a_in { InRange a }
    requires b_in { InRange b }
    ensures { result ≡ is_on_segment x a b }
{
    is_zero(orient(a, b, x)) && between(x.x, a.x, b.x) && between(x.y, a.y, b.y)
}

/// Whether the segments `ab` and `cd` cross properly: the ends of each lie strictly on different sides of the other.
///
/// Cost: four orientations.
pub fn cross_properly(a: Point, b: Point, c: Point, d: Point) -> bool
    requires a_in { InRange a }
    requires b_in { InRange b }
    requires c_in { InRange c }
    requires d_in { InRange d }
    ensures { result ≡ cross_properly a b c d }
{
    are_opposite(orient(a, b, c), orient(a, b, d)) && are_opposite(orient(c, d, a), orient(c, d, b))
}

/// Whether the closed segments `ab` and `cd` share a point: they cross properly, or an end of one lies on the other.
///
/// Cost: at most eight orientations.
#[tactic(auto, unfolding(plane_spec::specs::Segments::do_touch))]
pub fn touch(a: Point, b: Point, c: Point, d: Point) -> bool
    requires a_in { InRange a }
    requires b_in { InRange b }
    requires c_in { InRange c }
    requires d_in { InRange d }
    ensures { result ≡ do_touch a b c d }
{
    cross_properly(a, b, c, d)
        || on_segment(a, c, d)
        || on_segment(b, c, d)
        || on_segment(c, a, b)
        || on_segment(d, a, b)
}
