//! The line of a pair of numbered points.

ghost use Rattle.std.specs.Prelude.{IfSome, ◌≡◌, ◌<◌, length};
ghost use Rattle.exact_geom.specs.Parts.{HasRPointParts, HasStopParts};
ghost use Rattle.plane_spec.specs.Vectors as vectors;
ghost use Rattle.plane_spec.specs.Vectors.{InRange};
ghost use Rattle.sight_spec.specs.Axial as axial;
ghost use Rattle.axial_lines.specs.Found as found;
ghost use Rattle.axial_lines.specs.Looks.{end_at};

use crate::line::AxialLine;
use crate::outlooks::Outlooks;
use exact_geom::{Frac, RPoint, vector};
use plane_spec::Point;
use sight_core::Scene;

/// Where the line from `q` through `p` ends beyond `p`, by the stop there.
fn end_by(q: Point, p: Point, stop: &Option<Frac>) -> RPoint
    requires q_in { InRange q }
    requires p_in { InRange p }
    requires stop_in { IfSome stop.now HasStopParts }
    ensures end { result ≡ axial.end_by p (vectors.vector q p) stop.now }
    ensures within { HasRPointParts result }
{
    match stop {
        None => RPoint::at(p),
        Some(t) => RPoint::along(p, vector(q, p), t),
    }
}

/// The line of the points at two places, where they see each other.
pub(crate) fn seen_line(scene: &Scene, outlooks: &Outlooks, i: usize, j: usize) -> Option<AxialLine>
    requires of_scene { outlooks.now.scene ≡ scene.now }
    requires i_in { i < length outlooks.now.ends }
    requires j_in { j < length outlooks.now.ends }
    ensures line { result ≡ found.seen_line scene.now (end_at outlooks.now.ends i, end_at outlooks.now.ends j) }
    ensures from_within { IfSome result (λ line. HasRPointParts line.from) }
    ensures to_within { IfSome result (λ line. HasRPointParts line.to) }
{
    let (first, second) = (outlooks.end(i), outlooks.end(j));
    let (p, q) = (first.1, second.1);
    match outlooks.stops_of_pair(scene, i, j) {
        None => None,
        Some((before, after)) => Some(AxialLine {
            first: first.0,
            second: second.0,
            from: end_by(q, p, &before),
            to: end_by(p, q, &after),
        }),
    }
}
