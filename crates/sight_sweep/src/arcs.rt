//! The directions that are looked in.

ghost use Rattle.std.specs.Prelude.{◌≡◌};
ghost use Rattle.plane_spec.specs.Vectors.{IsDirection, IsDirected};
ghost use Rattle.view_laws.specs.Views as views;
ghost use Rattle.sight_sweep.specs.Arcs as arcs;
ghost use Rattle.sight_sweep.specs.Arcs.{IsArc};

use crate::products::{is_left, is_upper};
use plane_spec::Point;
use view_laws::Arc;

/// The direction in which the round begins.
pub(crate) fn start_of(arc: Arc) -> Point
    requires { IsArc arc }
    ensures value { result ≡ arcs.start_of arc }
    ensures direction { IsDirection result }
    ensures directed { IsDirected result }
{
    match arc {
        Arc::All => Point { x: 1, y: 0 },
        Arc::Later => Point { x: 1, y: 0 },
        Arc::Between(first, _last) => first,
    }
}

/// Whether the direction is one of the arc.
#[tactic(auto, unfolding(view_laws::specs::Views::is_in_arc))]
pub(crate) fn is_in_arc(arc: Arc, d: Point) -> bool
    requires arc { IsArc arc }
    requires d_in { IsDirection d }
    ensures { result ≡ views.is_in_arc arc d }
{
    match arc {
        Arc::All => true,
        Arc::Later => is_upper(d),
        Arc::Between(first, last) => is_upper(d) && (!is_left(d, first) && !is_left(last, d)),
    }
}
