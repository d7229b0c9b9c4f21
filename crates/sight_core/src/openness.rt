//! Which points are open.

ghost use Rattle.std.specs.Prelude.{◌≡◌};
ghost use Rattle.std.specs.List.{list_any};
ghost use Rattle.plane_spec.specs.Vectors.{InRange};
ghost use Rattle.sight_spec.specs.Sight as sight;

use exact_geom::{inside, on_border};
use plan_check::Plan;
use plane_spec::Point;

/// Whether `x` is inside an obstacle.
fn is_in_obstacle(plan: &Plan, x: Point) -> bool
    requires { InRange x }
    ensures { result ≡ list_any (sight.has_inside x) plan.now.obstacles }
{
    for k in 0..plan.obstacles() {
        if inside(x, plan.obstacle(k)) {
            return true;
        }
    }
    false
}

/// Whether `x` is open: on or inside the outer polygon, and inside no obstacle. A point on the border of an obstacle is
/// open.
///
/// Cost: one pass over the corners of the plan, up to an obstacle that `x` is inside of.
#[tactic(auto, unfolding(sight_spec::specs::Sight::is_open))]
pub fn is_open(plan: &Plan, x: Point) -> bool
    requires { InRange x }
    ensures { result ≡ sight.is_open plan.now x }
{
    let outer = plan.outer();
    (on_border(x, outer) || inside(x, outer)) && !is_in_obstacle(plan, x)
}
