//! The pieces of the routes of a plan.

ghost use Rattle.std.specs.Prelude.{◌≡◌, ◌++◌, IfOk, IsTrue, OnOk, All};
ghost use Rattle.plan_spec.specs.Accepted.{is_sound};
ghost use Rattle.plan_spec.specs.Ranges.{IsProperSegmentInRange};
ghost use Rattle.route_spec.specs.Routes.{ArePiecesOfPlan, pieces_of, pieces_of_route};

use crate::cuts::{cuts, point_of};
use crate::piece::Piece;
use exact_geom::{RPoint, vector};
use plan_check::Plan;
use plan_spec::Route;
use std::alloc::Global;
use text_spec::NoMemory;

/// The routes of a plan.
fn routes(alloc: Global, plan: &Plan) -> Result<Vec<Route>, NoMemory>
    ensures value { IfOk result (λ routes. routes.items ≡ plan.now.routes) }
    ensures sound { IsTrue (is_sound plan.now) }
{
    let mut routes = Vec::new(alloc);
    for k in 0..plan.routes() {
        routes.push(plan.route(k))?;
    }
    Ok(routes)
}

/// Appends the pieces of a route.
fn append_route(
    alloc: Global,
    pieces: &mut Vec<Piece>,
    routes: &[Route],
    number: u32,
    route: &Route,
) -> Result<(), NoMemory>
    requires route { IsProperSegmentInRange route.now.from route.now.to }
    requires routes { All (λ q. IsProperSegmentInRange q.from q.to) routes.now }
    ensures { OnOk result (pieces.new.items ≡ pieces.old.items ++ pieces_of_route routes.now (number, route.now)) }
{
    let direction = vector(route.from, route.to);
    let mut from = RPoint::at(route.from);
    let cuts = cuts(alloc, routes, route)?;
    for cut in &cuts {
        let to = point_of(route.from, direction, cut);
        pieces.push(Piece {
            route: number,
            from,
            to,
            direction,
        })?;
        from = to;
    }
    pieces.push(Piece {
        route: number,
        from,
        to: RPoint::at(route.to),
        direction,
    })?;
    Ok(())
}

/// The pieces of the routes of a plan: each route is cut at the points that it shares with others, but for its own
/// ends. They are numbered by route in plan order, and along each route from its first point.
///
/// Cost: one test for each ordered pair of routes, and a binary search for each cut.
///
/// Source: routes as a segment map after Turner (2007), here of exact points.
pub fn pieces(alloc: Global, plan: &Plan) -> Result<Vec<Piece>, NoMemory>
    ensures value { IfOk result (λ pieces. pieces.items ≡ pieces_of plan.now) }
    ensures of_plan { IfOk result (λ pieces. ArePiecesOfPlan pieces.items) }
{
    let routes = routes(alloc, plan)?;
    let mut pieces = Vec::new(alloc);
    for (number, route) in routes.iter().enumerate() {
        append_route(alloc, &mut pieces, &routes, number as u32, route)?;
    }
    Ok(pieces)
}
