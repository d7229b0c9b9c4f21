//! What is found in a session before it is printed.

ghost use Rattle.std.specs.Prelude.{◌≡◌, ◌<◌, ◌==◌, IfOk, IsTrue, length, not, position};
ghost use Rattle.std.specs.Option.{IfSome};
ghost use Rattle.plane_spec.specs.Vectors.{InRange};
ghost use Rattle.graph_spec.specs.Graphs.{measures_of_nodes};
ghost use Rattle.plan_spec.specs.Grid.{grid_points, number_of_point};
ghost use Rattle.sight_spec.specs.Scene.{scene_of};
ghost use Rattle.sight_spec.specs.Axial as axial;
ghost use Rattle.report_spec.specs.Replies.{has_too_many_lines};
ghost use Rattle.plan_answers.specs.Answered.{Keeps};

use axial_lines::LinesFault;
use line_graph::crossing_graph;
use plan_check::Plan;
use plan_edit::Session;
use plane_spec::Point;
use segment_core::Piece;
use std::alloc::Global;
use std::thread::Threads;
use step_depth::{Measure, measures};
use text_spec::NoMemory;
use vga_grid::Grid;

/// The number of the grid point that stands at `p`, or `None`. Where there is one, `p` is in range.
pub fn grid_point(plan: &Plan, p: Point) -> Option<u32>
    ensures number { result ≡ number_of_point plan.now.grid p }
    ensures below { IfSome result (λ k. k < length (grid_points plan.now.grid)) }
    ensures in_range { IfSome result (λ k. InRange p) }
{
    let grid = Grid::of(plan);
    let Some(number) = grid.number_at(p) else {
        return None;
    };
    // a grid says that its points are in range where one is read
    let _place = grid.place(number);
    Some(number)
}

/// Finds the axial lines of the plan, where they aren't kept. Whether they are few enough.
pub fn find_lines(alloc: Global, session: &mut Session) -> Result<bool, NoMemory>
    ensures few { IfOk result (λ few. has_too_many_lines (scene_of session.old.plan) ≡ not few) }
    ensures kept { IfOk result (λ few. IsTrue few → IsTrue session.new.keeps_lines) }
    ensures plan { session.new.plan ≡ session.old.plan }
    ensures keeps { Keeps session.old session.new }
{
    match session.make_lines(alloc) {
        Ok(()) => Ok(true),
        Err(LinesFault::TooManyLines) => Ok(false),
        Err(LinesFault::NoMemory) => Err(NoMemory),
    }
}

/// What is measured at the axial lines in their crossing graph.
pub fn line_measures(
    rt: &(impl Threads + Sync),
    alloc: Global,
    session: &Session,
) -> Result<Vec<Measure>, NoMemory>
    requires { IsTrue session.now.keeps_lines }
    ensures { IfOk result (λ ms. ms.items
        ≡ measures_of_nodes (axial.crossing_graph (axial.axial_lines (scene_of session.now.plan)))) }
{
    let graph = crossing_graph(alloc, session.scene(), session.lines())?;
    measures(rt, alloc, &graph, session.workers() as usize)
}

/// The number of the first piece of a route.
pub fn first_piece(pieces: &[Piece], route: usize) -> Option<usize>
    ensures first { result ≡ position (λ piece. piece.route == route) pieces.now }
    ensures below { IfSome result (λ k. k < length pieces.now) }
{
    pieces
        .iter()
        .position(|piece| piece.route as usize == route)
}
