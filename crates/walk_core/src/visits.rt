//! The visits of a graph's nodes.

ghost use Rattle.std.specs.Prelude.{◌≡◌, ◌+◌, ◌*◌, ◌<◌, ◌≤◌, All, IfOk, length};
ghost use Rattle.std.specs.List.{sum};
ghost use Rattle.vga_grid.specs.Rows.{graph_of};
ghost use Rattle.walk_spec.specs.declared.TheConstants.{MAX_WALKERS, MAX_WALK_STEPS};
ghost use Rattle.walk_spec.specs.Walks.{visits_of};

use crate::neighbours::Neighbours;
use crate::workers::walk_all;
use std::alloc::Global;
use std::thread::Threads;
use text_spec::NoMemory;
use vga_grid::BitGraph;
use walk_spec::WalkSpec;

/// How often walkers visit each node of a graph, by its number: the same for every number of workers. Each walker begins
/// at one of the starting points and makes all its steps; the start is a visit. The starting points stand in the order
/// in which they are drawn from. Where no thread can be made the workers work one after the other.
///
/// Cost: one pass over the rows of the graph, and for each step a draw and one neighbour looked up. Memory: two bytes for
/// each neighbour of each node, and a count for each node and worker.
pub fn walk<R: Threads + Sync>(
    rt: &R,
    alloc: Global,
    graph: &BitGraph,
    starts: &[u32],
    spec: &WalkSpec,
    workers: u32,
) -> Result<Vec<u64>, NoMemory>
    requires some { 0 < length starts.now }
    requires nodes { All (λ start. start < graph.now.count) starts.now }
    requires walkers { spec.now.walkers ≤ MAX_WALKERS }
    requires steps { spec.now.steps ≤ MAX_WALK_STEPS }
    requires workers { 0 < workers }
    ensures visits { IfOk result (λ visits. visits.items ≡ visits_of (graph_of graph.now) starts.now spec.now) }
    ensures sum { IfOk result (λ visits. sum visits.items ≡ spec.now.walkers * (spec.now.steps + 1)) }
{
    let lists = Neighbours::of_graph(alloc, graph)?;
    walk_all(rt, alloc, &lists, starts, spec, 0, spec.walkers, workers)
}
