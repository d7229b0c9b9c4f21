//! What is measured at each node of a graph, by one worker or by several.

ghost use Rattle.std.specs.Prelude.{◌≡◌, ℕ, ◌+◌, ◌-◌, ◌<◌, ◌≤◌, length, IfOk};
ghost use Rattle.std.specs.Thread.{IsSync};
ghost use Rattle.vga_grid.specs.Rows.{width, graph_of};
ghost use Rattle.graph_spec.specs.Graphs.{measures_of_nodes};
ghost use Rattle.step_depth.specs.Reached.{reaches_of, measures_from};

use crate::levels::spread;
use crate::measuring::{Measure, measure_each};
use crate::reach::Reach;
use rayon::current_num_threads;
use std::alloc::Global;
use std::thread::{Threads, join};
use text_spec::NoMemory;
use vga_grid::BitGraph;

/// What the nodes from `first` up to `end` reach, by one worker.
fn reaches_from(
    alloc: Global,
    graph: &BitGraph,
    first: u32,
    end: u32,
) -> Result<Vec<Reach>, NoMemory>
    requires order { first ≤ end }
    requires nodes { end ≤ graph.now.count }
    ensures { IfOk result (λ rs. rs.items ≡ reaches_of (graph_of graph.now) first (end - first)) }
{
    let width = (graph.len() as usize + 63) / 64;
    let mut known = vec![in alloc; 0u64; width]?;
    let mut front = vec![in alloc; 0u64; width]?;
    let mut left = vec![in alloc; 0u64; width]?;
    let mut next = vec![in alloc; 0u64; width]?;
    let mut rest = vec![in alloc; 0u64; width]?;
    let mut list = vec![in alloc; 0u32; width + 16]?;
    let mut reaches = Vec::new(alloc);
    for i in first..end {
        let reach = spread(
            graph, i, &mut known, &mut front, &mut left, &mut next, &mut rest, &mut list,
        );
        reaches.push(reach)?;
    }
    Ok(reaches)
}

/// The measures of the nodes from `first` up to `end`, by one worker.
fn measures_between(
    alloc: Global,
    graph: &BitGraph,
    first: u32,
    end: u32,
) -> Result<Vec<Measure>, NoMemory>
    requires order { first ≤ end }
    requires nodes { end ≤ graph.now.count }
    ensures { IfOk result (λ ms. ms.items ≡ measures_from (graph_of graph.now) first (end - first)) }
{
    let reaches = reaches_from(alloc, graph, first, end)?;
    measure_each(alloc, &reaches)
}

/// How many of the nodes are for `more` of the workers: their share.
fn share(nodes: u32, more: u32, workers: u32) -> u32
    requires { 0 < workers }
    ensures { result ≤ nodes }
{
    (nodes.saturating_mul(more) / workers).min(nodes)
}

/// The measures of the nodes from `first` up to `end`, by so many workers. This thread is one of them, since starting a
/// thread takes as long as many searches in a dense graph.
fn measure_all<R: Threads + Sync>(
    rt: &R,
    alloc: Global,
    graph: &BitGraph,
    first: u32,
    end: u32,
    workers: u32,
) -> Result<Vec<Measure>, NoMemory>
    requires order { first ≤ end }
    requires nodes { end ≤ graph.now.count }
    requires workers { 0 < workers }
    ensures { IfOk result (λ ms. ms.items ≡ measures_from (graph_of graph.now) first (end - first)) }
{
    if workers == 1 {
        return measures_between(alloc, graph, first, end);
    }
    let fewer = workers / 2;
    let more = workers - fewer;
    let here = share(end - first, more, workers);
    let middle = first + here;
    let (left, right) = join(
        rt,
        move || -> Result<Vec<Measure>, NoMemory>
            requires { IsSync R.row × (first ≤ middle) × (middle ≤ graph.now.count) × (0 < more) }
            ensures { IfOk result (λ ms. ms.items
                ≡ measures_from (graph_of graph.entry.now) first (middle - first)) }
        { measure_all(rt, alloc, graph, first, middle, more) },
        move || -> Result<Vec<Measure>, NoMemory>
            requires { IsSync R.row × (middle ≤ end) × (end ≤ graph.now.count) × (0 < fewer) }
            ensures { IfOk result (λ ms. ms.items ≡ measures_from (graph_of graph.entry.now) middle (end - middle)) }
        { measure_all(rt, alloc, graph, middle, end, fewer) },
    );
    let mut measures = left?;
    let others = right?;
    measures.extend_from_slice(&others)?;
    Ok(measures)
}

/// How many workers there are for so many nodes: no more than processors, and one where the nodes are few.
fn workers_for(rt: &impl Threads, workers: usize, nodes: u32) -> u32
    ensures { 0 < result }
{
    if nodes < 256 {
        return 1;
    }
    (workers.min(current_num_threads(rt)).min(64) as u32).max(1)
}

/// The measures of each node, by so many workers, but by no more than there are processors, and by this thread alone
/// where there are fewer than 256 nodes: they are the same for every number of workers.
///
/// Cost: a search from each node, level by level (see [`depths`](crate::depths)), and two fractions in lowest terms.
/// Each worker has as many nodes, one after another; this thread is one of the workers.
/// Memory: besides the measures, six sets of nodes for each worker, and what its nodes reach.
///
/// Source: step depth, total and mean depth and relative asymmetry after Hillier and Hanson (1984); on visibility graphs
/// after Turner, Doxa, O'Sullivan and Penn (2001).
pub fn measures(
    rt: &(impl Threads + Sync),
    alloc: Global,
    graph: &BitGraph,
    workers: usize,
) -> Result<Vec<Measure>, NoMemory>
    ensures { IfOk result (λ ms. ms.items ≡ measures_of_nodes (graph_of graph.now)) }
{
    let n = graph.len();
    measure_all(rt, alloc, graph, 0, n, workers_for(rt, workers, n))
}
