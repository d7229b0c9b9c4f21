//! Walkers over small graphs and over a trial plan, with the visits that another program counted.

ghost use Rattle.std.specs.Prelude.{◌<◌, All, IfOk};

use plan_check::{Plan, check};
use sight_core::scene_of;
use std::alloc::Global;
use std::process::Abort;
use std::test::Fail;
use std::thread::Threads;
use trial_gen::trial;
use vga_grid::{BitGraph, MAX_NODES, graph_naive, open_points};
use walk_core::{MAX_WALK_STEPS, MAX_WALKERS, WalkSpec, walk};

/// Walkers over a graph, and how often they visit each node.
#[derive(Clone, Copy)]
struct Case {
    nodes: u32,
    edges: &'static [(u32, u32)],
    starts: &'static [u32],
    spec: WalkSpec,
    visits: &'static [u64],
}

/// Three nodes that are joined with each other, a fourth that is joined with one of them, and a fifth alone.
const DRAWN: &[(u32, u32)] = &[(0, 1), (0, 2), (1, 2), (1, 3)];

/// The visits of the points of the trial plan of 30 boxes, each by its number: their sum.
const OVER_THE_TRIAL_PLAN: u64 = 414_940;

fn what(seed: u64, walkers: u32, steps: u32) -> WalkSpec {
    WalkSpec {
        seed,
        walkers,
        steps,
    }
}

/// The graph of so many nodes with these edges.
fn graph_with(rt: &impl Abort, alloc: Global, n: u32, edges: &[(u32, u32)]) -> BitGraph {
    assert!(rt; n <= MAX_NODES);
    let mut graph = match BitGraph::empty(alloc, n) {
        Ok(graph) => graph,
        Err(_) => panic!(rt; "there is memory"),
    };
    for (i, j) in edges {
        let (i, j) = (*i, *j);
        assert!(rt; i != j && i < graph.len() && j < graph.len());
        graph.join_pair(i, j);
    }
    graph
}

/// Those of the numbers that are below `n`.
fn numbers_below(alloc: Global, n: u32, numbers: &[u32]) -> Result<Vec<u32>, Fail>
    ensures { IfOk result (λ below. All (λ number. number < n) below.items) }
{
    let mut below = Vec::new(alloc);
    for number in numbers {
        if *number < n {
            below.push(*number)?;
        }
    }
    Ok(below)
}

/// The visits by so many workers.
fn visits(
    rt: &(impl Abort + Threads + Sync),
    alloc: Global,
    graph: &BitGraph,
    starts: &[u32],
    spec: WalkSpec,
    workers: u32,
) -> Result<Vec<u64>, Fail> {
    let below = numbers_below(alloc, graph.len(), starts)?;
    assert!(rt; !below.is_empty() && below.len() == starts.len() && workers > 0);
    assert!(rt; spec.walkers <= MAX_WALKERS && spec.steps <= MAX_WALK_STEPS);
    Ok(walk(rt, alloc, graph, &below, &spec, workers)?)
}

/// The graph's nodes are visited so often, by 1, 3 and 64 workers.
fn are_visited(rt: &(impl Abort + Threads + Sync), alloc: Global, case: &Case) -> Result<(), Fail> {
    let graph = graph_with(rt, alloc, case.nodes, case.edges);
    for workers in [1u32, 3, 64] {
        let found = visits(rt, alloc, &graph, case.starts, case.spec, workers)?;
        assert!(rt; found.as_slice() == case.visits, "{workers} workers");
    }
    Ok(())
}

/// Walkers over the five nodes of the drawing.
fn over_the_drawing(starts: &'static [u32], spec: WalkSpec, visits: &'static [u64]) -> Case {
    Case {
        nodes: 5,
        edges: DRAWN,
        starts,
        spec,
        visits,
    }
}

/// Walkers that go to and fro between two points, and walkers on one point alone.
#[test]
fn one_point_and_two_are_visited(rt: HostRuntime) -> Result<(), Fail> {
    let two = Case {
        nodes: 2,
        edges: &[(0, 1)],
        starts: &[0, 1],
        spec: what(99, 4, 3),
        visits: &[8, 8],
    };
    are_visited(&rt, rt.alloc(), &two)?;
    let one = Case {
        nodes: 1,
        edges: &[],
        starts: &[0],
        spec: what(0, 3, 4),
        visits: &[15],
    };
    are_visited(&rt, rt.alloc(), &one)
}

/// Walkers over the drawing, from every node and from some; of no step, and none at all.
#[test]
fn a_drawing_is_visited(rt: HostRuntime) -> Result<(), Fail> {
    let alloc = rt.alloc();
    let all = over_the_drawing(&[0, 1, 2, 3, 4], what(42, 3, 4), &[5, 5, 4, 1, 0]);
    are_visited(&rt, alloc, &all)?;
    let stay = over_the_drawing(&[0, 1, 2, 3, 4], what(1, 4, 3), &[2, 3, 3, 0, 8]);
    are_visited(&rt, alloc, &stay)?;
    let still = over_the_drawing(&[2, 4], what(7, 1000, 0), &[0, 0, 507, 0, 493]);
    are_visited(&rt, alloc, &still)?;
    let none = over_the_drawing(&[0, 1], what(7, 0, 9), &[0, 0, 0, 0, 0]);
    are_visited(&rt, alloc, &none)
}

/// The trial plan of 30 boxes.
fn trial_plan(rt: &impl Abort, alloc: Global) -> Result<Plan, Fail> {
    let data = trial(alloc, 30)?;
    match check(alloc, &data) {
        Ok(plan) => Ok(plan),
        Err(_) => panic!(rt; "it is accepted"),
    }
}

/// The numbers of the open points of a plan.
fn open_numbers(alloc: Global, plan: &Plan) -> Result<Vec<u32>, Fail> {
    let mut numbers = Vec::new(alloc);
    for (number, _) in open_points(alloc, plan)? {
        numbers.push(number)?;
    }
    Ok(numbers)
}

/// The sum of the visits, and the same with each visit by its node's number.
fn sums_of(visits: &[u64]) -> (u64, u64) {
    let mut sum = 0u64;
    let mut by_number = 0u64;
    for k in 0..visits.len() {
        sum = sum.wrapping_add(visits[k]);
        by_number = by_number.wrapping_add(visits[k].wrapping_mul(k as u64));
    }
    (sum, by_number)
}

/// A hundred walkers of 50 steps over the trial plan of 30 boxes: 1, 2 and 64 workers count the same, 5100 in all.
#[test]
fn each_number_of_workers_counts_the_same(rt: HostRuntime) -> Result<(), Fail> {
    let alloc = rt.alloc();
    let plan = trial_plan(&rt, alloc)?;
    let graph = graph_naive(alloc, &plan, &scene_of(alloc, &plan)?)?;
    let starts = open_numbers(alloc, &plan)?;
    let alone = visits(&rt, alloc, &graph, &starts, what(7, 100, 50), 1)?;
    assert_eq!(rt; sums_of(&alone), (5100, OVER_THE_TRIAL_PLAN));
    let two = visits(&rt, alloc, &graph, &starts, what(7, 100, 50), 2)?;
    assert_eq!(rt; two.as_slice(), alone.as_slice());
    let many = visits(&rt, alloc, &graph, &starts, what(7, 100, 50), 64)?;
    assert_eq!(rt; many.as_slice(), alone.as_slice());
    Ok(())
}
