//! Graphs whose depths and measures are known from elsewhere: those of worked plans, a path, a star, and small ones.

use exact_geom::Frac;
use std::alloc::Global;
use std::process::Abort;
use std::thread::Threads;
use step_depth::{depths, measures};
use vga_grid::{BitGraph, MAX_NODES};

/// What is expected at a node: connectivity, reach, total depth, mean depth and relative asymmetry.
type Expected = (u32, u32, u64, Option<(i128, i128)>, Option<(i128, i128)>);

/// What is expected at a node that reaches none but itself.
const ALONE: Expected = (0, 1, 0, None, None);

fn empty(rt: &impl Abort, alloc: Global, n: u32) -> BitGraph {
    assert!(rt; n <= MAX_NODES);
    match BitGraph::empty(alloc, n) {
        Ok(graph) => graph,
        Err(_) => panic!(rt; "there is memory"),
    }
}

fn join(rt: &impl Abort, graph: &mut BitGraph, i: u32, j: u32) {
    assert!(rt; i != j && i < graph.len() && j < graph.len());
    graph.join_pair(i, j);
}

/// The graph of so many nodes with these edges.
fn graph_with(rt: &impl Abort, alloc: Global, n: u32, edges: &[(u32, u32)]) -> BitGraph {
    let mut graph = empty(rt, alloc, n);
    for (i, j) in edges {
        join(rt, &mut graph, *i, *j);
    }
    graph
}

fn parts_of(fraction: Option<Frac>) -> Option<(i128, i128)> {
    match fraction {
        Some(fraction) => Some((fraction.num(), fraction.den())),
        None => None,
    }
}

/// The first nodes have these measures, by one worker and by several.
fn measure_as(
    rt: &(impl Abort + Threads + Sync),
    alloc: Global,
    graph: &BitGraph,
    expected: &[Expected],
) {
    measure_by(rt, alloc, graph, 1, expected);
    measure_by(rt, alloc, graph, 5, expected);
}

/// The first nodes have these measures, by so many workers.
fn measure_by(
    rt: &(impl Abort + Threads + Sync),
    alloc: Global,
    graph: &BitGraph,
    workers: usize,
    expected: &[Expected],
) {
    let found = match measures(rt, alloc, graph, workers) {
        Ok(found) => found,
        Err(_) => panic!(rt; "there is memory"),
    };
    assert!(rt; found.len() == graph.len() as usize && expected.len() <= found.len());
    for k in 0..expected.len() {
        let (m, e) = (found[k], expected[k]);
        assert!(rt;
            m.connectivity == e.0 && m.reached == e.1 && m.total == e.2,
            "node {k}"
        );
        assert!(rt;
            parts_of(m.mean) == e.3 && parts_of(m.ra) == e.4,
            "node {k}"
        );
    }
}

/// The first nodes have these depths from `i`.
fn lie_at(rt: &impl Abort, alloc: Global, graph: &BitGraph, i: u32, expected: &[Option<u32>]) {
    assert!(rt; i < graph.len());
    let found = match depths(alloc, graph, i) {
        Ok(found) => found,
        Err(_) => panic!(rt; "there is memory"),
    };
    assert!(rt; found.len() == graph.len() as usize && expected.len() <= found.len());
    for k in 0..expected.len() {
        assert!(rt; found[k] == expected[k], "node {k}");
    }
}

/// Four points that all see each other; eight round a closed one; four of which two don't see each other; a flat of two
/// rooms, where one point sees nobody.
#[test]
fn worked_plans_have_their_measures(rt: HostRuntime) {
    let alloc = rt.alloc();
    let all = [(0, 1), (0, 2), (0, 3), (1, 2), (1, 3), (2, 3)];
    let corners = graph_with(&rt, alloc, 4, &all);
    let corner = (3, 4, 3, Some((1, 1)), Some((0, 1)));
    measure_as(&rt, alloc, &corners, &[corner, corner, corner, corner]);

    let round = [
        (0, 1),
        (0, 2),
        (0, 3),
        (0, 5),
        (0, 6),
        (0, 7),
        (1, 2),
        (1, 3),
        (1, 5),
        (1, 6),
        (1, 8),
        (2, 3),
        (2, 5),
        (2, 7),
        (2, 8),
        (3, 6),
        (3, 7),
        (3, 8),
        (5, 6),
        (5, 7),
        (5, 8),
        (6, 7),
        (6, 8),
        (7, 8),
    ];
    let nine = graph_with(&rt, alloc, 9, &round);
    let open = (6, 8, 8, Some((8, 7)), Some((1, 21)));
    measure_as(
        &rt,
        alloc,
        &nine,
        &[open, open, open, open, ALONE, open, open, open, open],
    );

    let grazed = graph_with(&rt, alloc, 4, &[(0, 1), (0, 2), (1, 2), (1, 3), (2, 3)]);
    let far = (2, 4, 4, Some((4, 3)), Some((1, 3)));
    measure_as(&rt, alloc, &grazed, &[far, corner, corner, far]);
    lie_at(
        &rt,
        alloc,
        &grazed,
        0,
        &[Some(0), Some(1), Some(1), Some(2)],
    );

    let rooms = graph_with(&rt, alloc, 4, &[(0, 1), (1, 3)]);
    let end = (1, 3, 3, Some((3, 2)), Some((1, 1)));
    let middle = (2, 3, 2, Some((1, 1)), Some((0, 1)));
    measure_as(&rt, alloc, &rooms, &[end, middle, ALONE, end]);
    lie_at(&rt, alloc, &rooms, 2, &[None, None, Some(0), None]);
}

/// One node, nodes without edges, and two parts.
#[test]
fn small_graphs_have_their_measures(rt: HostRuntime) {
    let alloc = rt.alloc();
    measure_as(&rt, alloc, &empty(&rt, alloc, 1), &[ALONE]);
    measure_as(&rt, alloc, &empty(&rt, alloc, 65), &[ALONE, ALONE]);
    let parts = graph_with(&rt, alloc, 5, &[(0, 1), (2, 3), (3, 4), (4, 2)]);
    let pair = (1, 2, 1, Some((1, 1)), None);
    let triangle = (2, 3, 2, Some((1, 1)), Some((0, 1)));
    measure_as(
        &rt,
        alloc,
        &parts,
        &[pair, pair, triangle, triangle, triangle],
    );
    lie_at(
        &rt,
        alloc,
        &parts,
        3,
        &[None, None, Some(1), Some(0), Some(1)],
    );
}

/// A path of so many nodes, each joined to the next.
fn path(rt: &impl Abort, alloc: Global, n: u32) -> BitGraph {
    let mut graph = empty(rt, alloc, n);
    for i in 1..n {
        join(rt, &mut graph, i - 1, i);
    }
    graph
}

/// From the end of a path the depths are 1, 2, 3 and so on: with 64 nodes in one word, with 65 past it, and with 300 so
/// many that several workers share them. In a star of 4096 nodes all others lie at 1 from the middle, and all but the
/// middle at 2 from the others.
#[test]
fn paths_and_stars_have_their_measures(rt: HostRuntime) {
    let alloc = rt.alloc();
    let end = (1, 64, 2016, Some((32, 1)), Some((1, 1)));
    measure_as(&rt, alloc, &path(&rt, alloc, 64), &[end]);
    let longer_end = (1, 65, 2080, Some((65, 2)), Some((1, 1)));
    measure_as(&rt, alloc, &path(&rt, alloc, 65), &[longer_end]);
    let longest_end = (1, 300, 44850, Some((150, 1)), Some((1, 1)));
    let beside_it = (2, 300, 44552, Some((44552, 299)), Some((297, 299)));
    measure_as(
        &rt,
        alloc,
        &path(&rt, alloc, 300),
        &[longest_end, beside_it],
    );
    let mut star = empty(&rt, alloc, 4096);
    for i in 1..4096u32 {
        join(&rt, &mut star, 0, i);
    }
    let middle = (4095, 4096, 4095, Some((1, 1)), Some((0, 1)));
    let other = (1, 4096, 8189, Some((8189, 4095)), Some((2, 4095)));
    measure_as(&rt, alloc, &star, &[middle, other, other]);
}
