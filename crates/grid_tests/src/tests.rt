//! Small graphs by their edges, and worked plans with the points of their grids and with who sees whom.

use exact_geom::same_point;
use plan_check::{GridSpec, Item, Items, Name, Plan, PlanData, Points, check};
use plane_spec::Point;
use sight_core::scene_of;
use std::alloc::Global;
use std::process::Abort;
use vga_grid::{BitGraph, Grid, MAX_NODES, graph_naive, open_points};

/// The graph of so many nodes with these edges.
fn graph_with(rt: &impl Abort, alloc: Global, n: u32, edges: &[(u32, u32)]) -> BitGraph {
    assert!(rt; n <= MAX_NODES);
    let mut graph = match BitGraph::empty(alloc, n) {
        Ok(graph) => graph,
        Err(_) => panic!(rt; "there is memory"),
    };
    for (i, j) in edges {
        let (i, j) = (*i, *j);
        assert!(rt; i != j && i < graph.len() && j < graph.len());
        graph.join_pair(i, j);
    }
    graph
}

/// The graph has these edges, in this order, and no others.
fn has_edges(rt: &impl Abort, graph: &BitGraph, expected: &[(u32, u32)]) {
    let mut k = 0usize;
    for (i, j) in graph.edges() {
        assert!(rt; k < expected.len(), "edge {i} {j}");
        assert!(rt; expected[k].0 == i && expected[k].1 == j, "edge {i} {j}");
        assert!(rt; graph.has(i, j) && graph.has(j, i), "edge {i} {j}");
        k += 1;
    }
    assert!(rt; k == expected.len() && graph.edge_count() == k as u64);
}

/// Graphs of one node and of whole and broken words, without edges, with each edge given twice, with two parts, and with
/// the edges of a row in three words.
#[test]
fn graphs_have_the_edges_that_they_were_given(rt: HostRuntime) {
    let alloc = rt.alloc();
    has_edges(&rt, &graph_with(&rt, alloc, 0, &[]), &[]);
    has_edges(&rt, &graph_with(&rt, alloc, 1, &[]), &[]);
    has_edges(&rt, &graph_with(&rt, alloc, 65, &[]), &[]);
    let last = [(62, 63), (63, 0), (0, 63)];
    has_edges(
        &rt,
        &graph_with(&rt, alloc, 64, &last),
        &[(0, 63), (62, 63)],
    );
    let broken = [(64, 63), (64, 0)];
    has_edges(
        &rt,
        &graph_with(&rt, alloc, 65, &broken),
        &[(0, 64), (63, 64)],
    );
    let words = [(199, 5), (5, 6), (130, 5), (5, 70), (3, 5), (128, 5)];
    let in_order = [(3, 5), (5, 6), (5, 70), (5, 128), (5, 130), (5, 199)];
    has_edges(&rt, &graph_with(&rt, alloc, 200, &words), &in_order);
    let parts = [(0, 1), (2, 3), (3, 4), (4, 2)];
    has_edges(
        &rt,
        &graph_with(&rt, alloc, 5, &parts),
        &[(0, 1), (2, 3), (2, 4), (3, 4)],
    );
    let far = [(4095, 0), (2048, 2047)];
    has_edges(
        &rt,
        &graph_with(&rt, alloc, 4096, &far),
        &[(0, 4095), (2047, 2048)],
    );
}

fn at(x: i64, y: i64) -> Point {
    Point { x, y }
}

fn push(rt: &impl Abort, items: &mut Items, item: Item) {
    assert!(rt; items.push(item).is_ok());
}

fn points_of(rt: &impl Abort, alloc: Global, corners: &[(i64, i64)]) -> Points {
    let mut points = Points::new(alloc);
    for (x, y) in corners {
        assert!(rt; points.push(at(*x, *y)).is_ok());
    }
    points
}

/// The plan of an outer polygon with a box in it, if one is given, and a grid of so many columns and rows.
fn plan_of(
    rt: &impl Abort,
    alloc: Global,
    outer: &[(i64, i64)],
    column: &[(i64, i64)],
    grid: GridSpec,
) -> Plan {
    let mut items = Items::new(alloc);
    push(rt, &mut items, Item::Outer(points_of(rt, alloc, outer)));
    push(rt, &mut items, Item::Grid(grid));
    if !column.is_empty() {
        match Name::of(b"column") {
            Some(name) => push(
                rt,
                &mut items,
                Item::Obstacle(name, points_of(rt, alloc, column)),
            ),
            None => panic!(rt; "a word is a name"),
        }
    }
    match check(alloc, &PlanData { items }) {
        Ok(plan) => plan,
        Err(_) => panic!(rt; "the plan is accepted"),
    }
}

/// The grid's points have the numbers that they are found under, but for (1,1), at which none stands.
fn has_numbers(rt: &impl Abort, plan: &Plan, count: u32, last: Point) {
    let grid = Grid::of(plan);
    assert!(rt; grid.count() == count);
    for i in 0..grid.count() {
        let place = grid.place(i);
        assert!(rt; grid.number_at(place) == Some(i), "point {i}");
        assert!(rt; i + 1 != count || same_point(place, last), "point {i}");
    }
    assert!(rt; grid.number_at(at(1, 1)).is_none());
    assert!(rt; grid.number_at(at(i64::MIN, i64::MAX)).is_none());
}

/// The plan's visibility graph has these edges, and so many points are open.
fn is_seen(rt: &impl Abort, alloc: Global, plan: &Plan, open: u32, edges: &[(u32, u32)]) {
    let scene = match scene_of(alloc, plan) {
        Ok(scene) => scene,
        Err(_) => panic!(rt; "there is memory"),
    };
    match graph_naive(alloc, plan, &scene) {
        Ok(graph) => has_edges(rt, &graph, edges),
        Err(_) => panic!(rt; "there is memory"),
    }
    match open_points(alloc, plan) {
        Ok(points) => assert!(rt; points.len() == open as usize),
        Err(_) => panic!(rt; "there is memory"),
    }
}

fn grid_of(step: i64, x0: i64, y0: i64, cols: i64, rows: i64) -> GridSpec {
    GridSpec {
        step,
        x0,
        y0,
        cols,
        rows,
    }
}

/// A box of side 10 with the four points of its corners; with a smaller box in the middle of nine points, of which one is
/// closed; with that box between four points, where one pair grazes it and one is blocked; and a flat of two rooms.
#[test]
fn worked_plans_are_seen(rt: HostRuntime) {
    let alloc = rt.alloc();
    let outer = [(0, 0), (10, 0), (10, 10), (0, 10)];
    let column = [(4, 4), (6, 4), (6, 6), (4, 6)];

    let corners = plan_of(&rt, alloc, &outer, &[], grid_of(10, 0, 0, 2, 2));
    has_numbers(&rt, &corners, 4, at(10, 10));
    let all = [(0, 1), (0, 2), (0, 3), (1, 2), (1, 3), (2, 3)];
    is_seen(&rt, alloc, &corners, 4, &all);

    let nine = plan_of(&rt, alloc, &outer, &column, grid_of(5, 0, 0, 3, 3));
    has_numbers(&rt, &nine, 9, at(10, 10));
    let round = [
        (0, 1),
        (0, 2),
        (0, 3),
        (0, 5),
        (0, 6),
        (0, 7),
        (1, 2),
        (1, 3),
        (1, 5),
        (1, 6),
        (1, 8),
        (2, 3),
        (2, 5),
        (2, 7),
        (2, 8),
        (3, 6),
        (3, 7),
        (3, 8),
        (5, 6),
        (5, 7),
        (5, 8),
        (6, 7),
        (6, 8),
        (7, 8),
    ];
    is_seen(&rt, alloc, &nine, 8, &round);

    let grazed = plan_of(&rt, alloc, &outer, &column, grid_of(8, 0, 0, 2, 2));
    has_numbers(&rt, &grazed, 4, at(8, 8));
    is_seen(
        &rt,
        alloc,
        &grazed,
        4,
        &[(0, 1), (0, 2), (1, 2), (1, 3), (2, 3)],
    );

    let flat = [
        (0, 0),
        (1000, 0),
        (1000, 600),
        (510, 600),
        (510, 200),
        (490, 200),
        (490, 600),
        (0, 600),
    ];
    let pillar = [(240, 280), (260, 280), (260, 320), (240, 320)];
    let rooms = plan_of(&rt, alloc, &flat, &pillar, grid_of(500, 250, 50, 2, 2));
    has_numbers(&rt, &rooms, 4, at(750, 550));
    is_seen(&rt, alloc, &rooms, 4, &[(0, 1), (1, 3)]);
}
