//! A worked plan, by looks and pair by pair.

use crate::graph_by_looks;
use plan_check::{GridSpec, Item, Items, Name, Plan, PlanData, Points, check};
use plane_spec::Point;
use sight_core::scene_of;
use std::alloc::Global;
use std::process::Abort;
use vga_grid::graph_naive;

/// The corners of a box.
fn box_points(rt: &impl Abort, alloc: Global, low: i64, high: i64) -> Points {
    let mut points = Points::new(alloc);
    for (x, y) in [(low, low), (high, low), (high, high), (low, high)] {
        assert!(rt; points.push(Point { x, y }).is_ok());
    }
    points
}

/// A box of side 10 with a box of side 2 in its middle and nine grid points, of which the one in the middle is closed.
fn box_in_a_box(rt: &impl Abort, alloc: Global) -> Plan {
    let name = match Name::of(b"A") {
        Some(name) => name,
        None => panic!(rt; "it is a name"),
    };
    let mut items = Items::new(alloc);
    assert!(rt;
        items
            .push(Item::Outer(box_points(rt, alloc, 0, 10)))
            .is_ok()
    );
    let grid = GridSpec {
        step: 5,
        x0: 0,
        y0: 0,
        cols: 3,
        rows: 3,
    };
    assert!(rt; items.push(Item::Grid(grid)).is_ok());
    assert!(rt;
        items
            .push(Item::Obstacle(name, box_points(rt, alloc, 4, 6)))
            .is_ok()
    );
    match check(alloc, &PlanData { items }) {
        Ok(plan) => plan,
        Err(_) => panic!(rt; "the plan is accepted"),
    }
}

#[test]
fn opposite_points_of_a_box_in_a_box_do_not_see_each_other(rt: HostRuntime) {
    let alloc = rt.alloc();
    let plan = box_in_a_box(&rt, alloc);
    let Ok(scene) = scene_of(alloc, &plan) else {
        panic!(&rt; "there is memory");
    };
    let (Ok(graph), Ok(other)) = (
        graph_by_looks(alloc, &plan, &scene),
        graph_naive(alloc, &plan, &scene),
    ) else {
        panic!(&rt; "there is memory");
    };
    assert!(&rt; graph.edge_count() == 24 && other.edge_count() == 24);
    for i in 0..9u32 {
        for j in 0..9u32 {
            assert!(&rt; graph.has(i, j) == other.has(i, j));
        }
    }
    for (i, j) in [(0, 8), (1, 7), (2, 6), (3, 5), (0, 4), (4, 8)] {
        assert!(&rt; !graph.has(i, j));
    }
}
