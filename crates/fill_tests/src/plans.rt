//! The plans that are filled, and what is made of them.

ghost use Rattle.std.specs.Prelude.{◌≡◌, IfOk, ◌≤◌};
ghost use Rattle.plan_spec.specs.Edits.{HasShift, IsEditBetween};
ghost use Rattle.sight_spec.specs.Scene as scenes;
ghost use Rattle.sight_spec.specs.Visibility.{visibility_graph};
ghost use Rattle.vga_grid.specs.Rows.{graph_of};

use plan_check::{Changed, Edit, GridSpec, Item, Items, Name, Plan, PlanData, Points, check};
use plane_spec::Point;
use sight_core::{Scene, scene_of};
use std::alloc::Global;
use std::process::Abort;
use trial_gen::trial;
use vga_grid::{BitGraph, Grid, graph_naive};

/// The corners of a box.
fn box_points(rt: &impl Abort, alloc: Global, low: i64, high: i64) -> Points {
    let mut points = Points::new(alloc);
    for (x, y) in [(low, low), (high, low), (high, high), (low, high)] {
        assert!(rt; points.push(Point { x, y }).is_ok());
    }
    points
}

/// The plan of these data.
fn accepted(rt: &impl Abort, alloc: Global, data: &PlanData) -> Plan {
    match check(alloc, data) {
        Ok(plan) => plan,
        Err(_) => panic!(rt; "the plan is accepted"),
    }
}

/// A box of side 10 and nine grid points, 5 apart.
pub(crate) fn nine_points(rt: &impl Abort, alloc: Global) -> Plan {
    let mut items = Items::new(alloc);
    let outer = Item::Outer(box_points(rt, alloc, 0, 10));
    assert!(rt; items.push(outer).is_ok());
    let grid = GridSpec {
        step: 5,
        x0: 0,
        y0: 0,
        cols: 3,
        rows: 3,
    };
    assert!(rt; items.push(Item::Grid(grid)).is_ok());
    accepted(rt, alloc, &PlanData { items })
}

/// The trial plan of 30 boxes, with 144 grid points.
pub(crate) fn trial_plan(rt: &impl Abort, alloc: Global) -> Plan {
    match trial(alloc, 30) {
        Ok(data) => accepted(rt, alloc, &data),
        Err(_) => panic!(rt; "there is memory"),
    }
}

fn middle(rt: &impl Abort) -> Name {
    match Name::of(b"A") {
        Some(name) => name,
        None => panic!(rt; "a letter is a name"),
    }
}

/// The edit that adds a box of side 2 in the middle of the nine points.
pub(crate) fn box_comes(rt: &impl Abort, alloc: Global) -> Edit
    ensures { HasShift result }
{
    Edit::Add(middle(rt), box_points(rt, alloc, 4, 6))
}

/// The edit that takes it away.
pub(crate) fn box_goes(rt: &impl Abort) -> Edit
    ensures { HasShift result }
{
    Edit::Remove(middle(rt))
}

/// The plan after an edit that nothing refuses, and the edit's boxes.
pub(crate) fn edited(rt: &impl Abort, alloc: Global, before: &Plan, edit: &Edit) -> (Plan, Changed)
    requires { HasShift edit.now }
    ensures { IsEditBetween before.now result.0 result.1 }
{
    let _grid = Grid::of(before);
    let boxes = before.changed(edit);
    let Ok(after) = before.with(alloc, edit) else {
        panic!(rt; "nothing refuses the edit");
    };
    (after, boxes)
}

/// The scene of a plan.
pub(crate) fn scene_in(rt: &impl Abort, alloc: Global, plan: &Plan) -> Scene
    ensures { result ≡ scenes.scene_of plan.now }
{
    match scene_of(alloc, plan) {
        Ok(scene) => scene,
        Err(_) => panic!(rt; "there is memory"),
    }
}

/// The visibility graph of a plan, asked pair by pair.
pub(crate) fn graph_in(rt: &impl Abort, alloc: Global, plan: &Plan) -> BitGraph
    ensures { graph_of result ≡ visibility_graph plan.now }
{
    let scene = scene_in(rt, alloc, plan);
    match graph_naive(alloc, plan, &scene) {
        Ok(graph) => graph,
        Err(_) => panic!(rt; "there is memory"),
    }
}

/// Both graphs join the same nodes.
pub(crate) fn are_same(rt: &impl Abort, graph: &BitGraph, other: &BitGraph) {
    assert!(rt; graph.len() == other.len() && graph.edge_count() == other.edge_count());
    for i in 0..graph.len() {
        for j in 0..graph.len() {
            assert!(rt; graph.has(i, j) == other.has(i, j), "{i} {j}");
        }
    }
}
