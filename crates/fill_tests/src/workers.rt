//! Graphs by one worker and by many.

ghost use Rattle.std.specs.Prelude.{◌≡◌, ◌<◌, ◌≤◌};
ghost use Rattle.plan_spec.specs.Edits.{IsEditBetween};
ghost use Rattle.sight_spec.specs.Scene.{scene_of};
ghost use Rattle.sight_spec.specs.Visibility.{visibility_graph};
ghost use Rattle.vga_grid.specs.Rows.{graph_of};

use crate::plans::{
    are_same, box_comes, box_goes, edited, graph_in, nine_points, scene_in, trial_plan,
};
use dm_io::{Gate, NoGate};
use meeting_gate::MeetingGate;
use plan_check::{Changed, Plan};
use std::alloc::Global;
use std::process::Abort;
use std::thread::Threads;
use vga_fill::{fill_all, refill};
use vga_grid::BitGraph;

/// The graph that so many workers fill.
fn filled(
    rt: &(impl Abort + Threads + Sync),
    alloc: Global,
    plan: &Plan,
    workers: u32,
    gate: &impl Gate,
) -> BitGraph
    requires some { 0 < workers }
    requires at_most { workers ≤ 64 }
    ensures { graph_of result ≡ visibility_graph plan.now }
{
    let scene = scene_in(rt, alloc, plan);
    match fill_all(rt, alloc, plan, &scene, workers, gate) {
        Ok(graph) => graph,
        Err(_) => panic!(rt; "there is memory"),
    }
}

/// The graph that so many workers fill after an edit, from that before it.
fn refilled(
    rt: &(impl Abort + Threads + Sync),
    alloc: Global,
    before: &Plan,
    after: &Plan,
    old: &BitGraph,
    boxes: Changed,
    workers: u32,
    gate: &impl Gate,
) -> BitGraph
    requires edited { IsEditBetween before.now after.now boxes }
    requires old_graph { graph_of old.now ≡ visibility_graph before.now }
    requires some { 0 < workers }
    requires at_most { workers ≤ 64 }
    ensures { graph_of result ≡ visibility_graph after.now }
{
    let scene = scene_in(rt, alloc, after);
    match refill(rt, alloc, before, after, &scene, old, boxes, workers, gate) {
        Ok(graph) => graph,
        Err(_) => panic!(rt; "there is memory"),
    }
}

/// So many workers fill the graph that is expected.
fn fill_as(
    rt: &(impl Abort + Threads + Sync),
    alloc: Global,
    plan: &Plan,
    expected: &BitGraph,
    workers: u32,
)
    requires some { 0 < workers }
    requires at_most { workers ≤ 64 }
{
    let graph = filled(rt, alloc, plan, workers, &NoGate);
    are_same(rt, &graph, expected);
}

/// So many workers fill the nine points without a box, those with one, and those without again.
fn refill_there_and_back(rt: &(impl Abort + Threads + Sync), alloc: Global, workers: u32)
    requires some { 0 < workers }
    requires at_most { workers ≤ 64 }
{
    let before = nine_points(rt, alloc);
    let (after, boxes) = edited(rt, alloc, &before, &box_comes(rt, alloc));
    let (again, boxes_again) = edited(rt, alloc, &after, &box_goes(rt));
    let old = filled(rt, alloc, &before, workers, &NoGate);
    assert!(rt; old.edge_count() == 36);
    let new = refilled(rt, alloc, &before, &after, &old, boxes, workers, &NoGate);
    assert!(rt; new.edge_count() == 24);
    are_same(rt, &new, &graph_in(rt, alloc, &after));
    let back = refilled(
        rt,
        alloc,
        &after,
        &again,
        &new,
        boxes_again,
        workers,
        &NoGate,
    );
    are_same(rt, &back, &old);
}

#[test]
fn each_number_of_workers_fills_one_graph_of_a_trial_plan(rt: HostRuntime) {
    let alloc = rt.alloc();
    let plan = trial_plan(&rt, alloc);
    let expected = graph_in(&rt, alloc, &plan);
    fill_as(&rt, alloc, &plan, &expected, 1);
    fill_as(&rt, alloc, &plan, &expected, 2);
    fill_as(&rt, alloc, &plan, &expected, 3);
    fill_as(&rt, alloc, &plan, &expected, 4);
    fill_as(&rt, alloc, &plan, &expected, 64);
}

#[test]
fn each_number_of_workers_refills_nine_points(rt: HostRuntime) {
    let alloc = rt.alloc();
    refill_there_and_back(&rt, alloc, 1);
    refill_there_and_back(&rt, alloc, 2);
    refill_there_and_back(&rt, alloc, 3);
    refill_there_and_back(&rt, alloc, 4);
    refill_there_and_back(&rt, alloc, 64);
}

#[test]
fn two_workers_come(rt: HostRuntime) {
    let alloc = rt.alloc();
    let before = nine_points(&rt, alloc);
    let (after, boxes) = edited(&rt, alloc, &before, &box_comes(&rt, alloc));
    let first = MeetingGate::new();
    let old = filled(&rt, alloc, &before, 2, &first);
    assert!(&rt; first.have_two_met());
    let second = MeetingGate::new();
    let new = refilled(&rt, alloc, &before, &after, &old, boxes, 2, &second);
    assert!(&rt; second.have_two_met());
    are_same(&rt, &new, &graph_in(&rt, alloc, &after));
}
