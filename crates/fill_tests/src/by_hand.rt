//! Seats driven by hand on one thread.

ghost use Rattle.std.specs.Prelude.{◌≡◌, ◌<◌, ◌^◌, None, Some, false};
ghost use Rattle.plan_spec.specs.Edits.{IsEditBetween};
ghost use Rattle.sight_spec.specs.Visibility.{visibility_graph};
ghost use Rattle.vga_grid.specs.Rows.{graph_of};
ghost use Rattle.vga_fill.specs.Seats.{IsSeatOf, count_of, held_by, task_of, view_of};
ghost use Rattle.vga_fill.specs.Views.{GoesOn};
ghost use Rattle.vga_fill.specs.Workers.{HasFilled, MayFill};

use crate::plans::{are_same, box_comes, box_goes, edited, graph_in, nine_points, scene_in};
use plan_check::{Changed, Plan};
use sight_sweep::Steps;
use std::alloc::Global;
use std::process::Abort;
use vga_fill::{Claim, Fill, FillSeat, fill_row};
use vga_grid::BitGraph;

/// A fill that turns the graph before the edit into the one after it, and its first seat.
fn begun(
    rt: &impl Abort,
    alloc: Global,
    before: &Plan,
    after: &Plan,
    boxes: Changed,
) -> (Fill, FillSeat)
    requires { IsEditBetween before.now after.now boxes }
    ensures old_graph { graph_of (task_of result.0).old.value ≡ visibility_graph before.now }
    ensures after_plan { (task_of result.0).after.value ≡ after.now }
    ensures seat { MayFill result.0 2 result.1 }
    ensures fresh { (view_of result.1).tellings ≡ 0 }
    ensures passes { (view_of result.1).passes ≡ 2 ^ 63 }
{
    let old = graph_in(rt, alloc, before);
    match Fill::new(alloc, &old, after) {
        Ok(begun) => begun,
        Err(_) => panic!(rt; "there is memory"),
    }
}

/// Claims a row, which must be left.
fn claimed(rt: &impl Abort, fill: &Fill, seat: &mut FillSeat) -> u32
    requires { MayFill fill.now 1 seat.old }
    ensures of { IsSeatOf fill.now seat.new }
    ensures held { held_by seat.new ≡ Some result }
    ensures within { result < count_of fill.now }
    ensures not_told { (view_of seat.new).told ≡ false }
    ensures tellings { (view_of seat.new).tellings ≡ (view_of seat.old).tellings }
    ensures passes { (view_of seat.new).passes ≡ (view_of seat.old).passes }
{
    match fill.claim(seat) {
        Claim::Row(row) => row,
        Claim::Done => panic!(rt; "a row is left"),
    }
}

/// Finishes the row that the seat holds, after an edit.
fn finish(
    rt: &impl Abort,
    alloc: Global,
    fill: &Fill,
    seat: &mut FillSeat,
    row: u32,
    before: &Plan,
    after: &Plan,
    boxes: Changed,
    steps: &mut Steps,
)
    requires of { IsSeatOf fill.now seat.old }
    requires held { held_by seat.old ≡ Some row }
    requires within { row < count_of fill.now }
    requires old_graph { graph_of (task_of fill.now).old.value ≡ visibility_graph before.now }
    requires after_plan { (task_of fill.now).after.value ≡ after.now }
    requires edited { IsEditBetween before.now after.now boxes }
    ensures of { IsSeatOf fill.now seat.new }
    ensures free { held_by seat.new ≡ None }
    ensures more { GoesOn (view_of seat.old) (view_of seat.new) }
{
    let scene = scene_in(rt, alloc, after);
    let done = fill_row(alloc, fill, seat, row, before, after, &scene, boxes, steps);
    if done.is_err() {
        panic!(rt; "there is memory");
    }
}

/// Claims rows and finishes them until none is left.
fn finish_all(
    rt: &impl Abort,
    alloc: Global,
    fill: &Fill,
    mut seat: FillSeat,
    before: &Plan,
    after: &Plan,
    boxes: Changed,
    steps: &mut Steps,
) -> FillSeat
    requires seat { MayFill fill.now 1 seat }
    requires old_graph { graph_of (task_of fill.now).old.value ≡ visibility_graph before.now }
    requires after_plan { (task_of fill.now).after.value ≡ after.now }
    requires edited { IsEditBetween before.now after.now boxes }
    ensures { HasFilled fill.now seat result }
{
    'claims: while let Claim::Row(row) = fill.claim(&mut seat) {
        finish(rt, alloc, fill, &mut seat, row, before, after, boxes, steps);
    }
    seat
}

/// Two seats claim a row each; the second finishes its own before the first does.
fn fill_by_two(
    rt: &impl Abort,
    alloc: Global,
    before: &Plan,
    after: &Plan,
    boxes: Changed,
) -> BitGraph
    requires { IsEditBetween before.now after.now boxes }
    ensures { graph_of result ≡ visibility_graph after.now }
{
    let mut steps = Steps::new();
    let (fill, seat) = begun(rt, alloc, before, after, boxes);
    let (mut a, mut b) = fill.split(seat);
    let row_of_a = claimed(rt, &fill, &mut a);
    let row_of_b = claimed(rt, &fill, &mut b);
    assert!(rt; row_of_a == 0 && row_of_b == 1);
    finish(
        rt, alloc, &fill, &mut b, row_of_b, before, after, boxes, &mut steps,
    );
    finish(
        rt, alloc, &fill, &mut a, row_of_a, before, after, boxes, &mut steps,
    );
    let b = finish_all(rt, alloc, &fill, b, before, after, boxes, &mut steps);
    let a = finish_all(rt, alloc, &fill, a, before, after, boxes, &mut steps);
    let last = fill.join_seats(a, b);
    match fill.close(alloc, last) {
        Ok(graph) => graph,
        Err(_) => panic!(rt; "there is memory"),
    }
}

/// How many sweeps one seat counts that works all rows.
fn sweeps_of(rt: &impl Abort, alloc: Global, before: &Plan, after: &Plan, boxes: Changed) -> u64
    requires { IsEditBetween before.now after.now boxes }
{
    let mut steps = Steps::new();
    let (fill, seat) = begun(rt, alloc, before, after, boxes);
    let _seat = finish_all(rt, alloc, &fill, seat, before, after, boxes, &mut steps);
    steps.sweeps()
}

#[test]
fn two_seats_by_hand_fill_the_graph(rt: HostRuntime) {
    let alloc = rt.alloc();
    let before = nine_points(&rt, alloc);
    let (after, boxes) = edited(&rt, alloc, &before, &box_comes(&rt, alloc));
    let graph = fill_by_two(&rt, alloc, &before, &after, boxes);
    assert!(&rt; graph.edge_count() == 24);
    are_same(&rt, &graph, &graph_in(&rt, alloc, &after));
}

/// A box in the middle makes dirty pairs of the points 0 to 4 with later ones. Point 4 is in the box: there it is
/// closed, and looks only once the box is gone.
#[test]
fn nine_rows_take_four_sweeps_and_five(rt: HostRuntime) {
    let alloc = rt.alloc();
    let before = nine_points(&rt, alloc);
    let (after, boxes) = edited(&rt, alloc, &before, &box_comes(&rt, alloc));
    assert!(&rt; sweeps_of(&rt, alloc, &before, &after, boxes) == 4);
    let (again, boxes) = edited(&rt, alloc, &after, &box_goes(&rt));
    assert!(&rt; sweeps_of(&rt, alloc, &after, &again, boxes) == 5);
}
