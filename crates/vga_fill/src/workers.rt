//! Workers that fill one graph together.

ghost use Rattle.std.specs.Prelude.{◌≡◌, ◌+◌, ◌<◌, ◌≤◌, None, IfOk, false};
ghost use Rattle.std.specs.Thread.{IsSync};
ghost use Rattle.plan_spec.specs.Edits.{IsEditBetween};
ghost use Rattle.sight_spec.specs.Scene.{scene_of};
ghost use Rattle.sight_spec.specs.Visibility.{visibility_graph};
ghost use Rattle.vga_grid.specs.Rows.{graph_of};
ghost use Rattle.vga_fill.specs.Seats.{IsSeatOf, held_by, task_of, view_of};
ghost use Rattle.vga_fill.specs.Sights.{IsJobOf};
ghost use Rattle.vga_fill.specs.Workers.{HasFilled, MayFill};

use crate::claim::Claim;
use crate::fill::Fill;
use crate::job::Job;
use crate::looks::sights_of;
use crate::rows::work_row;
use crate::seat::FillSeat;
use crate::sights::Sights;
use dm_io::Gate;
use plan_check::Plan;
use plan_spec::Changed;
use sight_core::Scene;
use sight_sweep::Steps;
use std::alloc::Global;
use std::thread::{Threads, join};
use text_spec::NoMemory;
use vga_grid::{BitGraph, Grid};

/// Claims rows and finishes them until none is left, and tells the gate of each.
fn work<G: Gate>(
    alloc: Global,
    fill: &Fill,
    mut seat: FillSeat,
    plan: &Plan,
    sights: &Sights,
    job: Job,
    worker: u32,
    gate: &G,
) -> Result<FillSeat, NoMemory>
    requires seat { MayFill fill.now 1 seat }
    requires plan { plan.now ≡ (task_of fill.now).after.value }
    requires same { plan.now ≡ sights.now.plan.value }
    requires job { IsJobOf (task_of fill.now) job }
    ensures { IfOk result (HasFilled fill.now seat) }
{
    let mut steps = Steps::new();
    'claims: while let Claim::Row(row) = fill.claim(&mut seat) {
        gate.row(worker, row);
        work_row(alloc, fill, &mut seat, row, plan, sights, job, &mut steps)?;
    }
    Ok(seat)
}

/// So many workers, numbered from `first` on, claim rows and finish them until none is left.
fn work_all<R: Threads + Sync, G: Gate>(
    rt: &R,
    alloc: Global,
    fill: &Fill,
    seat: FillSeat,
    plan: &Plan,
    sights: &Sights,
    job: Job,
    first: u32,
    workers: u32,
    gate: &G,
) -> Result<FillSeat, NoMemory>
    requires seat { MayFill fill.now workers seat }
    requires workers { 0 < workers }
    requires numbers { first + workers ≤ 64 }
    requires plan { plan.now ≡ (task_of fill.now).after.value }
    requires same { plan.now ≡ sights.now.plan.value }
    requires job { IsJobOf (task_of fill.now) job }
    ensures { IfOk result (HasFilled fill.now seat) }
{
    if workers == 1 {
        return work(alloc, fill, seat, plan, sights, job, first, gate);
    }
    let fewer = workers / 2;
    let more = workers - fewer;
    let (left, right) = fill.split(seat);
    let (left, right) = join(
        rt,
        move || -> Result<FillSeat, NoMemory>
            requires { IsSync R.row × MayFill fill.now more left × (0 < more) × (first + more ≤ 64)
                × (plan.now ≡ (task_of fill.now).after.value) × (plan.now ≡ sights.now.plan.value)
                × IsJobOf (task_of fill.now) job }
            ensures { IfOk result (HasFilled fill.entry.now left) }
        { work_all(rt, alloc, fill, left, plan, sights, job, first, more, gate) },
        move || -> Result<FillSeat, NoMemory>
            requires { IsSync R.row × MayFill fill.now fewer right × (0 < fewer) × (first + more + fewer ≤ 64)
                × (plan.now ≡ (task_of fill.now).after.value) × (plan.now ≡ sights.now.plan.value)
                × IsJobOf (task_of fill.now) job }
            ensures { IfOk result (HasFilled fill.entry.now right) }
        {
            work_all(
                rt,
                alloc,
                fill,
                right,
                plan,
                sights,
                job,
                first + more,
                fewer,
                gate,
            )
        },
    );
    let left = left?;
    let right = right?;
    Ok(fill.join_seats(left, right))
}

/// The visibility graph of a plan, by so many workers that fill one graph together. The scene is the plan's. Each
/// worker tells the gate each row that it claims. Where no thread can be made the workers work one after the other.
///
/// Cost: a test of openness for each point, a look from each open one with a step for each later point, and two steps on
/// words for each edge.
pub fn fill_all<R: Threads + Sync, G: Gate>(
    rt: &R,
    alloc: Global,
    plan: &Plan,
    scene: &Scene,
    workers: u32,
    gate: &G,
) -> Result<BitGraph, NoMemory>
    requires scene { scene.now ≡ scene_of plan.now }
    requires some { 0 < workers }
    requires at_most { workers ≤ 64 }
    ensures { IfOk result (λ graph. graph_of graph ≡ visibility_graph plan.now) }
{
    let sights = sights_of(alloc, plan, scene)?;
    let empty = BitGraph::empty(alloc, Grid::of(plan).count())?;
    let (fill, seat) = Fill::new(alloc, &empty, plan)?;
    let seat = work_all(
        rt,
        alloc,
        &fill,
        seat,
        plan,
        &sights,
        Job::All,
        0,
        workers,
        gate,
    )?;
    fill.close(alloc, seat)
}

/// The visibility graph of the plan `after`, from that of `before`, by so many workers that fill one graph together:
/// only rows with a pair whose segment meets one of the boxes are looked at again. An edit makes `after` of `before`,
/// as `Plan::with` does, and has the boxes that `Plan::changed` gives; the scene is that of `after`. Each worker tells
/// the gate each row that it claims. `old` stays as it is.
///
/// Cost: a test of openness for each point, and some steps for each row and line of the grid; for each dirty row a look
/// from its point, a test of each of its pairs with the boxes, and two steps on words for each dirty one.
pub fn refill<R: Threads + Sync, G: Gate>(
    rt: &R,
    alloc: Global,
    before: &Plan,
    after: &Plan,
    scene: &Scene,
    old: &BitGraph,
    boxes: Changed,
    workers: u32,
    gate: &G,
) -> Result<BitGraph, NoMemory>
    requires edited { IsEditBetween before.now after.now boxes }
    requires scene { scene.now ≡ scene_of after.now }
    requires old_graph { graph_of old.now ≡ visibility_graph before.now }
    requires some { 0 < workers }
    requires at_most { workers ≤ 64 }
    ensures { IfOk result (λ graph. graph_of graph ≡ visibility_graph after.now) }
{
    let _ = before;
    let sights = sights_of(alloc, after, scene)?;
    let (fill, seat) = Fill::new(alloc, old, after)?;
    let seat = work_all(
        rt,
        alloc,
        &fill,
        seat,
        after,
        &sights,
        Job::Dirty(boxes),
        0,
        workers,
        gate,
    )?;
    fill.close(alloc, seat)
}
