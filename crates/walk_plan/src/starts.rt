//! The visits of the points of a plan's grid.

ghost use Rattle.std.specs.Prelude.{◌≡◌, ◌<◌, ◌≤◌, ◌^◌, IfOk, length, map};
ghost use Rattle.std.specs.List.{sum};
ghost use Rattle.sight_spec.specs.Visibility.{open_points};
ghost use Rattle.walk_spec.specs.declared.TheConstants.{MAX_WALKERS, MAX_WALK_STEPS};
ghost use Rattle.walk_plan.specs.PlanWalks.{visits_over};

use dm_io::Gate;
use plan_check::Plan;
use plane_spec::Point;
use sight_core::scene_of;
use std::alloc::Global;
use std::thread::Threads;
use text_spec::NoMemory;
use vga_fill::fill_all;
use walk_core::{WalkSpec, walk};

/// The numbers of the points.
fn numbers_of(alloc: Global, points: &[(u32, Point)]) -> Result<Vec<u32>, NoMemory>
    ensures { IfOk result (λ numbers. numbers.items ≡ map (λ e. e.0) points.now) }
{
    let mut numbers = Vec::new(alloc);
    for point in points {
        numbers.push(point.0)?;
    }
    Ok(numbers)
}

/// How often walkers visit each point of a plan's grid, by its number: those that are closed never. `points` are the
/// plan's open points, where the walkers begin. The graph is filled by as many workers as walk; each of them tells the
/// gate each row that it claims.
///
/// Cost: that of [`fill_all`], and of [`walk`].
pub fn plan_visits<R: Threads + Sync, G: Gate>(
    rt: &R,
    alloc: Global,
    plan: &Plan,
    points: &[(u32, Point)],
    spec: &WalkSpec,
    workers: u32,
    gate: &G,
) -> Result<Vec<u64>, NoMemory>
    requires points { points.now ≡ open_points plan.now }
    requires some { 0 < length points.now }
    requires walkers { spec.now.walkers ≤ MAX_WALKERS }
    requires steps { spec.now.steps ≤ MAX_WALK_STEPS }
    requires workers { 0 < workers }
    requires at_most { workers ≤ 64 }
    ensures visits { IfOk result (λ visits. visits.items ≡ visits_over plan.now spec.now) }
    ensures room { IfOk result (λ visits. sum visits.items < 2 ^ 64) }
{
    let starts = numbers_of(alloc, points)?;
    let scene = scene_of(alloc, plan)?;
    let graph = fill_all(rt, alloc, plan, &scene, workers, gate)?;
    walk(rt, alloc, &graph, &starts, spec, workers)
}
