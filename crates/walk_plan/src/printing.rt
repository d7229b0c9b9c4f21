//! The table of visits of a plan.

ghost use Rattle.std.specs.Prelude.{◌<◌, ◌≤◌};
ghost use Rattle.walk_spec.specs.declared.TheConstants.{MAX_WALKERS, MAX_WALK_STEPS};
ghost use Rattle.walk_plan.specs.Answers.{EndsWalk};

use crate::starts::plan_visits;
use dm_io::{Gate, Sink};
use options_spec::Form;
use plan_check::Plan;
use reports::ReportFault;
use std::alloc::Global;
use std::thread::Threads;
use vga_grid::open_points;
use walk_core::WalkSpec;
use walk_table::put_visits;

/// Why the table wasn't printed whole.
#[derive(Clone, Copy, Debug, PartialEq, Eq)]
pub enum WalkFault {
    /// The plan has no open grid point, so no walker can begin.
    NoOpen,
    /// The sink failed.
    Write,
    /// There is no memory.
    NoMemory,
}

/// Prints how often walkers visit each open point of a plan's grid: number, x, y, visits; then the sum of all visits. It is
/// the same for every number of workers. Where there is no open point, nothing is printed, also where there is no memory.
///
/// Cost: that of [`plan_visits`], and of [`put_visits`].
pub fn put_walk<R: Threads + Sync, O: Sink, G: Gate>(
    rt: &R,
    alloc: Global,
    plan: &Plan,
    spec: &WalkSpec,
    workers: u32,
    out: &mut O,
    gate: &G,
) -> Result<(), WalkFault>
    requires walkers { spec.now.walkers ≤ MAX_WALKERS }
    requires steps { spec.now.steps ≤ MAX_WALK_STEPS }
    requires workers { 0 < workers }
    requires at_most { workers ≤ 64 }
    ensures { EndsWalk plan.now spec.now (O.written out.old) (O.written out.new) (O.faults out.old) (O.faults out.new) result }
{
    let Ok(open) = open_points(alloc, plan) else {
        return Err(WalkFault::NoMemory);
    };
    if open.is_empty() {
        return Err(WalkFault::NoOpen);
    }
    let Ok(visits) = plan_visits(rt, alloc, plan, &open, spec, workers, gate) else {
        return Err(WalkFault::NoMemory);
    };
    match put_visits(alloc, out, Form::Text, &open, &visits) {
        Ok(()) => Ok(()),
        Err(ReportFault::Write) => Err(WalkFault::Write),
        Err(ReportFault::NoMemory) => Err(WalkFault::NoMemory),
    }
}
