//! The record of a trial.

ghost use Rattle.std.specs.Prelude.{ℕ, ◌≡◌, ◌≤◌, ◌+◌, ◌*◌, All, IfOk, OnErr, OnOk, get_or, length};
ghost use Rattle.std.specs.List.{sum_by};
ghost use Rattle.dm_io.specs.Streams.{WritesPrefix, appended_to};
ghost use Rattle.graph_spec.specs.Graphs.{no_measures};
ghost use Rattle.options_spec.specs.declared.options.TheConstants.{MAX_TRIAL_BOXES, MAX_WORKERS};
ghost use Rattle.report_spec.specs.Output.{trial_output};
ghost use Rattle.report_spec.specs.Trial.{trial_plan, trial_record, trial_record_of};
ghost use Rattle.reports.specs.Faults.{Counts};

use dm_io::{Gate, Sink};
use options_spec::Form;
use plan_check::{CheckFault, Plan, check};
use plan_edit::Session;
use plane_spec::Point;
use reports::{ReportFault, put_trial};
use std::alloc::Global;
use std::thread::Threads;
use step_depth::{Measure, measures};
use text_spec::NoMemory;
use trial_gen::trial;
use vga_grid::{Grid, open_points};

/// The trial plan of a number of boxes.
fn trial_plan(alloc: Global, boxes: u32) -> Result<Plan, NoMemory>
    requires some { 1 ≤ boxes }
    requires few { boxes ≤ MAX_TRIAL_BOXES }
    ensures { IfOk result (λ plan. plan ≡ trial_plan boxes) }
{
    let items = trial(alloc, boxes)?;
    match check(alloc, &items) {
        Ok(plan) => Ok(plan),
        Err(CheckFault::NoMemory) => Err(NoMemory),
        Err(CheckFault::Bad { .. }) => unreachable!(),
    }
}

/// The total that stands at a number, or 0.
fn total_at(measures: &[Measure], number: u32) -> u64
    requires at_most { All (λ m. m.total ≤ 16777216) measures.now }
    ensures total { result ≡ (get_or measures.now number no_measures).total }
    ensures small { result ≤ 16777216 }
{
    let k = number as usize;
    if k < measures.len() {
        let measure = measures[k];
        measure.total
    } else {
        0
    }
}

/// The sum of the totals that stand at the numbers of points.
fn sum_totals(points: &[(u32, Point)], measures: &[Measure]) -> u64
    requires few { length points.now ≤ 4096 }
    requires at_most { All (λ m. m.total ≤ 16777216) measures.now }
    ensures { result ≡ sum_by (λ e. (get_or measures.now e.0 no_measures).total) points.now }
{
    let mut sum = 0u64;
    'points: for point in points {
        sum += total_at(measures, point.0);
    }
    sum
}

/// What a trial counts: grid points, open ones, edges, and the sum of the depths.
#[derive(Clone, Copy)]
struct TrialCounts {
    points: u32,
    open_points: u32,
    edges: u64,
    depth: u64,
}

/// What a trial counts of the plan of a session.
fn counts_of<G: Gate>(
    rt: &(impl Threads + Sync),
    alloc: Global,
    session: &mut Session,
    gate: &G,
) -> Result<TrialCounts, NoMemory>
    ensures { IfOk result (λ found. (boxes : ℕ)
        → trial_record boxes found.points found.open_points found.edges found.depth
        ≡ trial_record_of boxes session.old.plan) }
{
    session.make_graph(rt, alloc, gate)?;
    let points = Grid::of(session.plan()).count();
    let open = open_points(alloc, session.plan())?;
    let measures = measures(rt, alloc, session.graph(), session.workers() as usize)?;
    let depth = sum_totals(&open, &measures);
    Ok(TrialCounts {
        points,
        open_points: open.len() as u32,
        edges: session.graph().edge_count(),
        depth,
    })
}

/// What the trial of a number of boxes counts.
fn trial_counts<G: Gate>(
    rt: &(impl Threads + Sync),
    alloc: Global,
    workers: u32,
    boxes: u32,
    gate: &G,
) -> Result<TrialCounts, NoMemory>
    requires some { 1 ≤ boxes }
    requires few { boxes ≤ MAX_TRIAL_BOXES }
    requires some_workers { 1 ≤ workers }
    requires few_workers { workers ≤ MAX_WORKERS }
    ensures { IfOk result (λ found. trial_record boxes found.points found.open_points found.edges found.depth
        ≡ trial_record_of boxes (trial_plan boxes)) }
{
    let plan = trial_plan(alloc, boxes)?;
    let mut session = Session::begin(alloc, plan, workers)?;
    counts_of(rt, alloc, &mut session, gate)
}

/// Prints the record of the trial of a number of boxes: how many boxes, grid points, open ones and edges of the
/// visibility graph there are, and the sum of the depths between each two open points, both ways. So many workers fill
/// the graph, 1 to `MAX_WORKERS`; `rt` lends their threads, and each tells the gate each row that it claims.
///
/// Cost: that of the graph and its measures.
pub fn put_trial_of<O: Sink, G: Gate>(
    rt: &(impl Threads + Sync),
    alloc: Global,
    out: &mut O,
    form: Form,
    workers: u32,
    boxes: u32,
    gate: &G,
) -> Result<(), ReportFault>
    requires some { 1 ≤ boxes }
    requires few { boxes ≤ MAX_TRIAL_BOXES }
    requires some_workers { 1 ≤ workers }
    requires few_workers { workers ≤ MAX_WORKERS }
    ensures all { OnOk result (O.written out.new ≡ appended_to (O.written out.old) (trial_output form boxes)) }
    ensures prefix { OnErr result (WritesPrefix (O.written out.old) (O.written out.new) (trial_output form boxes)) }
    ensures faults { Counts result (O.faults out.old) (O.faults out.new) }
{
    let found = trial_counts(rt, alloc, workers, boxes, gate)?;
    put_trial(
        alloc,
        out,
        form,
        boxes,
        found.points,
        found.open_points,
        found.edges,
        found.depth,
    )
}
