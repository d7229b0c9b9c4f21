//! The tables of a mode.

ghost use Rattle.std.specs.Prelude.{◌≡◌, IfOk, OnErr, OnOk};
ghost use Rattle.dm_io.specs.Streams.{WritesPrefix, appended_to};
ghost use Rattle.report_spec.specs.Output.{mode_is_refused, mode_records};
ghost use Rattle.report_spec.specs.Records.{records_bytes};
ghost use Rattle.reports.specs.Faults.{Counts};
ghost use Rattle.plan_answers.specs.Answered.{Answers, Keeps};

use crate::found::{find_lines, line_measures};
use crate::replies::{put_both, put_one, put_refusal};
use crate::tables::{AxialTable, EdgesTable, LinesTable, PlanTable, PointsTable, SegmentsTable};
use dm_io::{Gate, Sink};
use options_spec::{Form, Mode};
use plan_edit::Session;
use report_spec::Reason;
use reports::{ReportFault, put_isovists};
use segment_core::{neighbours, pieces};
use std::alloc::Global;
use std::thread::Threads;
use step_depth::measures;
use vga_grid::open_points;

/// The edges of the visibility graph, and the open points with their measures in it.
#[tactic(auto, using(crate::proofs::Printed::nothing), unfolding(report_spec::specs::Output::mode_records))]
fn put_vga<O: Sink, G: Gate>(
    rt: &(impl Threads + Sync),
    alloc: Global,
    session: &mut Session,
    form: Form,
    out: &mut O,
    gate: &G,
) -> Result<bool, ReportFault>
    ensures answers { Answers form (O.written out.old) (O.written out.new) (mode_records Mode.Vga session.old.plan) (mode_is_refused Mode.Vga session.old.plan) result }
    ensures plan { session.new.plan ≡ session.old.plan }
    ensures keeps { Keeps session.old session.new }
    ensures faults { Counts result (O.faults out.old) (O.faults out.new) }
{
    session.make_graph(rt, alloc, gate)?;
    let points = open_points(alloc, session.plan())?;
    let measures = measures(rt, alloc, session.graph(), session.workers() as usize)?;
    let edges = EdgesTable {
        graph: session.graph(),
    };
    let points = PointsTable {
        points: &points,
        measures: &measures,
    };
    put_both(alloc, out, form, &edges, &points)
}

/// The isovist of each open point.
#[tactic(auto, using(crate::proofs::Printed::nothing), unfolding(report_spec::specs::Output::mode_records))]
fn put_all_isovists<O: Sink>(
    alloc: Global,
    session: &Session,
    form: Form,
    out: &mut O,
) -> Result<bool, ReportFault>
    ensures answers { Answers form (O.written out.old) (O.written out.new) (mode_records Mode.Isovists session.now.plan) (mode_is_refused Mode.Isovists session.now.plan) result }
    ensures faults { Counts result (O.faults out.old) (O.faults out.new) }
{
    put_isovists(alloc, out, form, session.plan(), session.scene())?;
    Ok(false)
}

/// The axial lines and what is measured at them, or the refusal of too many.
#[tactic(auto, using(crate::proofs::Printed::nothing), unfolding(report_spec::specs::Output::mode_records))]
fn put_axial_map<O: Sink>(
    rt: &(impl Threads + Sync),
    alloc: Global,
    session: &mut Session,
    form: Form,
    out: &mut O,
) -> Result<bool, ReportFault>
    ensures answers { Answers form (O.written out.old) (O.written out.new) (mode_records Mode.AxialMap session.old.plan) (mode_is_refused Mode.AxialMap session.old.plan) result }
    ensures plan { session.new.plan ≡ session.old.plan }
    ensures keeps { Keeps session.old session.new }
    ensures faults { Counts result (O.faults out.old) (O.faults out.new) }
{
    if !find_lines(alloc, session)? {
        return put_refusal(alloc, out, form, 0, &Reason::Lines);
    }
    let measures = line_measures(rt, alloc, session)?;
    let axial = AxialTable {
        lines: session.lines(),
    };
    let lines = LinesTable {
        measures: &measures,
    };
    put_both(alloc, out, form, &axial, &lines)
}

/// The pieces of the routes.
#[tactic(auto, using(crate::proofs::Printed::nothing), unfolding(report_spec::specs::Output::mode_records))]
fn put_pieces<O: Sink>(
    alloc: Global,
    session: &Session,
    form: Form,
    out: &mut O,
) -> Result<bool, ReportFault>
    ensures answers { Answers form (O.written out.old) (O.written out.new) (mode_records Mode.Segments session.now.plan) (mode_is_refused Mode.Segments session.now.plan) result }
    ensures faults { Counts result (O.faults out.old) (O.faults out.new) }
{
    let pieces = pieces(alloc, session.plan())?;
    let neighbours = neighbours(alloc, &pieces)?;
    let table = SegmentsTable {
        plan: session.plan(),
        pieces: &pieces,
        neighbours: &neighbours,
    };
    put_one(alloc, out, form, &table)
}

/// The text of the plan.
#[tactic(auto, using(crate::proofs::Printed::nothing), unfolding(report_spec::specs::Output::mode_records))]
fn put_text_of<O: Sink>(
    alloc: Global,
    session: &Session,
    form: Form,
    out: &mut O,
) -> Result<bool, ReportFault>
    ensures answers { Answers form (O.written out.old) (O.written out.new) (mode_records Mode.Check session.now.plan) (mode_is_refused Mode.Check session.now.plan) result }
    ensures faults { Counts result (O.faults out.old) (O.faults out.new) }
{
    let listed = session.plan().items(alloc)?;
    let table = PlanTable {
        items: listed.items.as_slice(),
    };
    put_one(alloc, out, form, &table)
}

/// Prints the tables of a mode over the plan of a session, or the refusal of too many axial lines, where the mode asks
/// for them; `refused 0 lines` is that. Whether it is refused. After a fault a prefix was written. Each worker tells the
/// gate each row of the visibility graph that it claims. What the session kept it still keeps.
///
/// Cost: that of what the tables show, where the session doesn't keep it.
#[tactic(auto, using(crate::proofs::Keeping::keeps_itself))]
pub fn put_mode<O: Sink, G: Gate>(
    rt: &(impl Threads + Sync),
    alloc: Global,
    session: &mut Session,
    form: Form,
    mode: Mode,
    out: &mut O,
    gate: &G,
) -> Result<bool, ReportFault>
    ensures written { OnOk result (O.written out.new ≡ appended_to (O.written out.old) (records_bytes form (mode_records mode session.old.plan))) }
    ensures refused { IfOk result (λ refused. refused ≡ mode_is_refused mode session.old.plan) }
    ensures prefix { OnErr result (WritesPrefix (O.written out.old) (O.written out.new) (records_bytes form (mode_records mode session.old.plan))) }
    ensures plan { session.new.plan ≡ session.old.plan }
    ensures keeps { Keeps session.old session.new }
    ensures faults { Counts result (O.faults out.old) (O.faults out.new) }
{
    match mode {
        Mode::Vga => put_vga(rt, alloc, session, form, out, gate),
        Mode::Isovists => put_all_isovists(alloc, session, form, out),
        Mode::AxialMap => put_axial_map(rt, alloc, session, form, out),
        Mode::Segments => put_pieces(alloc, session, form, out),
        Mode::Check => put_text_of(alloc, session, form, out),
    }
}
