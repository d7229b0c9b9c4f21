//! The replies to questions: all is computed, and then printed.

ghost use Rattle.std.specs.Prelude.{◌≡◌};
ghost use Rattle.reports.specs.Faults.{Counts};
ghost use Rattle.plan_answers.specs.Answered.{Keeps, Replies, question};

use crate::found::{find_lines, first_piece, grid_point, line_measures};
use crate::replies::{put_answer, put_refusal};
use crate::tables::{
    AxialTable, DepthTable, EdgesTable, IsovistTable, LinesTable, PlanTable, PointsTable,
    SegmentsTable,
};
use crate::turns_table::TurnsTable;
use dm_io::{Gate, Sink};
use exact_geom::in_range;
use grammar_spec::Query;
use isovist_core::{IsovistFault, isovist};
use options_spec::Form;
use plan_edit::Session;
use plan_spec::Why;
use plane_spec::Point;
use report_spec::Reason;
use reports::ReportFault;
use segment_core::{neighbours, pieces, turn_depths};
use sight_core::is_open;
use std::alloc::Global;
use std::thread::Threads;
use step_depth::{depths, measures};
use text_spec::Name;
use vga_grid::open_points;

/// The edges of the visibility graph.
#[tactic(auto, using(crate::proofs::Printed::nothing), unfolding(report_spec::specs::Replies::answer))]
fn answer_edges<O: Sink, G: Gate>(
    rt: &(impl Threads + Sync),
    alloc: Global,
    session: &mut Session,
    form: Form,
    number: u64,
    out: &mut O,
    gate: &G,
) -> Result<bool, ReportFault>
    ensures answers { Replies form (O.written out.old) (O.written out.new) (question session.old.plan number Query.Edges) result }
    ensures plan { session.new.plan ≡ session.old.plan }
    ensures keeps { Keeps session.old session.new }
    ensures faults { Counts result (O.faults out.old) (O.faults out.new) }
{
    session.make_graph(rt, alloc, gate)?;
    let table = EdgesTable {
        graph: session.graph(),
    };
    put_answer(alloc, out, form, number, &table)
}

/// The open points, with their measures in the visibility graph.
#[tactic(auto, using(crate::proofs::Printed::nothing), unfolding(report_spec::specs::Replies::answer))]
fn answer_points<O: Sink, G: Gate>(
    rt: &(impl Threads + Sync),
    alloc: Global,
    session: &mut Session,
    form: Form,
    number: u64,
    out: &mut O,
    gate: &G,
) -> Result<bool, ReportFault>
    ensures answers { Replies form (O.written out.old) (O.written out.new) (question session.old.plan number Query.Points) result }
    ensures plan { session.new.plan ≡ session.old.plan }
    ensures keeps { Keeps session.old session.new }
    ensures faults { Counts result (O.faults out.old) (O.faults out.new) }
{
    session.make_graph(rt, alloc, gate)?;
    let points = open_points(alloc, session.plan())?;
    let measures = measures(rt, alloc, session.graph(), session.workers() as usize)?;
    let table = PointsTable {
        points: &points,
        measures: &measures,
    };
    put_answer(alloc, out, form, number, &table)
}

/// The axial lines. Refused where there are too many.
#[tactic(auto, using(crate::proofs::Printed::nothing), unfolding(report_spec::specs::Replies::answer))]
fn answer_axial<O: Sink>(
    alloc: Global,
    session: &mut Session,
    form: Form,
    number: u64,
    out: &mut O,
) -> Result<bool, ReportFault>
    ensures answers { Replies form (O.written out.old) (O.written out.new) (question session.old.plan number Query.Axial) result }
    ensures plan { session.new.plan ≡ session.old.plan }
    ensures keeps { Keeps session.old session.new }
    ensures faults { Counts result (O.faults out.old) (O.faults out.new) }
{
    if !find_lines(alloc, session)? {
        return put_refusal(alloc, out, form, number, &Reason::Lines);
    }
    let table = AxialTable {
        lines: session.lines(),
    };
    put_answer(alloc, out, form, number, &table)
}

/// What is measured at the axial lines in their crossing graph. Refused where there are too many.
#[tactic(auto, using(crate::proofs::Printed::nothing), unfolding(report_spec::specs::Replies::answer))]
fn answer_lines<O: Sink>(
    rt: &(impl Threads + Sync),
    alloc: Global,
    session: &mut Session,
    form: Form,
    number: u64,
    out: &mut O,
) -> Result<bool, ReportFault>
    ensures answers { Replies form (O.written out.old) (O.written out.new) (question session.old.plan number Query.Lines) result }
    ensures plan { session.new.plan ≡ session.old.plan }
    ensures keeps { Keeps session.old session.new }
    ensures faults { Counts result (O.faults out.old) (O.faults out.new) }
{
    if !find_lines(alloc, session)? {
        return put_refusal(alloc, out, form, number, &Reason::Lines);
    }
    let measures = line_measures(rt, alloc, session)?;
    let table = LinesTable {
        measures: &measures,
    };
    put_answer(alloc, out, form, number, &table)
}

/// The pieces of the routes.
#[tactic(auto, using(crate::proofs::Printed::nothing), unfolding(report_spec::specs::Replies::answer))]
fn answer_segments<O: Sink>(
    alloc: Global,
    session: &Session,
    form: Form,
    number: u64,
    out: &mut O,
) -> Result<bool, ReportFault>
    ensures answers { Replies form (O.written out.old) (O.written out.new) (question session.now.plan number Query.Segments) result }
    ensures faults { Counts result (O.faults out.old) (O.faults out.new) }
{
    let pieces = pieces(alloc, session.plan())?;
    let neighbours = neighbours(alloc, &pieces)?;
    let table = SegmentsTable {
        plan: session.plan(),
        pieces: &pieces,
        neighbours: &neighbours,
    };
    put_answer(alloc, out, form, number, &table)
}

/// The text of the plan.
#[tactic(auto, using(crate::proofs::Printed::nothing), unfolding(report_spec::specs::Replies::answer))]
fn answer_plan<O: Sink>(
    alloc: Global,
    session: &Session,
    form: Form,
    number: u64,
    out: &mut O,
) -> Result<bool, ReportFault>
    ensures answers { Replies form (O.written out.old) (O.written out.new) (question session.now.plan number Query.Plan) result }
    ensures faults { Counts result (O.faults out.old) (O.faults out.new) }
{
    let listed = session.plan().items(alloc)?;
    let table = PlanTable {
        items: listed.items.as_slice(),
    };
    put_answer(alloc, out, form, number, &table)
}

/// The depths of the open points from the grid point at `p`. Refused where none stands there, or it isn't open.
#[tactic(auto, using(crate::proofs::Printed::nothing), unfolding(report_spec::specs::Replies::answer))]
fn answer_depth<O: Sink, G: Gate>(
    rt: &(impl Threads + Sync),
    alloc: Global,
    session: &mut Session,
    form: Form,
    number: u64,
    p: Point,
    out: &mut O,
    gate: &G,
) -> Result<bool, ReportFault>
    ensures answers { Replies form (O.written out.old) (O.written out.new) (question session.old.plan number (Query.Depth p)) result }
    ensures plan { session.new.plan ≡ session.old.plan }
    ensures keeps { Keeps session.old session.new }
    ensures faults { Counts result (O.faults out.old) (O.faults out.new) }
{
    let Some(source) = grid_point(session.plan(), p) else {
        return put_refusal(alloc, out, form, number, &Reason::NoPoint);
    };
    if !is_open(session.plan(), p) {
        return put_refusal(alloc, out, form, number, &Reason::Closed);
    }
    session.make_graph(rt, alloc, gate)?;
    let points = open_points(alloc, session.plan())?;
    let depths = depths(alloc, session.graph(), source)?;
    let table = DepthTable {
        points: &points,
        depths: &depths,
    };
    put_answer(alloc, out, form, number, &table)
}

/// The isovist from `p`. Refused where `p` is out of range, or isn't open.
#[tactic(auto, using(crate::proofs::Printed::nothing), unfolding(report_spec::specs::Replies::answer))]
fn answer_isovist<O: Sink>(
    alloc: Global,
    session: &Session,
    form: Form,
    number: u64,
    p: Point,
    out: &mut O,
) -> Result<bool, ReportFault>
    ensures answers { Replies form (O.written out.old) (O.written out.new) (question session.now.plan number (Query.Isovist p)) result }
    ensures faults { Counts result (O.faults out.old) (O.faults out.new) }
{
    if !in_range(p) {
        return put_refusal(alloc, out, form, number, &Reason::Edit(Why::Range));
    }
    match isovist(alloc, session.plan(), session.scene(), p) {
        Ok(seen) => put_answer(alloc, out, form, number, &IsovistTable { seen: &seen }),
        Err(IsovistFault::Closed) => put_refusal(alloc, out, form, number, &Reason::Closed),
        Err(IsovistFault::NoMemory) => Err(ReportFault::NoMemory),
    }
}

/// The turn depths from the first piece of the route of this name. Refused where there is no such route.
#[tactic(auto, using(crate::proofs::Printed::nothing), unfolding(report_spec::specs::Replies::answer))]
fn answer_turns<O: Sink>(
    alloc: Global,
    session: &Session,
    form: Form,
    number: u64,
    name: &Name,
    out: &mut O,
) -> Result<bool, ReportFault>
    ensures answers { Replies form (O.written out.old) (O.written out.new) (question session.now.plan number (Query.Turns name.now)) result }
    ensures faults { Counts result (O.faults out.old) (O.faults out.new) }
{
    let Some(route) = session.plan().route_named(name) else {
        return put_refusal(alloc, out, form, number, &Reason::Edit(Why::Missing));
    };
    let pieces = pieces(alloc, session.plan())?;
    let Some(source) = first_piece(&pieces, route) else {
        return put_refusal(alloc, out, form, number, &Reason::Edit(Why::Missing));
    };
    let depths = turn_depths(alloc, &pieces, source)?;
    let table = TurnsTable { depths: &depths };
    put_answer(alloc, out, form, number, &table)
}

/// Prints the reply to a question: `ok N` and the table, or `refused N WHY`. Whether it is refused.
#[tactic(auto, using(crate::proofs::Keeping::keeps_itself))]
pub fn answer_query<O: Sink, G: Gate>(
    rt: &(impl Threads + Sync),
    alloc: Global,
    session: &mut Session,
    form: Form,
    number: u64,
    query: &Query,
    out: &mut O,
    gate: &G,
) -> Result<bool, ReportFault>
    ensures answers { Replies form (O.written out.old) (O.written out.new) (question session.old.plan number query.now) result }
    ensures plan { session.new.plan ≡ session.old.plan }
    ensures keeps { Keeps session.old session.new }
    ensures faults { Counts result (O.faults out.old) (O.faults out.new) }
{
    match query {
        Query::Edges => answer_edges(rt, alloc, session, form, number, out, gate),
        Query::Points => answer_points(rt, alloc, session, form, number, out, gate),
        Query::Axial => answer_axial(alloc, session, form, number, out),
        Query::Lines => answer_lines(rt, alloc, session, form, number, out),
        Query::Segments => answer_segments(alloc, session, form, number, out),
        Query::Plan => answer_plan(alloc, session, form, number, out),
        Query::Depth(p) => answer_depth(rt, alloc, session, form, number, *p, out, gate),
        Query::Isovist(p) => answer_isovist(alloc, session, form, number, *p, out),
        Query::Turns(name) => answer_turns(alloc, session, form, number, name, out),
    }
}
