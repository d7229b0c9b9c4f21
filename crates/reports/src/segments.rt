//! The table of the pieces of routes.

ghost use Rattle.std.specs.Prelude.{◌≡◌, ◌<◌, ◌++◌, ◌∷◌, [], OnErr, OnOk, get_or, length};
ghost use Rattle.dm_io.specs.Streams.{WritesPrefix, appended_to};
ghost use Rattle.report_spec.specs.Records.{records_bytes};
ghost use Rattle.report_spec.specs.Tables.{route_name, segment_row, segments_table};
ghost use Rattle.reports.specs.Faults.{Counts};

use crate::fault::ReportFault;
use crate::lists::element;
use crate::record::Record;
use crate::table::{Rows, put_table};
use dm_io::Sink;
use options_spec::Form;
use plan_check::Plan;
use segment_core::Piece;
use std::alloc::Global;
use text_spec::{Name, NoMemory};

/// The name of a route by its number.
fn name_of_route(plan: &Plan, k: usize) -> Name
    requires { k < length plan.now.routes }
    ensures { result ≡ route_name plan.now.routes k }
{
    plan.route(k).name.copy()
}

/// Adds the name of a route, or nothing for a number that no route has.
#[tactic(auto, using(crate::proofs::RouteNames::nothing_added))]
fn add_route_name(row: &mut Record, plan: &Plan, route: u32) -> Result<(), NoMemory>
    ensures { OnOk result (row.new ≡ row.old ++ route_name plan.now.routes route ∷ []) }
{
    let k = route as usize;
    if k >= plan.routes() {
        return row.word(b"");
    }
    row.name(&name_of_route(plan, k))
}

/// The number of neighbours that stands at a number, or 0.
fn neighbours_at(neighbours: &[u32], k: usize) -> u32
    ensures { result ≡ get_or neighbours.now k 0 }
{
    if k < neighbours.len() {
        neighbours[k]
    } else {
        0
    }
}

/// The row of a piece.
fn make_segment(
    row: &mut Record,
    plan: &Plan,
    neighbours: &[u32],
    number: usize,
    piece: Piece,
) -> Result<(), NoMemory>
    ensures { OnOk result (row.new ≡ segment_row plan.now.routes neighbours.now (number, piece)) }
{
    row.clear();
    row.number(number as u64)?;
    add_route_name(row, plan, piece.route)?;
    row.rpoint(piece.from)?;
    row.rpoint(piece.to)?;
    row.number(u64::from(neighbours_at(neighbours, number)))
}

/// The pieces that are left.
#[derive(Drop)]
struct SegmentRows<'a> {
    plan: &'a Plan,
    pieces: &'a [Piece],
    neighbours: &'a [u32],
    at: usize,
}

impl<'a> Rows for SegmentRows<'a> {
    ghost use Rattle.std.specs.Prelude.{drop, map};
    ghost use Rattle.std.specs.List.{enumerate_from};
    ghost use Rattle.report_spec.specs.Tables.{segment_row};

    ghost left = { λ s. map (segment_row s.plan.now.routes s.neighbours.now)
        (enumerate_from s.at (drop s.at s.pieces.now)) };

    #[tactic(auto, using(crate::proofs::Elements::numbered_none))]
    fn next_row(&mut self, row: &mut Record) -> Result<bool, NoMemory> {
        if self.at >= self.pieces.len() {
            return Ok(false);
        }
        make_segment(
            row,
            self.plan,
            self.neighbours,
            self.at,
            element(self.pieces, self.at),
        )?;
        self.at += 1;
        Ok(true)
    }
}

/// Prints the table of the pieces of a plan's routes in the order of their numbers: number, the route's name, both
/// ends in the order along the route, and how many neighbours it has.
///
/// Cost: one pass over the pieces, and a call of the sink for each 64 KiB; memory for one row, and in csv form for some
/// thousand records.
#[tactic(auto, using(crate::proofs::Elements::numbered_few), unfolding(report_spec::specs::Tables::segments_table))]
pub fn put_segments<O: Sink>(
    alloc: Global,
    out: &mut O,
    form: Form,
    plan: &Plan,
    pieces: &[Piece],
    neighbours: &[u32],
) -> Result<(), ReportFault>
    ensures all { OnOk result (O.written out.new ≡ appended_to (O.written out.old) (records_bytes form (segments_table plan.now.routes pieces.now neighbours.now))) }
    ensures prefix { OnErr result (WritesPrefix (O.written out.old) (O.written out.new) (records_bytes form (segments_table plan.now.routes pieces.now neighbours.now))) }
    ensures faults { Counts result (O.faults out.old) (O.faults out.new) }
{
    let _count = pieces.len();
    let mut rows = SegmentRows {
        plan,
        pieces,
        neighbours,
        at: 0,
    };
    put_table(alloc, out, form, b"segments", &mut rows)
}
