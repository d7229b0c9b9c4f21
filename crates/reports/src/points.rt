//! The tables of numbered points: their measures, and their depths.

ghost use Rattle.std.specs.Prelude.{◌≡◌, ◌∷◌, ◌++◌, OnErr, OnOk};
ghost use Rattle.dm_io.specs.Streams.{WritesPrefix, appended_to};
ghost use Rattle.report_spec.specs.Records.{records_bytes};
ghost use Rattle.report_spec.specs.Tables.{depth_row, depth_table, measure_fields, point_row, points_table};
ghost use Rattle.reports.specs.Faults.{Counts};

use crate::fault::ReportFault;
use crate::lists::{depth_at, element, measure_at};
use crate::record::Record;
use crate::table::{Rows, put_table};
use dm_io::Sink;
use options_spec::Form;
use plane_spec::Point;
use std::alloc::Global;
use step_depth::Measure;
use text_spec::NoMemory;

/// Adds what is measured at a node.
pub fn add_measure(row: &mut Record, m: Measure) -> Result<(), NoMemory>
    ensures { OnOk result (row.new ≡ row.old ++ measure_fields m) }
{
    row.number(u64::from(m.connectivity))?;
    row.number(u64::from(m.reached))?;
    row.number(m.total)?;
    row.fraction_or_dash(m.mean)?;
    row.fraction_or_dash(m.ra)
}

/// The row of a numbered point with its measures.
fn make_point(row: &mut Record, e: (u32, Point), measures: &[Measure]) -> Result<(), NoMemory>
    ensures { OnOk result (row.new ≡ point_row measures.now e) }
{
    row.clear();
    row.number(u64::from(e.0))?;
    row.signed(e.1.x)?;
    row.signed(e.1.y)?;
    add_measure(row, measure_at(measures, e.0))
}

/// The row of a numbered point with its depth.
fn make_depth(row: &mut Record, e: (u32, Point), depths: &[Option<u32>]) -> Result<(), NoMemory>
    ensures { OnOk result (row.new ≡ depth_row depths.now e) }
{
    row.clear();
    row.number(u64::from(e.0))?;
    row.number_or_dash(depth_at(depths, e.0))
}

/// The points that are left, with the measures of all nodes.
#[derive(Drop)]
struct PointRows<'a> {
    points: &'a [(u32, Point)],
    measures: &'a [Measure],
    at: usize,
}

impl<'a> Rows for PointRows<'a> {
    ghost use Rattle.std.specs.Prelude.{drop, map};
    ghost use Rattle.report_spec.specs.Tables.{point_row};

    ghost left = { λ s. map (point_row s.measures.now) (drop s.at s.points.now) };

    #[tactic(auto, using(crate::proofs::Elements::mapped_none))]
    fn next_row(&mut self, row: &mut Record) -> Result<bool, NoMemory> {
        if self.at >= self.points.len() {
            return Ok(false);
        }
        make_point(row, element(self.points, self.at), self.measures)?;
        self.at += 1;
        Ok(true)
    }
}

/// The points that are left, with the depths of all nodes.
#[derive(Drop)]
struct DepthRows<'a> {
    points: &'a [(u32, Point)],
    depths: &'a [Option<u32>],
    at: usize,
}

impl<'a> Rows for DepthRows<'a> {
    ghost use Rattle.std.specs.Prelude.{drop, map};
    ghost use Rattle.report_spec.specs.Tables.{depth_row};

    ghost left = { λ s. map (depth_row s.depths.now) (drop s.at s.points.now) };

    #[tactic(auto, using(crate::proofs::Elements::mapped_none))]
    fn next_row(&mut self, row: &mut Record) -> Result<bool, NoMemory> {
        if self.at >= self.points.len() {
            return Ok(false);
        }
        make_depth(row, element(self.points, self.at), self.depths)?;
        self.at += 1;
        Ok(true)
    }
}

/// Prints the table of numbered points, as those that are open: number, x, y, connectivity, reached, total and mean
/// depth and relative asymmetry. The measures are those of all nodes, each at its number.
///
/// Cost: one pass over the points, and a call of the sink for each 64 KiB; memory for one row, and in csv form for some
/// thousand records.
#[tactic(auto, unfolding(report_spec::specs::Tables::points_table))]
pub fn put_points<O: Sink>(
    alloc: Global,
    out: &mut O,
    form: Form,
    points: &[(u32, Point)],
    measures: &[Measure],
) -> Result<(), ReportFault>
    ensures all { OnOk result (O.written out.new ≡ appended_to (O.written out.old) (records_bytes form (points_table points.now measures.now))) }
    ensures prefix { OnErr result (WritesPrefix (O.written out.old) (O.written out.new) (records_bytes form (points_table points.now measures.now))) }
    ensures faults { Counts result (O.faults out.old) (O.faults out.new) }
{
    let _count = points.len();
    let mut rows = PointRows {
        points,
        measures,
        at: 0,
    };
    put_table(alloc, out, form, b"points", &mut rows)
}

/// Prints the table of numbered points, as those that are open, with their depths: number, depth or `-`. The depths are
/// those of all nodes, each at its number.
///
/// Cost: as of [`put_points`].
#[tactic(auto, unfolding(report_spec::specs::Tables::depth_table))]
pub fn put_depth<O: Sink>(
    alloc: Global,
    out: &mut O,
    form: Form,
    points: &[(u32, Point)],
    depths: &[Option<u32>],
) -> Result<(), ReportFault>
    ensures all { OnOk result (O.written out.new ≡ appended_to (O.written out.old) (records_bytes form (depth_table points.now depths.now))) }
    ensures prefix { OnErr result (WritesPrefix (O.written out.old) (O.written out.new) (records_bytes form (depth_table points.now depths.now))) }
    ensures faults { Counts result (O.faults out.old) (O.faults out.new) }
{
    let _count = points.len();
    let mut rows = DepthRows {
        points,
        depths,
        at: 0,
    };
    put_table(alloc, out, form, b"depth", &mut rows)
}
