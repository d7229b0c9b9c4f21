//! The table of an isovist.

ghost use Rattle.std.specs.Prelude.{◌≡◌, ◌∷◌, [], codes, OnErr, OnOk};
ghost use Rattle.std.specs.Fmt.{signed_decimal};
ghost use Rattle.dm_io.specs.Streams.{WritesPrefix, appended_to};
ghost use Rattle.report_spec.specs.Records.{records_bytes};
ghost use Rattle.report_spec.specs.Tables.{isovist_table, triangle_row};
ghost use Rattle.reports.specs.Faults.{Counts};

use crate::fault::ReportFault;
use crate::lists::element;
use crate::record::Record;
use crate::table::{Rows, put_table_with_total};
use dm_io::Sink;
use isovist_core::{IsovistParts, Triangle};
use options_spec::Form;
use std::alloc::Global;
use text_spec::NoMemory;

/// The row of a triangle.
fn make_triangle(row: &mut Record, t: Triangle) -> Result<(), NoMemory>
    ensures { OnOk result (row.new ≡ triangle_row t) }
{
    row.clear();
    row.rpoint(t.from)?;
    row.rpoint(t.to)?;
    row.fraction(t.doubled_area)
}

/// The record of totals: the sums of the floors and of the ceilings.
fn make_sums(row: &mut Record, seen: &IsovistParts) -> Result<(), NoMemory>
    requires { row.old ≡ [] }
    ensures { OnOk result (row.new ≡ codes "total" ∷ signed_decimal seen.now.floor ∷ signed_decimal seen.now.ceil ∷ []) }
{
    row.word(b"total")?;
    row.wide(seen.floor())?;
    row.wide(seen.ceil())
}

/// The triangles that are left.
#[derive(Drop)]
struct TriangleRows<'a> {
    triangles: &'a [Triangle],
    at: usize,
}

impl<'a> Rows for TriangleRows<'a> {
    ghost use Rattle.std.specs.Prelude.{drop, map};
    ghost use Rattle.report_spec.specs.Tables.{triangle_row};

    ghost left = { λ s. map triangle_row (drop s.at s.triangles.now) };

    #[tactic(auto, using(crate::proofs::Elements::mapped_none))]
    fn next_row(&mut self, row: &mut Record) -> Result<bool, NoMemory> {
        if self.at >= self.triangles.len() {
            return Ok(false);
        }
        make_triangle(row, element(self.triangles, self.at))?;
        self.at += 1;
        Ok(true)
    }
}

/// Prints the table of an isovist: its triangles, and then the sums of the floors and of the ceilings of their doubled
/// areas.
///
/// Cost: one pass over the triangles, and a call of the sink for each 64 KiB; memory for one row, and in csv form for
/// some thousand records.
#[tactic(auto, unfolding(report_spec::specs::Tables::isovist_table))]
pub fn put_isovist<O: Sink>(
    alloc: Global,
    out: &mut O,
    form: Form,
    seen: &IsovistParts,
) -> Result<(), ReportFault>
    ensures all { OnOk result (O.written out.new ≡ appended_to (O.written out.old) (records_bytes form (isovist_table seen.now))) }
    ensures prefix { OnErr result (WritesPrefix (O.written out.old) (O.written out.new) (records_bytes form (isovist_table seen.now))) }
    ensures faults { Counts result (O.faults out.old) (O.faults out.new) }
{
    let mut total = Record::new(alloc);
    make_sums(&mut total, seen)?;
    let triangles = seen.triangles();
    let _count = triangles.len();
    let mut rows = TriangleRows { triangles, at: 0 };
    put_table_with_total(alloc, out, form, b"isovist", &mut rows, &total)
}
