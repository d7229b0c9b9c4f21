//! The table of what is measured at axial lines.

ghost use Rattle.std.specs.Prelude.{◌≡◌, OnErr, OnOk};
ghost use Rattle.dm_io.specs.Streams.{WritesPrefix, appended_to};
ghost use Rattle.report_spec.specs.Records.{records_bytes};
ghost use Rattle.report_spec.specs.Tables.{line_row, lines_table};
ghost use Rattle.reports.specs.Faults.{Counts};

use crate::fault::ReportFault;
use crate::lists::element;
use crate::points::add_measure;
use crate::record::Record;
use crate::table::{Rows, put_table};
use dm_io::Sink;
use options_spec::Form;
use std::alloc::Global;
use step_depth::Measure;
use text_spec::NoMemory;

/// The row of a line with its measures.
fn make_line(row: &mut Record, number: usize, m: Measure) -> Result<(), NoMemory>
    ensures { OnOk result (row.new ≡ line_row (number, m)) }
{
    row.clear();
    row.number(number as u64)?;
    add_measure(row, m)
}

/// The measures of lines that are left.
#[derive(Drop)]
struct LineRows<'a> {
    measures: &'a [Measure],
    at: usize,
}

impl<'a> Rows for LineRows<'a> {
    ghost use Rattle.std.specs.Prelude.{drop, map};
    ghost use Rattle.std.specs.List.{enumerate_from};
    ghost use Rattle.report_spec.specs.Tables.{line_row};

    ghost left = { λ s. map line_row (enumerate_from s.at (drop s.at s.measures.now)) };

    #[tactic(auto, using(crate::proofs::Elements::numbered_none))]
    fn next_row(&mut self, row: &mut Record) -> Result<bool, NoMemory> {
        if self.at >= self.measures.len() {
            return Ok(false);
        }
        make_line(row, self.at, element(self.measures, self.at))?;
        self.at += 1;
        Ok(true)
    }
}

/// Prints the table of what is measured at lines, in the order of their numbers: number, connectivity, reached, total
/// and mean depth and relative asymmetry.
///
/// Cost: one pass over the lines, and a call of the sink for each 64 KiB; memory for one row, and in csv form for some
/// thousand records.
#[tactic(auto, using(crate::proofs::Elements::numbered_few), unfolding(report_spec::specs::Tables::lines_table))]
pub fn put_lines<O: Sink>(
    alloc: Global,
    out: &mut O,
    form: Form,
    measures: &[Measure],
) -> Result<(), ReportFault>
    ensures all { OnOk result (O.written out.new ≡ appended_to (O.written out.old) (records_bytes form (lines_table measures.now))) }
    ensures prefix { OnErr result (WritesPrefix (O.written out.old) (O.written out.new) (records_bytes form (lines_table measures.now))) }
    ensures faults { Counts result (O.faults out.old) (O.faults out.new) }
{
    let _count = measures.len();
    let mut rows = LineRows { measures, at: 0 };
    put_table(alloc, out, form, b"lines", &mut rows)
}
