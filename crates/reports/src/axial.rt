//! The table of axial lines.

ghost use Rattle.std.specs.Prelude.{◌≡◌, OnErr, OnOk};
ghost use Rattle.dm_io.specs.Streams.{WritesPrefix, appended_to};
ghost use Rattle.report_spec.specs.Records.{records_bytes};
ghost use Rattle.report_spec.specs.Tables.{axial_row, axial_table};
ghost use Rattle.reports.specs.Faults.{Counts};

use crate::fault::ReportFault;
use crate::lists::element;
use crate::record::Record;
use crate::table::{Rows, put_table};
use axial_lines::AxialLine;
use dm_io::Sink;
use options_spec::Form;
use std::alloc::Global;
use text_spec::NoMemory;

/// The row of a line.
fn make_axial(row: &mut Record, number: usize, line: AxialLine) -> Result<(), NoMemory>
    ensures { OnOk result (row.new ≡ axial_row (number, line)) }
{
    row.clear();
    row.number(number as u64)?;
    row.number(u64::from(line.first))?;
    row.number(u64::from(line.second))?;
    row.rpoint(line.from)?;
    row.rpoint(line.to)
}

/// The lines that are left.
#[derive(Drop)]
struct AxialRows<'a> {
    lines: &'a [AxialLine],
    at: usize,
}

impl<'a> Rows for AxialRows<'a> {
    ghost use Rattle.std.specs.Prelude.{drop, map};
    ghost use Rattle.std.specs.List.{enumerate_from};
    ghost use Rattle.report_spec.specs.Tables.{axial_row};

    ghost left = { λ s. map axial_row (enumerate_from s.at (drop s.at s.lines.now)) };

    #[tactic(auto, using(crate::proofs::Elements::numbered_none))]
    fn next_row(&mut self, row: &mut Record) -> Result<bool, NoMemory> {
        if self.at >= self.lines.len() {
            return Ok(false);
        }
        make_axial(row, self.at, element(self.lines, self.at))?;
        self.at += 1;
        Ok(true)
    }
}

/// Prints the table of axial lines in the order of their numbers: number, the numbers of both corners, and the two
/// ends.
///
/// Cost: one pass over the lines, and a call of the sink for each 64 KiB; memory for one row, and in csv form for some
/// thousand records.
#[tactic(auto, using(crate::proofs::Elements::numbered_few), unfolding(report_spec::specs::Tables::axial_table))]
pub fn put_axial<O: Sink>(
    alloc: Global,
    out: &mut O,
    form: Form,
    lines: &[AxialLine],
) -> Result<(), ReportFault>
    ensures all { OnOk result (O.written out.new ≡ appended_to (O.written out.old) (records_bytes form (axial_table lines.now))) }
    ensures prefix { OnErr result (WritesPrefix (O.written out.old) (O.written out.new) (records_bytes form (axial_table lines.now))) }
    ensures faults { Counts result (O.faults out.old) (O.faults out.new) }
{
    let _count = lines.len();
    let mut rows = AxialRows { lines, at: 0 };
    put_table(alloc, out, form, b"axial", &mut rows)
}
