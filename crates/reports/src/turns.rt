//! The table of turn depths.

ghost use Rattle.std.specs.Prelude.{◌≡◌, ◌∷◌, ◌<◌, ◌≤◌, ◌^◌, [], codes, count_by, is_some, length, unwrap_or, OnErr, OnOk};
ghost use Rattle.dm_io.specs.Streams.{WritesPrefix, appended_to};
ghost use Rattle.graph_spec.specs.Graphs.{total_depth};
ghost use Rattle.report_spec.specs.Records.{records_bytes};
ghost use Rattle.report_spec.specs.Tables.{turn_row, turn_totals, turns_table};
ghost use Rattle.reports.specs.Faults.{Counts};

use crate::fault::ReportFault;
use crate::lists::element;
use crate::record::Record;
use crate::table::{Rows, put_table_with_total};
use dm_io::Sink;
use options_spec::Form;
use std::alloc::Global;
use step_depth::mean_of;
use text_spec::NoMemory;

/// The row of a piece with its turn depth.
fn make_turn(row: &mut Record, number: usize, depth: Option<u32>) -> Result<(), NoMemory>
    ensures { OnOk result (row.new ≡ turn_row (number, depth)) }
{
    row.clear();
    row.number(number as u64)?;
    row.number_or_dash(depth)
}

/// How many depths there are.
fn count_depths(depths: &[Option<u32>]) -> u64
    ensures count { result ≡ count_by is_some depths.now }
    ensures at_most { result ≤ length depths.now }
{
    let mut count = 0u64;
    'depths: for depth in depths {
        if depth.is_some() {
            count += 1;
        }
    }
    count
}

/// A depth, or 0 where there is none.
fn depth_or_zero(depth: Option<u32>) -> u64
    ensures depth { result ≡ unwrap_or depth 0 }
    ensures small { result < 2 ^ 32 }
{
    match depth {
        Some(depth) => u64::from(depth),
        None => 0,
    }
}

/// The sum of the depths that there are.
fn sum_depths(depths: &[Option<u32>]) -> u64
    requires { length depths.now < 2 ^ 32 }
    ensures { result ≡ total_depth depths.now }
{
    let mut sum = 0u64;
    'depths: for depth in depths {
        sum += depth_or_zero(*depth);
    }
    sum
}

/// The record of totals: how many are reached, the sum of their depths, and the mean.
fn make_totals(row: &mut Record, depths: &[Option<u32>]) -> Result<(), NoMemory>
    requires new { row.old ≡ [] }
    requires few { length depths.now < 2 ^ 32 }
    ensures { OnOk result (row.new ≡ codes "total" ∷ turn_totals depths.now) }
{
    let reached = count_depths(depths);
    let total = sum_depths(depths);
    row.word(b"total")?;
    row.number(reached)?;
    row.number(total)?;
    row.fraction_or_dash(mean_of(reached, total))
}

/// The turn depths that are left.
#[derive(Drop)]
struct TurnRows<'a> {
    depths: &'a [Option<u32>],
    at: usize,
}

impl<'a> Rows for TurnRows<'a> {
    ghost use Rattle.std.specs.Prelude.{drop, map};
    ghost use Rattle.std.specs.List.{enumerate_from};
    ghost use Rattle.report_spec.specs.Tables.{turn_row};

    ghost left = { λ s. map turn_row (enumerate_from s.at (drop s.at s.depths.now)) };

    #[tactic(auto, using(crate::proofs::Elements::numbered_none))]
    fn next_row(&mut self, row: &mut Record) -> Result<bool, NoMemory> {
        if self.at >= self.depths.len() {
            return Ok(false);
        }
        make_turn(row, self.at, element(self.depths, self.at))?;
        self.at += 1;
        Ok(true)
    }
}

/// Prints the table of turn depths in the order of the pieces: number, turn depth or `-`; then how many pieces have
/// one, the sum of these, and their mean over the pieces other than the source.
///
/// Cost: three passes over the depths, and a call of the sink for each 64 KiB; memory for one row, and in csv form for
/// some thousand records.
#[tactic(auto, using(crate::proofs::Elements::numbered_few), unfolding(report_spec::specs::Tables::turns_table))]
pub fn put_turns<O: Sink>(
    alloc: Global,
    out: &mut O,
    form: Form,
    depths: &[Option<u32>],
) -> Result<(), ReportFault>
    requires few { length depths.now < 2 ^ 32 }
    ensures all { OnOk result (O.written out.new ≡ appended_to (O.written out.old) (records_bytes form (turns_table depths.now))) }
    ensures prefix { OnErr result (WritesPrefix (O.written out.old) (O.written out.new) (records_bytes form (turns_table depths.now))) }
    ensures faults { Counts result (O.faults out.old) (O.faults out.new) }
{
    let mut total = Record::new(alloc);
    make_totals(&mut total, depths)?;
    let mut rows = TurnRows { depths, at: 0 };
    put_table_with_total(alloc, out, form, b"turns", &mut rows, &total)
}
