//! The rows of the table, and the call that prints them.

ghost use Rattle.std.specs.Prelude.{◌≡◌, ◌∷◌, ◌<◌, ◌≤◌, ◌^◌, ◌+◌, [], codes, drop, get_or, length, OnErr, OnOk};
ghost use Rattle.std.specs.Fmt.{decimal};
ghost use Rattle.std.specs.List.{sum};
ghost use Rattle.dm_io.specs.Streams.{WritesPrefix, appended_to};
ghost use Rattle.report_spec.specs.Records.{records_bytes};
ghost use Rattle.reports.specs.Faults.{Counts};
ghost use Rattle.walk_table.specs.VisitTables.{visit_row, visits_table};

use dm_io::Sink;
use options_spec::Form;
use plane_spec::Point;
use reports::{Record, ReportFault, Rows, put_table_with_total};
use std::alloc::Global;
use text_spec::NoMemory;

/// The visits that stand at a number, or 0 where none stand there.
fn visits_at(visits: &[u64], number: u32) -> u64
    ensures { result ≡ get_or visits.now number 0 }
{
    let k = number as usize;
    if k < visits.len() { visits[k] } else { 0 }
}

/// The point at a place, which stands before those after it.
fn point_at(points: &[(u32, Point)], k: usize) -> (u32, Point)
    requires { k < length points.now }
    ensures { drop k points.now ≡ result ∷ drop (k + 1) points.now }
{
    points[k]
}

/// The row of a numbered point with its visits.
fn make_visits(row: &mut Record, e: (u32, Point), visits: &[u64]) -> Result<(), NoMemory>
    ensures { OnOk result (row.new ≡ visit_row visits.now e) }
{
    row.clear();
    row.number(u64::from(e.0))?;
    row.signed(e.1.x)?;
    row.signed(e.1.y)?;
    row.number(visits_at(visits, e.0))
}

/// The sum of all visits.
fn sum_of(visits: &[u64]) -> u64
    requires { sum visits.now < 2 ^ 64 }
    ensures { result ≡ sum visits.now }
{
    let mut all = 0u64;
    'visits: for count in visits {
        all += *count;
    }
    all
}

/// The record of the sum.
fn make_total(row: &mut Record, visits: &[u64]) -> Result<(), NoMemory>
    requires new { row.old ≡ [] }
    requires room { sum visits.now < 2 ^ 64 }
    ensures { OnOk result (row.new ≡ codes "total" ∷ decimal (sum visits.now) ∷ []) }
{
    row.word(b"total")?;
    row.number(sum_of(visits))
}

/// The points that are left, with the visits of all nodes.
#[derive(Drop)]
struct VisitRows<'a> {
    points: &'a [(u32, Point)],
    visits: &'a [u64],
    at: usize,
}

impl<'a> Rows for VisitRows<'a> {
    ghost use Rattle.std.specs.Prelude.{drop, map};
    ghost use Rattle.walk_table.specs.VisitTables.{visit_row};

    ghost left = { λ s. map (visit_row s.visits.now) (drop s.at s.points.now) };

    #[tactic(auto, using(crate::proofs::Elements::mapped_none))]
    fn next_row(&mut self, row: &mut Record) -> Result<bool, NoMemory> {
        if self.at >= self.points.len() {
            return Ok(false);
        }
        make_visits(row, point_at(self.points, self.at), self.visits)?;
        self.at += 1;
        Ok(true)
    }
}

/// Prints the table of numbered points, as those that are open, with how often each was visited: number, x, y, visits; then
/// the sum of all visits. The visits are those of all nodes, each at its number.
///
/// Cost: one pass over the visits and one over the points, and a call of the sink for each 64 KiB; memory for one row, and
/// in csv form for some thousand records.
pub fn put_visits<O: Sink>(
    alloc: Global,
    out: &mut O,
    form: Form,
    points: &[(u32, Point)],
    visits: &[u64],
) -> Result<(), ReportFault>
    requires room { sum visits.now < 2 ^ 64 }
    ensures all { OnOk result (O.written out.new ≡ appended_to (O.written out.old) (records_bytes form (visits_table points.now visits.now))) }
    ensures prefix { OnErr result (WritesPrefix (O.written out.old) (O.written out.new) (records_bytes form (visits_table points.now visits.now))) }
    ensures faults { Counts result (O.faults out.old) (O.faults out.new) }
{
    let _count = points.len();
    let mut total = Record::new(alloc);
    make_total(&mut total, visits)?;
    let mut rows = VisitRows {
        points,
        visits,
        at: 0,
    };
    put_table_with_total(alloc, out, form, b"visits", &mut rows, &total)
}
