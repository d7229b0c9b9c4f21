//! Tables: a record that begins one, rows, and a record that ends it with their number.

ghost use Rattle.std.specs.Prelude.{◌≡◌, ◌++◌, [], ◌<◌, ◌^◌, ℕ, List, Bool, true, IfOk, IfSome, OnErr, OnOk, drop, length, option_map};
ghost use Rattle.dm_io.specs.Streams.{WritesPrefix, appended_to};
ghost use Rattle.dm_io.specs.OutputBuffer.{WritesAndBuffers};
ghost use Rattle.report_spec.specs.Records.{records_bytes, table, table_with_total};
ghost use Rattle.csv_laws.specs.Plain.{is_plain, is_visible};
ghost use Rattle.reports.specs.Faults.{Counts};
ghost use Rattle.reports.specs.Rows.{IsTotal, Makes, end, head, table_by, totals};

use crate::fault::ReportFault;
use crate::record::Record;
use crate::record_writer::RecordWriter;
use dm_io::Sink;
use options_spec::Form;
use std::alloc::Global;
use text_spec::NoMemory;

/// The rows of a table, which are made one after the other.
pub trait Rows {
    /// The rows that are left.
    ghost left: { Self → List (List (List ℕ)) };

    /// Makes the next row in the memory of `row`, or answers that none is left. After `NoMemory` any rows are left.
    fn next_row(&mut self, row: &mut Record) -> Result<bool, NoMemory>
        ensures { IfOk result (λ more. Makes (left self.old) more row.new (left self.new)) };
}

/// The record that begins a table of a kind.
pub fn make_head(row: &mut Record, kind: &[u8]) -> Result<(), NoMemory>
    requires { is_plain kind.now ≡ true }
    ensures { OnOk result (row.new ≡ head kind.now) }
{
    row.clear();
    row.word(b"table")?;
    row.word(kind)
}

/// The record that ends a table of so many rows.
pub fn make_end(row: &mut Record, count: u64) -> Result<(), NoMemory>
    ensures { OnOk result (row.new ≡ end count) }
{
    row.clear();
    row.word(b"end")?;
    row.number(count)
}

/// Adds the rows that are left. How many they were.
fn add_rows<O: Sink, R: Rows>(
    writer: &mut RecordWriter,
    out: &mut O,
    row: &mut Record,
    rows: &mut R,
) -> Result<u64, ReportFault>
    requires few { length (R.left rows.old) < 2 ^ 64 }
    ensures form { writer.new.form ≡ writer.old.form }
    ensures all { OnOk result (WritesAndBuffers (O.written out.old) (O.written out.new) (writer.old.bytes ++ records_bytes writer.old.form (R.left rows.old)) writer.new.bytes) }
    ensures count { IfOk result (λ count. count ≡ length (R.left rows.old)) }
    ensures prefix { OnErr result (WritesPrefix (O.written out.old) (O.written out.new) (writer.old.bytes ++ records_bytes writer.old.form (R.left rows.old))) }
    ensures faults { Counts result (O.faults out.old) (O.faults out.new) }
{
    let mut count = 0u64;
    'rows: loop {
        let more = rows.next_row(row)?;
        if !more {
            return Ok(count);
        }
        writer.add(out, row)?;
        count += 1;
    }
}

/// Adds the record of totals, where there is one.
fn add_total<O: Sink>(
    writer: &mut RecordWriter,
    out: &mut O,
    total: Option<&Record>,
) -> Result<(), ReportFault>
    requires { IfSome total (λ t. is_visible t.now ≡ true) }
    ensures form { writer.new.form ≡ writer.old.form }
    ensures all { OnOk result (WritesAndBuffers (O.written out.old) (O.written out.new) (writer.old.bytes ++ records_bytes writer.old.form (totals (option_map (λ t. t.now) total.entry))) writer.new.bytes) }
    ensures prefix { OnErr result (WritesPrefix (O.written out.old) (O.written out.new) (writer.old.bytes ++ records_bytes writer.old.form (totals (option_map (λ t. t.now) total.entry)))) }
    ensures faults { Counts result (O.faults out.old) (O.faults out.new) }
{
    match total {
        Some(total) => writer.add(out, total),
        None => Ok(()),
    }
}

/// Puts a table by its rows, with the record of totals where there is one. `row` is memory for a record.
fn write_table<O: Sink, R: Rows>(
    writer: &mut RecordWriter,
    row: &mut Record,
    out: &mut O,
    kind: &[u8],
    rows: &mut R,
    total: Option<&Record>,
) -> Result<(), ReportFault>
    requires empty { writer.old.bytes ≡ [] }
    requires kind { is_plain kind.now ≡ true }
    requires few { length (R.left rows.old) < 2 ^ 64 }
    requires total { IfSome total (λ t. is_visible t.now ≡ true) }
    ensures all { OnOk result (O.written out.new ≡ appended_to (O.written out.old) (records_bytes writer.old.form (table_by kind.now (R.left rows.old) (option_map (λ t. t.now) total.entry)))) }
    ensures prefix { OnErr result (WritesPrefix (O.written out.old) (O.written out.new) (records_bytes writer.old.form (table_by kind.now (R.left rows.old) (option_map (λ t. t.now) total.entry)))) }
    ensures faults { Counts result (O.faults out.old) (O.faults out.new) }
{
    make_head(row, kind)?;
    writer.add(out, row)?;
    let count = add_rows(writer, out, row, rows)?;
    add_total(writer, out, total)?;
    make_end(row, count)?;
    writer.add(out, row)?;
    writer.flush(out)
}

/// Prints a table by its rows, with the record of totals where there is one.
fn put_table_by<O: Sink, R: Rows>(
    alloc: Global,
    out: &mut O,
    form: Form,
    kind: &[u8],
    rows: &mut R,
    total: Option<&Record>,
) -> Result<(), ReportFault>
    requires kind { is_plain kind.now ≡ true }
    requires few { length (R.left rows.old) < 2 ^ 64 }
    requires total { IfSome total (λ t. is_visible t.now ≡ true) }
    ensures all { OnOk result (O.written out.new ≡ appended_to (O.written out.old) (records_bytes form (table_by kind.now (R.left rows.old) (option_map (λ t. t.now) total.entry)))) }
    ensures prefix { OnErr result (WritesPrefix (O.written out.old) (O.written out.new) (records_bytes form (table_by kind.now (R.left rows.old) (option_map (λ t. t.now) total.entry)))) }
    ensures faults { Counts result (O.faults out.old) (O.faults out.new) }
{
    let mut writer = RecordWriter::new(alloc, form);
    let mut row = Record::new(alloc);
    write_table(&mut writer, &mut row, out, kind, rows, total)
}

/// Prints a table of a kind: the record that begins it, the rows that are left, and the record that ends it with their
/// number.
///
/// Cost: one pass over the rows, and a call of the sink for each 64 KiB; memory for one row, and in csv form for some
/// thousand records.
pub fn put_table<O: Sink, R: Rows>(
    alloc: Global,
    out: &mut O,
    form: Form,
    kind: &[u8],
    rows: &mut R,
) -> Result<(), ReportFault>
    requires kind { is_plain kind.now ≡ true }
    requires few { length (R.left rows.old) < 2 ^ 64 }
    ensures all { OnOk result (O.written out.new ≡ appended_to (O.written out.old) (records_bytes form (table kind.now (R.left rows.old)))) }
    ensures prefix { OnErr result (WritesPrefix (O.written out.old) (O.written out.new) (records_bytes form (table kind.now (R.left rows.old)))) }
    ensures faults { Counts result (O.faults out.old) (O.faults out.new) }
{
    put_table_by(alloc, out, form, kind, rows, None)
}

/// Prints a table of a kind as [`put_table`] does, with a record of totals after the rows, which isn't counted. Its
/// first field is the word `total`.
///
/// Cost: as of [`put_table`].
pub fn put_table_with_total<O: Sink, R: Rows>(
    alloc: Global,
    out: &mut O,
    form: Form,
    kind: &[u8],
    rows: &mut R,
    total: &Record,
) -> Result<(), ReportFault>
    requires kind { is_plain kind.now ≡ true }
    requires few { length (R.left rows.old) < 2 ^ 64 }
    requires total { IsTotal total.now }
    ensures all { OnOk result (O.written out.new ≡ appended_to (O.written out.old) (records_bytes form (table_with_total kind.now (R.left rows.old) (drop 1 total.now)))) }
    ensures prefix { OnErr result (WritesPrefix (O.written out.old) (O.written out.new) (records_bytes form (table_with_total kind.now (R.left rows.old) (drop 1 total.now)))) }
    ensures faults { Counts result (O.faults out.old) (O.faults out.new) }
{
    put_table_by(alloc, out, form, kind, rows, Some(total))
}
