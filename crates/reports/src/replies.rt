//! Replies, and the record of a trial: single records.

ghost use Rattle.std.specs.Prelude.{◌≡◌, ◌∷◌, ◌++◌, [], true, OnErr, OnOk};
ghost use Rattle.std.specs.Fmt.{decimal};
ghost use Rattle.dm_io.specs.Streams.{WritesPrefix, appended_to};
ghost use Rattle.report_spec.specs.Records.{record_bytes};
ghost use Rattle.report_spec.specs.Replies.{ok_record, reason_words, refused_record};
ghost use Rattle.report_spec.specs.Trial.{trial_record};
ghost use Rattle.csv_laws.specs.Plain.{is_plain, is_visible};
ghost use Rattle.reports.specs.Faults.{Counts};

use crate::csv_text::CsvText;
use crate::fault::ReportFault;
use crate::record::Record;
use crate::record_writer::put_csv;
use crate::row_text::put_text;
use crate::words::reason_parts;
use dm_io::{Sink, put_all};
use options_spec::Form;
use report_spec::Reason;
use std::alloc::Global;
use text_spec::NoMemory;

/// Prints one record in text form.
fn put_as_text<O: Sink>(alloc: Global, out: &mut O, row: &Record) -> Result<(), ReportFault>
    ensures all { OnOk result (O.written out.new ≡ appended_to (O.written out.old) (record_bytes Form.Text row.now)) }
    ensures prefix { OnErr result (WritesPrefix (O.written out.old) (O.written out.new) (record_bytes Form.Text row.now)) }
    ensures faults { Counts result (O.faults out.old) (O.faults out.new) }
{
    let mut text = Vec::new(alloc);
    put_text(&mut text, row)?;
    put_all(out, &text)?;
    Ok(())
}

/// Prints one record in csv form.
fn put_as_csv<O: Sink>(alloc: Global, out: &mut O, row: &Record) -> Result<(), ReportFault>
    requires { is_visible row.now ≡ true }
    ensures all { OnOk result (O.written out.new ≡ appended_to (O.written out.old) (record_bytes Form.Csv row.now)) }
    ensures prefix { OnErr result (WritesPrefix (O.written out.old) (O.written out.new) (record_bytes Form.Csv row.now)) }
    ensures faults { Counts result (O.faults out.old) (O.faults out.new) }
{
    let mut csv = CsvText::new(alloc);
    csv.add(row)?;
    put_csv(&mut csv, out)
}

/// Prints one record.
pub fn put_record<O: Sink>(
    alloc: Global,
    out: &mut O,
    form: Form,
    row: &Record,
) -> Result<(), ReportFault>
    requires { is_visible row.now ≡ true }
    ensures all { OnOk result (O.written out.new ≡ appended_to (O.written out.old) (record_bytes form row.now)) }
    ensures prefix { OnErr result (WritesPrefix (O.written out.old) (O.written out.new) (record_bytes form row.now)) }
    ensures faults { Counts result (O.faults out.old) (O.faults out.new) }
{
    match form {
        Form::Text => put_as_text(alloc, out, row),
        Form::Csv => put_as_csv(alloc, out, row),
    }
}

/// Adds the words of a reason.
fn add_reason(row: &mut Record, reason: &Reason) -> Result<(), NoMemory>
    ensures { OnOk result (row.new ≡ row.old ++ reason_words reason.now) }
{
    let (word, detail) = reason_parts(reason);
    row.word(word)?;
    match detail {
        Some(detail) => row.word(detail),
        None => Ok(()),
    }
}

/// The reply to a line that is done.
fn make_ok(row: &mut Record, line: u64) -> Result<(), NoMemory>
    ensures { OnOk result (row.new ≡ row.old ++ ok_record line) }
{
    row.word(b"ok")?;
    row.number(line)
}

/// The reply to a line that is refused.
fn make_refused(row: &mut Record, line: u64, reason: &Reason) -> Result<(), NoMemory>
    ensures { OnOk result (row.new ≡ row.old ++ refused_record line reason.now) }
{
    row.word(b"refused")?;
    row.number(line)?;
    add_reason(row, reason)
}

/// Prints the reply to a line that is done: `ok N`.
///
/// Cost: a call of the sink; memory for the record.
pub fn put_ok<O: Sink>(alloc: Global, out: &mut O, form: Form, line: u64) -> Result<(), ReportFault>
    ensures all { OnOk result (O.written out.new ≡ appended_to (O.written out.old) (record_bytes form (ok_record line))) }
    ensures prefix { OnErr result (WritesPrefix (O.written out.old) (O.written out.new) (record_bytes form (ok_record line))) }
    ensures faults { Counts result (O.faults out.old) (O.faults out.new) }
{
    let mut row = Record::new(alloc);
    make_ok(&mut row, line)?;
    put_record(alloc, out, form, &row)
}

/// Prints the reply to a line that is refused: `refused N WHY`, where WHY is a word, and the name or the limit that it
/// is about.
///
/// Cost: a call of the sink; memory for the record.
pub fn put_refused<O: Sink>(
    alloc: Global,
    out: &mut O,
    form: Form,
    line: u64,
    reason: &Reason,
) -> Result<(), ReportFault>
    ensures all { OnOk result (O.written out.new ≡ appended_to (O.written out.old) (record_bytes form (refused_record line reason.now))) }
    ensures prefix { OnErr result (WritesPrefix (O.written out.old) (O.written out.new) (record_bytes form (refused_record line reason.now))) }
    ensures faults { Counts result (O.faults out.old) (O.faults out.new) }
{
    let mut row = Record::new(alloc);
    make_refused(&mut row, line, reason)?;
    put_record(alloc, out, form, &row)
}

/// Adds a word and a number.
fn add_count(row: &mut Record, word: &[u8], n: u64) -> Result<(), NoMemory>
    requires { is_plain word.now ≡ true }
    ensures { OnOk result (row.new ≡ row.old ++ word.now ∷ decimal n ∷ []) }
{
    row.word(word)?;
    row.number(n)
}

/// The record of a trial.
#[tactic(auto, unfolding(report_spec::specs::Trial::trial_record))]
fn make_trial(
    row: &mut Record,
    number: u32,
    points: u32,
    open_points: u32,
    edges: u64,
    depth: u64,
) -> Result<(), NoMemory>
    requires { row.old ≡ [] }
    ensures { OnOk result (row.new ≡ trial_record number points open_points edges depth) }
{
    add_count(row, b"trial", u64::from(number))?;
    add_count(row, b"points", u64::from(points))?;
    add_count(row, b"open", u64::from(open_points))?;
    add_count(row, b"edges", edges)?;
    add_count(row, b"depth", depth)
}

/// Prints the record of a trial: how many boxes, grid points, open ones and edges there are, and the sum of the depths.
///
/// Cost: a call of the sink; memory for the record.
#[tactic(auto, unfolding(report_spec::specs::Trial::trial_record))]
pub fn put_trial<O: Sink>(
    alloc: Global,
    out: &mut O,
    form: Form,
    number: u32,
    points: u32,
    open_points: u32,
    edges: u64,
    depth: u64,
) -> Result<(), ReportFault>
    ensures all { OnOk result (O.written out.new ≡ appended_to (O.written out.old) (record_bytes form (trial_record number points open_points edges depth))) }
    ensures prefix { OnErr result (WritesPrefix (O.written out.old) (O.written out.new) (record_bytes form (trial_record number points open_points edges depth))) }
    ensures faults { Counts result (O.faults out.old) (O.faults out.new) }
{
    let mut row = Record::new(alloc);
    make_trial(&mut row, number, points, open_points, edges, depth)?;
    put_record(alloc, out, form, &row)
}
