//! Records that gather and go to a sink in long pieces.

ghost use Rattle.std.specs.Prelude.{◌≡◌, ◌++◌, [], true, OnErr, OnOk};
ghost use Rattle.dm_io.specs.Streams.{WritesPrefix, appended_to};
ghost use Rattle.dm_io.specs.OutputBuffer.{WritesAndBuffers};
ghost use Rattle.report_spec.specs.Records.{record_bytes};
ghost use Rattle.csv_laws.specs.Plain.{is_visible};
ghost use Rattle.reports.specs.Faults.{Counts};

use crate::csv_text::CsvText;
use crate::fault::ReportFault;
use crate::record::Record;
use crate::row_text::put_text;
use dm_io::{OutputBuffer, Sink, put_all};
use options_spec::Form;
use std::alloc::Global;
use std::marker::Model;

/// Records in a form, which gather and go to a sink in pieces of 64 KiB. Contracts see the form, and the bytes that
/// wait.
#[derive(Drop)]
pub struct RecordWriter {
    form: Form,
    text: OutputBuffer,
    csv: CsvText,
    line: Vec<u8>,
}

impl Model for RecordWriter {
    ghost use Rattle.reports.specs.Gathered.{Gathered, waiting_in};

    ghost Value = { Gathered };

    ghost view = { λ a. record { form = a.form; bytes = waiting_in a.form a.text a.csv } };
}

/// Adds a record in text form to the bytes that wait. `line` is memory for it.
fn add_as_text<O: Sink>(
    text: &mut OutputBuffer,
    line: &mut Vec<u8>,
    out: &mut O,
    row: &Record,
) -> Result<(), ReportFault>
    ensures all { OnOk result (WritesAndBuffers (O.written out.old) (O.written out.new) (text.old ++ record_bytes Form.Text row.now) text.new) }
    ensures prefix { OnErr result (WritesPrefix (O.written out.old) (O.written out.new) (text.old ++ record_bytes Form.Text row.now)) }
    ensures faults { Counts result (O.faults out.old) (O.faults out.new) }
{
    line.clear();
    put_text(line, row)?;
    text.add(out, line)?;
    Ok(())
}

/// Puts the records in csv form that gathered.
pub fn put_csv<O: Sink>(csv: &mut CsvText, out: &mut O) -> Result<(), ReportFault>
    ensures empty { csv.new ≡ [] }
    ensures all { OnOk result (O.written out.new ≡ appended_to (O.written out.old) csv.old) }
    ensures prefix { OnErr result (WritesPrefix (O.written out.old) (O.written out.new) csv.old) }
    ensures faults { Counts result (O.faults out.old) (O.faults out.new) }
{
    let bytes = csv.take()?;
    put_all(out, &bytes)?;
    Ok(())
}

/// Adds a record in csv form to those that gather, and puts them where they are many.
fn add_as_csv<O: Sink>(csv: &mut CsvText, out: &mut O, row: &Record) -> Result<(), ReportFault>
    requires { is_visible row.now ≡ true }
    ensures all { OnOk result (WritesAndBuffers (O.written out.old) (O.written out.new) (csv.old ++ record_bytes Form.Csv row.now) csv.new) }
    ensures prefix { OnErr result (WritesPrefix (O.written out.old) (O.written out.new) (csv.old ++ record_bytes Form.Csv row.now)) }
    ensures faults { Counts result (O.faults out.old) (O.faults out.new) }
{
    csv.add(row)?;
    if csv.is_full() {
        put_csv(csv, out)?;
    }
    Ok(())
}

impl RecordWriter {
    /// Nothing waits.
    pub fn new(alloc: Global, form: Form) -> RecordWriter
        ensures { result ≡ record { form = form; bytes = [] } }
    {
        RecordWriter {
            form,
            text: OutputBuffer::new(),
            csv: CsvText::new(alloc),
            line: Vec::new(alloc),
        }
    }

    /// Adds a record behind the bytes that wait, and puts these where they are many. After an error a prefix of all
    /// that was to be put was written.
    pub fn add<O: Sink>(&mut self, out: &mut O, row: &Record) -> Result<(), ReportFault>
        requires { is_visible row.now ≡ true }
        ensures form { self.new.form ≡ self.old.form }
        ensures all { OnOk result (WritesAndBuffers (O.written out.old) (O.written out.new) (self.old.bytes ++ record_bytes self.old.form row.now) self.new.bytes) }
        ensures prefix { OnErr result (WritesPrefix (O.written out.old) (O.written out.new) (self.old.bytes ++ record_bytes self.old.form row.now)) }
        ensures faults { Counts result (O.faults out.old) (O.faults out.new) }
    {
        match self.form {
            Form::Text => add_as_text(&mut self.text, &mut self.line, out, row),
            Form::Csv => add_as_csv(&mut self.csv, out, row),
        }
    }

    /// Puts all that waits. After an error a prefix of it was written. Nothing waits then.
    pub fn flush<O: Sink>(&mut self, out: &mut O) -> Result<(), ReportFault>
        ensures empty { self.new ≡ record { form = self.old.form; bytes = [] } }
        ensures all { OnOk result (O.written out.new ≡ appended_to (O.written out.old) self.old.bytes) }
        ensures prefix { OnErr result (WritesPrefix (O.written out.old) (O.written out.new) self.old.bytes) }
        ensures faults { Counts result (O.faults out.old) (O.faults out.new) }
    {
        match self.form {
            Form::Text => Ok(self.text.flush(out)?),
            Form::Csv => put_csv(&mut self.csv, out),
        }
    }
}
