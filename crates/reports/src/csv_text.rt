//! Records in csv form, which gather in memory.

ghost use Rattle.std.specs.Prelude.{◌≡◌, ◌++◌, [], true, IfOk, OnOk};
ghost use Rattle.options_spec.specs.declared.options.Form.TheVariants.{Csv};
ghost use Rattle.report_spec.specs.Records.{record_bytes};
ghost use Rattle.csv.specs.Writing as writing;
ghost use Rattle.csv_laws.specs.Plain.{is_visible};
ghost use Rattle.reports.specs.Gathered.{IsBetweenRecords, csv_bytes};

use crate::record::Record;
use csv::{Writer, WriterBuilder};
use std::alloc::Global;
use std::marker::Model;
use std::mem;
use text_spec::NoMemory;

/// How many records gather before they are put.
const FEW: u32 = 2048;

/// Records as the crate `csv` writes them, until they are taken. Contracts see their bytes.
#[derive(Drop)]
pub struct CsvText {
    writer: Writer<Vec<u8>>,
    alloc: Global,
    records: u32,
}

impl Model for CsvText {
    ghost use Rattle.std.specs.Prelude.{List, ℕ};
    ghost use Rattle.reports.specs.Gathered.{IsBetweenRecords, csv_bytes};

    ghost Value = { List ℕ };

    ghost view = { λ a. csv_bytes a.writer };

    ghost invariant = { λ a. IsBetweenRecords a.writer };
}

/// A writer of records of any lengths, into memory.
fn writer_into_memory(alloc: Global) -> Writer<Vec<u8>>
    ensures between { IsBetweenRecords result }
    ensures empty { csv_bytes result ≡ [] }
{
    WriterBuilder::new()
        .flexible(true)
        .from_writer(Vec::new(alloc))
}

impl CsvText {
    /// No records.
    pub fn new(alloc: Global) -> CsvText
        ensures { result ≡ [] }
    {
        CsvText {
            writer: writer_into_memory(alloc),
            alloc,
            records: 0,
        }
    }

    /// Adds a record.
    pub fn add(&mut self, row: &Record) -> Result<(), NoMemory>
        requires { is_visible row.now ≡ true }
        ensures { OnOk result (self.new ≡ self.old ++ record_bytes Csv row.now) }
    {
        match self.writer.write_byte_record(row.row()) {
            Ok(()) => {
                self.records = self.records.saturating_add(1);
                Ok(())
            }
            Err(_) => {
                self.writer = writer_into_memory(self.alloc);
                Err(NoMemory)
            }
        }
    }

    /// Whether so many records have gathered that it is time to put them.
    pub fn is_full(&self) -> bool {
        self.records >= FEW
    }

    /// Takes the bytes of all records.
    pub fn take(&mut self) -> Result<Vec<u8>, NoMemory>
        ensures bytes { IfOk result (λ bytes. bytes.items ≡ self.old) }
        ensures empty { self.new ≡ [] }
    {
        let full = mem::replace(&mut self.writer, writer_into_memory(self.alloc));
        self.records = 0;
        match full.into_inner() {
            Ok(bytes) => Ok(bytes),
            Err(_) => Err(NoMemory),
        }
    }
}
