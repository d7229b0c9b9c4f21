//! Tables whose values are computed.

ghost use Rattle.std.specs.Prelude.{◌≡◌, ℕ, List, OnErr, OnOk};
ghost use Rattle.dm_io.specs.Streams.{WritesPrefix, appended_to};
ghost use Rattle.report_spec.specs.Records.{records_bytes};
ghost use Rattle.reports.specs.Faults.{Counts};

use dm_io::Sink;
use options_spec::Form;
use reports::ReportFault;
use std::alloc::Global;

/// A table whose values are computed, and which is to be printed.
pub trait Table {
    /// Its records.
    ghost records: { Self → List (List (List ℕ)) };

    /// Prints it.
    fn put<O: Sink>(&self, alloc: Global, out: &mut O, form: Form) -> Result<(), ReportFault>
        ensures all { OnOk result (O.written out.new ≡ appended_to (O.written out.old) (records_bytes form (records self.now))) }
        ensures prefix { OnErr result (WritesPrefix (O.written out.old) (O.written out.new) (records_bytes form (records self.now))) }
        ensures faults { Counts result (O.faults out.old) (O.faults out.new) };
}
