//! The table of turn depths.

ghost use Rattle.std.specs.Prelude.{◌<◌, ◌^◌, length};

use crate::table::Table;
use dm_io::Sink;
use options_spec::Form;
use reports::{ReportFault, put_turns};
use std::alloc::Global;

/// The turn depths of pieces, of which there are few enough to add up.
#[derive(Drop)]
pub struct TurnsTable<'a> {
    pub depths: &'a [Option<u32>],
    ghost few: { length depths.now < 2 ^ 32 },
}

impl<'a> Table for TurnsTable<'a> {
    ghost use Rattle.report_spec.specs.Tables.{turns_table};

    ghost records = { λ s. turns_table s.depths.now };

    fn put<O: Sink>(&self, alloc: Global, out: &mut O, form: Form) -> Result<(), ReportFault> {
        put_turns(alloc, out, form, self.depths)
    }
}
