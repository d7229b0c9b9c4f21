//! Whole replies, of which all is computed.

ghost use Rattle.std.specs.Prelude.{◌∷◌, ◌++◌, [], false, true};
ghost use Rattle.report_spec.specs.Replies.{ok_record, refused_record};
ghost use Rattle.reports.specs.Faults.{Counts};
ghost use Rattle.plan_answers.specs.Answered.{Answers};

use crate::table::Table;
use dm_io::Sink;
use options_spec::Form;
use report_spec::Reason;
use reports::{ReportFault, put_ok, put_refused};
use std::alloc::Global;

/// Prints `ok N`.
#[tactic(auto, using(crate::proofs::Printed::one, crate::proofs::Printed::one_begun))]
pub fn put_done<O: Sink>(
    alloc: Global,
    out: &mut O,
    form: Form,
    number: u64,
) -> Result<bool, ReportFault>
    ensures answers { Answers form (O.written out.old) (O.written out.new) (ok_record number ∷ []) false result }
    ensures faults { Counts result (O.faults out.old) (O.faults out.new) }
{
    put_ok(alloc, out, form, number)?;
    Ok(false)
}

/// Prints `refused N WHY`.
#[tactic(auto, using(crate::proofs::Printed::one, crate::proofs::Printed::one_begun))]
pub fn put_refusal<O: Sink>(
    alloc: Global,
    out: &mut O,
    form: Form,
    number: u64,
    reason: &Reason,
) -> Result<bool, ReportFault>
    ensures answers { Answers form (O.written out.old) (O.written out.new) (refused_record number reason.now ∷ []) true result }
    ensures faults { Counts result (O.faults out.old) (O.faults out.new) }
{
    put_refused(alloc, out, form, number, reason)?;
    Ok(true)
}

/// Prints `ok N` and a table.
#[tactic(auto, using(crate::proofs::Printed::then_rows, crate::proofs::Printed::before_rows, crate::proofs::Printed::in_rows))]
pub fn put_answer<T: Table, O: Sink>(
    alloc: Global,
    out: &mut O,
    form: Form,
    number: u64,
    table: &T,
) -> Result<bool, ReportFault>
    ensures answers { Answers form (O.written out.old) (O.written out.new) (ok_record number ∷ T.records table.now) false result }
    ensures faults { Counts result (O.faults out.old) (O.faults out.new) }
{
    put_ok(alloc, out, form, number)?;
    table.put(alloc, out, form)?;
    Ok(false)
}

/// Prints a table.
pub fn put_one<T: Table, O: Sink>(
    alloc: Global,
    out: &mut O,
    form: Form,
    table: &T,
) -> Result<bool, ReportFault>
    ensures answers { Answers form (O.written out.old) (O.written out.new) (T.records table.now) false result }
    ensures faults { Counts result (O.faults out.old) (O.faults out.new) }
{
    table.put(alloc, out, form)?;
    Ok(false)
}

/// Prints a table and then another.
#[tactic(auto, using(crate::proofs::Printed::then_second, crate::proofs::Printed::before_second, crate::proofs::Printed::in_second))]
pub fn put_both<A: Table, B: Table, O: Sink>(
    alloc: Global,
    out: &mut O,
    form: Form,
    first: &A,
    second: &B,
) -> Result<bool, ReportFault>
    ensures answers { Answers form (O.written out.old) (O.written out.new) (A.records first.now ++ B.records second.now) false result }
    ensures faults { Counts result (O.faults out.old) (O.faults out.new) }
{
    first.put(alloc, out, form)?;
    second.put(alloc, out, form)?;
    Ok(false)
}
