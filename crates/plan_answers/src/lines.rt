//! The reply to a line of a script.

ghost use Rattle.std.specs.Prelude.{◌≡◌, ℕ, IfOk, List, Ok, OnErr, OnOk, option_map};
ghost use Rattle.dm_io.specs.Streams.{WritesPrefix, appended_to};
ghost use Rattle.script_loop.specs.Steps.{Shows};
ghost use Rattle.plan_spec.specs.Edits.{HasShift, why_not_edit};
ghost use Rattle.plan_text.specs.Readings.{HasShiftInLine, reading_of_shown};
ghost use Rattle.report_spec.specs.Records.{records_bytes};
ghost use Rattle.report_spec.specs.Replies.{edit_step, step, step_by};
ghost use Rattle.reports.specs.Faults.{Counts};
ghost use Rattle.plan_edit.specs.Sessions.{session_after};
ghost use Rattle.plan_answers.specs.Answered.{Keeps, Leaves, Replies, kept_after, reading, shown_step};

use crate::questions::answer_query;
use crate::replies::{put_done, put_refusal};
use dm_io::{Gate, Sink};
use grammar_spec::{Line, TextWhy};
use options_spec::Form;
use plan_check::EditFault;
use plan_edit::Session;
use plan_spec::Edit;
use plan_text::{ReadLineFault, read_line, shown_lines_are_read};
use report_spec::Reason;
use reports::ReportFault;
use std::alloc::Global;
use std::thread::Threads;

/// Makes the edit, and prints the reply. Whether it is refused.
#[tactic(auto, using(crate::proofs::Printed::nothing))]
fn answer_edit<O: Sink>(
    alloc: Global,
    session: &mut Session,
    form: Form,
    number: u64,
    edit: &Edit,
    out: &mut O,
) -> Result<bool, ReportFault>
    requires shift { HasShift edit.now }
    ensures answers { Replies form (O.written out.old) (O.written out.new) (edit_step session.old.plan number edit.now (why_not_edit session.old.plan edit.now)) result }
    ensures leaves { Leaves session.old.plan session.new.plan (edit_step session.old.plan number edit.now (why_not_edit session.old.plan edit.now)) result }
    ensures keeps { Keeps (session_after session.old edit.now) session.new }
    ensures faults { Counts result (O.faults out.old) (O.faults out.new) }
{
    match session.apply(alloc, edit) {
        Ok(()) => put_done(alloc, out, form, number),
        Err(EditFault::Refused(why)) => {
            put_refusal(alloc, out, form, number, &Reason::Edit(why))
        }
        Err(EditFault::NoMemory) => Err(ReportFault::NoMemory),
    }
}

/// Does what a line that was read asks for, and prints the reply. Whether it is refused.
#[tactic(auto, using(crate::proofs::Printed::no_record))]
fn answer_read<O: Sink, G: Gate>(
    rt: &(impl Threads + Sync),
    alloc: Global,
    session: &mut Session,
    form: Form,
    number: u64,
    line: &Line,
    out: &mut O,
    gate: &G,
) -> Result<bool, ReportFault>
    requires shift { HasShiftInLine line.now }
    ensures answers { Replies form (O.written out.old) (O.written out.new) (step_by session.old.plan number (Ok line.now)) result }
    ensures leaves { Leaves session.old.plan session.new.plan (step_by session.old.plan number (Ok line.now)) result }
    ensures keeps { Keeps (kept_after session.old (Ok line.now)) session.new }
    ensures faults { Counts result (O.faults out.old) (O.faults out.new) }
{
    match line {
        Line::Blank => Ok(false),
        Line::Edit(edit) => answer_edit(alloc, session, form, number, edit, out),
        Line::Query(query) => { answer_query(rt, alloc, session, form, number, query, out, gate) }
    }
}

/// Reads the line that is shown, does what it asks for, and prints the reply. Whether it is refused.
#[tactic(auto, using(crate::proofs::Printed::nothing))]
fn answer_shown<O: Sink, G: Gate>(
    rt: &(impl Threads + Sync),
    alloc: Global,
    session: &mut Session,
    form: Form,
    number: u64,
    bytes: &[u8],
    out: &mut O,
    gate: &G,
) -> Result<bool, ReportFault>
    ensures answers { Replies form (O.written out.old) (O.written out.new) (step_by session.old.plan number (reading_of_shown bytes.now)) result }
    ensures leaves { Leaves session.old.plan session.new.plan (step_by session.old.plan number (reading_of_shown bytes.now)) result }
    ensures keeps { Keeps (kept_after session.old (reading_of_shown bytes.now)) session.new }
    ensures faults { Counts result (O.faults out.old) (O.faults out.new) }
{
    match read_line(alloc, bytes) {
        Ok(line) => answer_read(rt, alloc, session, form, number, &line, out, gate),
        Err(ReadLineFault::Bad(why)) => {
            put_refusal(alloc, out, form, number, &Reason::Text(why))
        }
        Err(ReadLineFault::NoMemory) => Err(ReportFault::NoMemory),
    }
}

/// Does what a line of a script asks for, and prints the reply: nothing to a blank line, `ok N` and the table that it
/// asks for, or `refused N WHY`. Whether it is refused. The line is shown without its newline and a carriage return
/// before it, or `None` where it was too long. `rt` lends threads, and each worker tells the gate each row of the
/// visibility graph that it claims.
///
/// After a fault a prefix of the reply was written, and an edit may be made or not. The session lets nothing go that it
/// kept but what an edit lets go. The clauses with `whole` say all of it once more, of the line as it stands in the script.
///
/// Cost: that of what is asked for, where the session doesn't keep it.
pub fn answer_line<O: Sink, G: Gate>(
    rt: &(impl Threads + Sync),
    alloc: Global,
    session: &mut Session,
    form: Form,
    number: u64,
    line: Option<&[u8]>,
    out: &mut O,
    gate: &G,
) -> Result<bool, ReportFault>
    ensures answers { Replies form (O.written out.old) (O.written out.new) (shown_step session.old.plan number (option_map (λ bytes. bytes.now) line.entry)) result }
    ensures after { Leaves session.old.plan session.new.plan (shown_step session.old.plan number (option_map (λ bytes. bytes.now) line.entry)) result }
    ensures keeps { Keeps (kept_after session.old (reading (option_map (λ bytes. bytes.now) line.entry))) session.new }
    ensures written { OnOk result ((whole : List ℕ) → Shows whole (option_map (λ bytes. bytes.now) line.entry) → O.written out.new ≡ appended_to (O.written out.old) (records_bytes form (step session.old.plan number whole).records)) }
    ensures leaves { OnOk result ((whole : List ℕ) → Shows whole (option_map (λ bytes. bytes.now) line.entry) → session.new.plan ≡ (step session.old.plan number whole).plan) }
    ensures refused { IfOk result (λ refused. (whole : List ℕ) → Shows whole (option_map (λ bytes. bytes.now) line.entry) → refused ≡ (step session.old.plan number whole).refused) }
    ensures prefix { OnErr result ((whole : List ℕ) → Shows whole (option_map (λ bytes. bytes.now) line.entry) → WritesPrefix (O.written out.old) (O.written out.new) (records_bytes form (step session.old.plan number whole).records)) }
    ensures faults { Counts result (O.faults out.old) (O.faults out.new) }
{
    shown_lines_are_read();
    match line {
        Some(bytes) => answer_shown(rt, alloc, session, form, number, bytes, out, gate),
        None => put_refusal(alloc, out, form, number, &Reason::Text(TextWhy::Long)),
    }
}
