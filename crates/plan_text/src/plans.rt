//! The text of a plan, read.

ghost use Rattle.std.specs.Prelude.{◌≡◌, ◌≤◌, OnOk, length};
ghost use Rattle.plan_text.specs.PartialPlans.{with_line};
ghost use Rattle.plan_text.specs.Answers.{fault_at};
ghost use Rattle.grammar_spec.specs.declared.limits.TheConstants.{MAX_PLAN_BYTES};
ghost use Rattle.plan_text.specs.Readings.{ReadsPlan};

use crate::faults::{ReadLineFault, ReadPlanFault};
use crate::plan_lines::read_plan_line;
use crate::words::next_line;
use grammar_spec::{LineNumbers, PlanLine, TextWhy, Version};
use plan_spec::{Items, PlanData};
use std::alloc::Global;
use text_spec::NoMemory;

/// A plan as it is read: its items, and in `lines` the number of each item's line and, last, the number of lines plus
/// 1.
#[derive(Drop)]
pub struct PlanText {
    /// The items of the text.
    pub plan: PlanData,
    /// The line on which each item stands.
    pub lines: LineNumbers,
}

/// A plan as far as it is read.
#[derive(Drop)]
struct PartialPlan {
    header: Option<Version>,
    items: Items,
    lines: LineNumbers,
}

/// Takes one line more.
fn take_line(draft: &mut PartialPlan, number: u32, line: PlanLine) -> Result<(), NoMemory>
    ensures { OnOk result (draft.new ≡ with_line number line draft.old) }
{
    match line {
        PlanLine::Blank => {}
        PlanLine::Header(version) => draft.header = Some(version),
        PlanLine::Item(item) => {
            draft.items.push(item)?;
            draft.lines.push(number)?;
        }
    }
    Ok(())
}

/// The fault of a line, with its number.
fn fault_at(line: u32, fault: ReadLineFault) -> ReadPlanFault
    ensures { result ≡ fault_at line fault }
{
    match fault {
        ReadLineFault::Bad(why) => ReadPlanFault::Bad { line, why },
        ReadLineFault::NoMemory => ReadPlanFault::NoMemory,
    }
}

/// Reads the text of a plan of at most [`MAX_PLAN_BYTES`] bytes: its items, each with the number of its line. `Bad`
/// names the first line that is outside the grammar, and the first cause that holds there; where no line is a header,
/// the line after the last.
///
/// Cost: one pass over the bytes, each looked at a constant number of times; memory for the items and their points
/// alone.
pub fn read_plan(alloc: Global, bytes: &[u8]) -> Result<PlanText, ReadPlanFault>
    requires { length bytes.now ≤ MAX_PLAN_BYTES }
    ensures { ReadsPlan bytes.now result }
{
    let mut draft = PartialPlan {
        header: None,
        items: Items::new(alloc),
        lines: LineNumbers::new(alloc),
    };
    let mut number = 1;
    let mut rest = bytes;
    'lines: while let Some((line, more)) = next_line(rest) {
        match read_plan_line(alloc, draft.header, line) {
            Ok(found) => take_line(&mut draft, number, found)?,
            Err(fault) => return Err(fault_at(number, fault)),
        }
        number += 1;
        rest = more;
    }
    if draft.header.is_none() {
        return Err(ReadPlanFault::Bad {
            line: number,
            why: TextWhy::Kind,
        });
    }
    draft.lines.push(number)?;
    Ok(PlanText {
        plan: PlanData { items: draft.items },
        lines: draft.lines,
    })
}
