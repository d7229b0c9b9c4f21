//! A line of a script at a desk.

ghost use Rattle.std.specs.Prelude.{IfOk};
ghost use Rattle.desk_text.specs.DeskReadings.{HasShiftInDeskLine, ReadsDeskLine, desk_reading_of_shown};

use crate::other::of_script;
use crate::own::own_line;
use desk_spec::DeskLine;
use grammar_spec::TextWhy;
use plan_text::{ReadLineFault, is_long, read_line};
use std::alloc::Global;

/// Reads a line of a script at a desk, given without its newline and without the carriage return before it. `Bad` has
/// the first cause that holds. A shift that is read has at most nine digits in each coordinate, as an edit of a plan
/// asks. Memory is taken for the points of `add` and `addbox` alone: of any other line, and of any that is outside the
/// grammar, want of memory is never answered.
///
/// That the answer is the grammar's of the line as it stands in the script is the law
/// [`crate::desk_lines_are_read`].
///
/// Cost: one pass over the bytes, each looked at a constant number of times.
#[tactic(auto, unfolding(desk_spec::specs::DeskText::read_desk_line))]
pub fn read_desk_line(alloc: Global, bytes: &[u8]) -> Result<DeskLine, ReadLineFault>
    ensures reads { ReadsDeskLine (desk_reading_of_shown bytes.now) result }
    ensures shift { IfOk result HasShiftInDeskLine }
{
    if is_long(bytes) {
        return Err(ReadLineFault::Bad(TextWhy::Long));
    }
    match own_line(bytes) {
        Some(line) => Ok(line?),
        None => {
            let line = read_line(alloc, bytes)?;
            Ok(of_script(line)?)
        }
    }
}
