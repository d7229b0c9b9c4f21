//! The lines that a desk has with any script.

ghost use Rattle.std.specs.Prelude.{◌≡◌, IfOk, Ok};
ghost use Rattle.plan_text.specs.Readings.{HasShiftInLine};
ghost use Rattle.desk_spec.specs.DeskText.{desk_question, of_script};
ghost use Rattle.desk_text.specs.DeskReadings.{HasShiftInDeskLine};

use desk_spec::DeskLine;
use grammar_spec::{Line, Query, TextWhy};

/// What a question asks of a desk: the plan, or nothing that it answers.
fn question(query: &Query) -> Result<DeskLine, TextWhy>
    ensures asks { result ≡ desk_question query.now }
    ensures shift { IfOk result HasShiftInDeskLine }
{
    match query {
        Query::Plan => Ok(DeskLine::ShowPlan),
        Query::Edges => Err(TextWhy::Kind),
        Query::Points => Err(TextWhy::Kind),
        Query::Axial => Err(TextWhy::Kind),
        Query::Lines => Err(TextWhy::Kind),
        Query::Segments => Err(TextWhy::Kind),
        Query::Depth(_place) => Err(TextWhy::Kind),
        Query::Isovist(_place) => Err(TextWhy::Kind),
        Query::Turns(_name) => Err(TextWhy::Kind),
    }
}

/// What the line of any script asks of a desk.
pub fn of_script(line: Line) -> Result<DeskLine, TextWhy>
    requires { HasShiftInLine line }
    ensures asks { result ≡ of_script (Ok line) }
    ensures shift { IfOk result HasShiftInDeskLine }
{
    match line {
        Line::Blank => Ok(DeskLine::Blank),
        Line::Edit(edit) => Ok(DeskLine::Edit(edit)),
        Line::Query(query) => question(&query),
    }
}
