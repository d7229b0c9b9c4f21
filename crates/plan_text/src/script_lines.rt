//! The lines of a script.

ghost use Rattle.std.specs.Prelude.{◌≡◌, ℕ, List, true, IfOk};
ghost use Rattle.text_spec.specs.Lines.{is_long};
ghost use Rattle.text_spec.specs.Words.{words_of};
ghost use Rattle.grammar_spec.specs.Arguments.{read_fields};
ghost use Rattle.grammar_spec.specs.PlanText.{ok_map};
ghost use Rattle.grammar_spec.specs.ScriptText.{script_word, script_shape, line_of, shown, read_show, read_line_of_script};
ghost use Rattle.plan_text.specs.Readings.{IsShown, reading_of_shown, ReadsLine, HasShiftInLine};

use crate::arguments::{named, named_corners, named_place, named_polygon, place};
use crate::faults::ReadLineFault;
use crate::polygons::box_points;
use crate::words::{begins_comment, is_long, is_word, next_word};
use grammar_spec::{Line, Query, ScriptWord, TextWhy};
use plan_spec::Edit;
use std::alloc::Global;

/// The kind of line that a word begins.
#[tactic(auto, unfolding(grammar_spec::specs::ScriptText::script_word))]
fn kind_of_line(word: &[u8]) -> Option<ScriptWord>
    ensures { result ≡ script_word word.now }
{
    if is_word(word, b"add") {
        Some(ScriptWord::Add)
    } else if is_word(word, b"addbox") {
        Some(ScriptWord::Addbox)
    } else if is_word(word, b"remove") {
        Some(ScriptWord::Remove)
    } else if is_word(word, b"move") {
        Some(ScriptWord::Move)
    } else if is_word(word, b"addscreen") {
        Some(ScriptWord::Addscreen)
    } else if is_word(word, b"removescreen") {
        Some(ScriptWord::Removescreen)
    } else if is_word(word, b"addroute") {
        Some(ScriptWord::Addroute)
    } else if is_word(word, b"removeroute") {
        Some(ScriptWord::Removeroute)
    } else if is_word(word, b"depth") {
        Some(ScriptWord::Depth)
    } else if is_word(word, b"isovist") {
        Some(ScriptWord::Isovist)
    } else if is_word(word, b"turns") {
        Some(ScriptWord::Turns)
    } else {
        None
    }
}

/// The edit or the question of a line, from the words after its keyword.
#[tactic(auto, unfolding(grammar_spec::specs::ScriptText::line_of))]
fn line(alloc: Global, word: ScriptWord, words: &[u8]) -> Result<Line, ReadLineFault>
    ensures { ReadsLine (ok_map (line_of word) (read_fields (script_shape word) (words_of words.now))) result }
{
    match word {
        ScriptWord::Add => {
            let (name, points) = named_polygon(alloc, words)?;
            Ok(Line::Edit(Edit::Add(name, points)))
        }
        ScriptWord::Addbox => {
            let (name, from, to) = named_corners(words)?;
            Ok(Line::Edit(Edit::Add(name, box_points(alloc, from, to)?)))
        }
        ScriptWord::Remove => Ok(Line::Edit(Edit::Remove(named(words)?))),
        ScriptWord::Move => {
            let (name, shift) = named_place(words)?;
            Ok(Line::Edit(Edit::Move(name, shift.x, shift.y)))
        }
        ScriptWord::Addscreen => {
            let (name, from, to) = named_corners(words)?;
            Ok(Line::Edit(Edit::AddScreen(name, from, to)))
        }
        ScriptWord::Removescreen => Ok(Line::Edit(Edit::RemoveScreen(named(words)?))),
        ScriptWord::Addroute => {
            let (name, from, to) = named_corners(words)?;
            Ok(Line::Edit(Edit::AddRoute(name, from, to)))
        }
        ScriptWord::Removeroute => Ok(Line::Edit(Edit::RemoveRoute(named(words)?))),
        ScriptWord::Depth => Ok(Line::Query(Query::Depth(place(words)?))),
        ScriptWord::Isovist => Ok(Line::Query(Query::Isovist(place(words)?))),
        ScriptWord::Turns => Ok(Line::Query(Query::Turns(named(words)?))),
    }
}

/// The table that a word after `show` names.
#[tactic(auto, unfolding(grammar_spec::specs::ScriptText::shown))]
fn table(word: &[u8]) -> Option<Query>
    ensures { result ≡ shown word.now }
{
    if is_word(word, b"edges") {
        Some(Query::Edges)
    } else if is_word(word, b"points") {
        Some(Query::Points)
    } else if is_word(word, b"axial") {
        Some(Query::Axial)
    } else if is_word(word, b"lines") {
        Some(Query::Lines)
    } else if is_word(word, b"segments") {
        Some(Query::Segments)
    } else if is_word(word, b"plan") {
        Some(Query::Plan)
    } else {
        None
    }
}

/// The question of a line, from the words after `show`.
fn shown_table(words: &[u8]) -> Result<Line, TextWhy>
    ensures { result ≡ read_show (words_of words.now) }
{
    let (word, rest) = next_word(words).ok_or(TextWhy::Words)?;
    if next_word(rest).is_some() {
        return Err(TextWhy::Words);
    }
    let query = table(word).ok_or(TextWhy::Kind)?;
    Ok(Line::Query(query))
}

/// Reads a line of a script, given without its newline and without the carriage return before it. `Bad` has the first
/// cause that holds. A shift that is read has at most nine digits in each coordinate, as an edit of a plan asks. Memory
/// is taken for the points of `add` and `addbox` alone: of any other line, and of any that is outside the grammar, want
/// of memory is never answered.
///
/// That the answer is the grammar's of the line as it stands in the script is the law [`shown_lines_are_read`].
///
/// Cost: one pass over the bytes, each looked at a constant number of times.
#[tactic(auto, unfolding(grammar_spec::specs::ScriptText::read_script_line, text_spec::specs::Words::are_blank))]
pub fn read_line(alloc: Global, bytes: &[u8]) -> Result<Line, ReadLineFault>
    ensures reads { ReadsLine (reading_of_shown bytes.now) result }
    ensures shift { IfOk result HasShiftInLine }
{
    if is_long(bytes) {
        return Err(ReadLineFault::Bad(TextWhy::Long));
    }
    let Some((first, rest)) = next_word(bytes) else {
        return Ok(Line::Blank);
    };
    if begins_comment(first) {
        return Ok(Line::Blank);
    }
    if is_word(first, b"show") {
        return Ok(shown_table(rest)?);
    }
    let word = kind_of_line(first).ok_or(TextWhy::Kind)?;
    line(alloc, word, rest)
}

/// What is read of a line without its carriage return is what the grammar reads of the line as it stands in the script;
/// and a line that is too long there is outside the grammar for that, so it needn't be held to be refused.
pub fn shown_lines_are_read()
    ensures shown { (line shown : List ℕ) → IsShown line shown → reading_of_shown shown ≡ read_line_of_script line }
    ensures long { (line : List ℕ) → is_long line ≡ true → read_line_of_script line ≡ Err TextWhy.Long }
{}
