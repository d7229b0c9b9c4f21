//! The lines of a plan.

ghost use Rattle.std.specs.Prelude.{◌≡◌, ◌∷◌};
ghost use Rattle.text_spec.specs.Words.{words_of};
ghost use Rattle.grammar_spec.specs.Arguments.{read_fields};
ghost use Rattle.grammar_spec.specs.PlanText.{ok_map, plan_word, has_screens, shape_of, item_of, version_of, read_plan_line};
ghost use Rattle.plan_text.specs.Answers.{Answers};

use crate::arguments::{corners, grid, named_corners, named_polygon, polygon};
use crate::faults::ReadLineFault;
use crate::polygons::box_points;
use crate::words::{begins_comment, is_long, is_word, next_word};
use grammar_spec::{PlanLine, PlanWord, TextWhy, Version};
use plan_spec::Item;
use std::alloc::Global;
use text_spec::without_return;

/// Whether screens may stand in a plan of this version.
fn has_screens(version: Version) -> bool
    ensures { result ≡ has_screens version }
{
    match version {
        Version::One => false,
        Version::Two => true,
    }
}

/// The kind of line that a word begins.
#[tactic(auto, unfolding(grammar_spec::specs::PlanText::plan_word))]
fn kind_of_line(version: Version, word: &[u8]) -> Option<PlanWord>
    ensures { result ≡ plan_word version word.now }
{
    if is_word(word, b"grid") {
        Some(PlanWord::Grid)
    } else if is_word(word, b"outer") {
        Some(PlanWord::Outer)
    } else if is_word(word, b"outerbox") {
        Some(PlanWord::Outerbox)
    } else if is_word(word, b"obstacle") {
        Some(PlanWord::Obstacle)
    } else if is_word(word, b"box") {
        Some(PlanWord::Box)
    } else if is_word(word, b"screen") && has_screens(version) {
        Some(PlanWord::Screen)
    } else if is_word(word, b"route") {
        Some(PlanWord::Route)
    } else {
        None
    }
}

/// The item of a line, from the words after its keyword.
#[tactic(auto, unfolding(grammar_spec::specs::PlanText::item_of))]
fn item(alloc: Global, word: PlanWord, words: &[u8]) -> Result<Item, ReadLineFault>
    ensures { Answers (ok_map (item_of word) (read_fields (shape_of word) (words_of words.now))) result }
{
    match word {
        PlanWord::Grid => Ok(Item::Grid(grid(words)?)),
        PlanWord::Outer => Ok(Item::Outer(polygon(alloc, words)?)),
        PlanWord::Outerbox => {
            let (from, to) = corners(words)?;
            Ok(Item::Outer(box_points(alloc, from, to)?))
        }
        PlanWord::Obstacle => {
            let (name, points) = named_polygon(alloc, words)?;
            Ok(Item::Obstacle(name, points))
        }
        PlanWord::Box => {
            let (name, from, to) = named_corners(words)?;
            Ok(Item::Obstacle(name, box_points(alloc, from, to)?))
        }
        PlanWord::Screen => {
            let (name, from, to) = named_corners(words)?;
            Ok(Item::Screen(name, from, to))
        }
        PlanWord::Route => {
            let (name, from, to) = named_corners(words)?;
            Ok(Item::Route(name, from, to))
        }
    }
}

/// What the header says whose first word and whose rest these are.
fn header_version(first: &[u8], rest: &[u8]) -> Option<Version>
    ensures { result ≡ version_of (first.now ∷ words_of rest.now) }
{
    if !is_word(first, b"plan") {
        return None;
    }
    let (second, rest) = next_word(rest)?;
    if next_word(rest).is_some() {
        return None;
    }
    if is_word(second, b"1") {
        Some(Version::One)
    } else if is_word(second, b"2") {
        Some(Version::Two)
    } else {
        None
    }
}

/// A line as it stands before its newline, after a header or before any.
#[tactic(auto, unfolding(grammar_spec::specs::PlanText::read_plan_line, text_spec::specs::Words::are_blank))]
pub fn read_plan_line(
    alloc: Global,
    header: Option<Version>,
    line: &[u8],
) -> Result<PlanLine, ReadLineFault>
    ensures { Answers (read_plan_line header line.now) result }
{
    if is_long(line) {
        return Err(ReadLineFault::Bad(TextWhy::Long));
    }
    let Some((first, rest)) = next_word(without_return(line)) else {
        return Ok(PlanLine::Blank);
    };
    if begins_comment(first) {
        return Ok(PlanLine::Blank);
    }
    let Some(version) = header else {
        let version = header_version(first, rest).ok_or(TextWhy::Kind)?;
        return Ok(PlanLine::Header(version));
    };
    let word = kind_of_line(version, first).ok_or(TextWhy::Kind)?;
    Ok(PlanLine::Item(item(alloc, word, rest)?))
}
