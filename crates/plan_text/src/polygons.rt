//! Lists of points, which take memory.

ghost use Rattle.std.specs.Prelude.{◌≡◌, ◌∷◌, [], true, length, is_some, ok_or, option_map, IfOk, if◌then◌else◌};
ghost use Rattle.text_spec.specs.Words.{words_of};
ghost use Rattle.plane_spec.specs.Vectors.{point};
ghost use Rattle.grammar_spec.specs.Arguments.{is_count, numbers_of, points_of};
ghost use Rattle.plan_text.specs.Answers.{Answers};

use crate::faults::ReadLineFault;
use crate::fields::next_point;
use crate::numbers::number;
use crate::words::next_word;
use grammar_spec::{Count, TextWhy};
use plan_spec::Points;
use plane_spec::Point;
use std::alloc::Global;
use text_spec::NoMemory;

/// What is answered where a list found no memory and these words are left: a word that is no number is told all the
/// same.
#[tactic(auto, unfolding(grammar_spec::specs::Arguments::numbers_of))]
fn fault_without_memory(words: &[u8]) -> ReadLineFault
    ensures { result ≡ (if is_some (numbers_of (words_of words.now)) then ReadLineFault.NoMemory else ReadLineFault.Bad TextWhy.Number) }
{
    let mut rest = words;
    'words: while let Some((word, more)) = next_word(rest) {
        if number(word).is_none() {
            return ReadLineFault::Bad(TextWhy::Number);
        }
        rest = more;
    }
    ReadLineFault::NoMemory
}

/// The words two by two as points.
#[tactic(auto, unfolding(grammar_spec::specs::Arguments::numbers_of, grammar_spec::specs::Arguments::points_of))]
pub fn points(alloc: Global, words: &[u8]) -> Result<Points, ReadLineFault>
    requires { is_count Count.InPairs (length (words_of words.now)) ≡ true }
    ensures { Answers (ok_or (option_map points_of (numbers_of (words_of words.now))) TextWhy.Number) result }
{
    let mut points = Points::new(alloc);
    let mut rest = words;
    'pairs: while let Some((point, more)) = next_point(rest) {
        if points.push(point).is_err() {
            return Err(fault_without_memory(more));
        }
        rest = more;
    }
    if next_word(rest).is_some() {
        return Err(ReadLineFault::Bad(TextWhy::Number));
    }
    Ok(points)
}

/// The four corners of a box from two that are opposite.
pub fn box_points(alloc: Global, from: Point, to: Point) -> Result<Points, NoMemory>
    ensures { IfOk result (λ points. points ≡ from ∷ point to.x from.y ∷ to ∷ point from.x to.y ∷ []) }
{
    let mut points = Points::new(alloc);
    points.push(from)?;
    points.push(Point { x: to.x, y: from.y })?;
    points.push(to)?;
    points.push(Point { x: from.x, y: to.y })?;
    Ok(points)
}
