//! What follows a keyword, by its shape. The first of these that holds is told: a wrong number of words, a wrong name,
//! a wrong number.

ghost use Rattle.std.specs.Prelude.{◌≡◌, true, false};
ghost use Rattle.text_spec.specs.Words.{words_of};
ghost use Rattle.grammar_spec.specs.Arguments.{shape, read_fields, point_from, points_of};
ghost use Rattle.grammar_spec.specs.PlanText.{ok_map, grid_of};
ghost use Rattle.plan_text.specs.Answers.{Answers};

use crate::faults::ReadLineFault;
use crate::fields::{grid_spec, name_and_numbers, numbers_alone, one_point, two_points};
use crate::polygons::points;
use grammar_spec::{Count, TextWhy};
use plan_spec::{GridSpec, Points};
use plane_spec::Point;
use std::alloc::Global;
use text_spec::Name;

/// `s x0 y0 cols rows`
pub fn grid(words: &[u8]) -> Result<GridSpec, TextWhy>
    ensures { result ≡ ok_map (λ f. grid_of f.numbers) (read_fields (shape false (Count.Exactly 5)) (words_of words.now)) }
{
    numbers_alone(words, Count::Exactly(5))?;
    grid_spec(words).ok_or(TextWhy::Number)
}

/// `x y`
pub fn place(words: &[u8]) -> Result<Point, TextWhy>
    ensures { result ≡ ok_map (λ f. point_from f.numbers 0) (read_fields (shape false (Count.Exactly 2)) (words_of words.now)) }
{
    numbers_alone(words, Count::Exactly(2))?;
    one_point(words).ok_or(TextWhy::Number)
}

/// `x0 y0 x1 y1`
pub fn corners(words: &[u8]) -> Result<(Point, Point), TextWhy>
    ensures { result ≡ ok_map (λ f. (point_from f.numbers 0, point_from f.numbers 2)) (read_fields (shape false (Count.Exactly 4)) (words_of words.now)) }
{
    numbers_alone(words, Count::Exactly(4))?;
    two_points(words).ok_or(TextWhy::Number)
}

/// `x y ..`
pub fn polygon(alloc: Global, words: &[u8]) -> Result<Points, ReadLineFault>
    ensures { Answers (ok_map (λ f. points_of f.numbers) (read_fields (shape false Count.InPairs) (words_of words.now))) result }
{
    numbers_alone(words, Count::InPairs)?;
    points(alloc, words)
}

/// `NAME`
#[tactic(auto, using(std::proofs::lemmas::List::nil_from_length), unfolding(grammar_spec::specs::Arguments::numbers_of))]
pub fn named(words: &[u8]) -> Result<Name, TextWhy>
    ensures { result ≡ ok_map (λ f. f.name) (read_fields (shape true (Count.Exactly 0)) (words_of words.now)) }
{
    let (name, _) = name_and_numbers(words, Count::Exactly(0))?;
    Ok(name)
}

/// `NAME x y`
pub fn named_place(words: &[u8]) -> Result<(Name, Point), TextWhy>
    ensures { result ≡ ok_map (λ f. (f.name, point_from f.numbers 0)) (read_fields (shape true (Count.Exactly 2)) (words_of words.now)) }
{
    let (name, numbers) = name_and_numbers(words, Count::Exactly(2))?;
    let point = one_point(numbers).ok_or(TextWhy::Number)?;
    Ok((name, point))
}

/// `NAME x0 y0 x1 y1`
pub fn named_corners(words: &[u8]) -> Result<(Name, Point, Point), TextWhy>
    ensures { result ≡ ok_map (λ f. (f.name, point_from f.numbers 0, point_from f.numbers 2)) (read_fields (shape true (Count.Exactly 4)) (words_of words.now)) }
{
    let (name, numbers) = name_and_numbers(words, Count::Exactly(4))?;
    let (from, to) = two_points(numbers).ok_or(TextWhy::Number)?;
    Ok((name, from, to))
}

/// `NAME x y ..`
pub fn named_polygon(alloc: Global, words: &[u8]) -> Result<(Name, Points), ReadLineFault>
    ensures { Answers (ok_map (λ f. (f.name, points_of f.numbers)) (read_fields (shape true Count.InPairs) (words_of words.now))) result }
{
    let (name, numbers) = name_and_numbers(words, Count::InPairs)?;
    let points = points(alloc, numbers)?;
    Ok((name, points))
}
