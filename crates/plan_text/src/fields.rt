//! What stands after a keyword: a name, where the line has one, and numbers.

ghost use Rattle.std.specs.Prelude.{◌≡◌, ◌+◌, ◌<◌, [], Some, None, true, false, length, option_map, IfSome, IfNone, IfOk, IfErr, OnOk, Ok, Err};
ghost use Rattle.text_spec.specs.Words.{words_of};
ghost use Rattle.grammar_spec.specs.Arguments.{is_count, number_before, numbers_of, fields_with, read_fields_by, point_from};
ghost use Rattle.grammar_spec.specs.PlanText.{grid_of};

use crate::numbers::number;
use crate::words::{count_words, next_word};
use grammar_spec::{Count, TextWhy};
use plan_spec::GridSpec;
use plane_spec::Point;
use text_spec::Name;

/// Whether the number of words fits.
fn is_count(asked: Count, count: usize) -> bool
    ensures { result ≡ is_count asked count }
{
    match asked {
        Count::Exactly(wanted) => count == wanted,
        Count::InPairs => count > 0 && count % 2 == 0,
    }
}

/// The name and the words of the numbers, where the number of words fits.
#[tactic(auto, unfolding(grammar_spec::specs::Arguments::read_fields_by))]
pub fn name_and_numbers(words: &[u8], asked: Count) -> Result<(Name, &[u8]), TextWhy>
    ensures ok { IfOk result (λ r. read_fields_by true asked (words_of words.now) ≡ fields_with r.0 (numbers_of (words_of r.1.now))) }
    ensures counted { IfOk result (λ r. is_count asked (length (words_of r.1.now)) ≡ true) }
    ensures err { IfErr result (λ why. read_fields_by true asked (words_of words.now) ≡ Err why) }
{
    let (word, rest) = next_word(words).ok_or(TextWhy::Words)?;
    if !is_count(asked, count_words(rest)) {
        return Err(TextWhy::Words);
    }
    let name = Name::of(word).ok_or(TextWhy::Name)?;
    Ok((name, rest))
}

/// Tests the number of words of a line without a name.
#[tactic(auto, unfolding(grammar_spec::specs::Arguments::read_fields_by))]
pub fn numbers_alone(words: &[u8], asked: Count) -> Result<(), TextWhy>
    ensures ok { OnOk result (read_fields_by false asked (words_of words.now) ≡ fields_with [] (numbers_of (words_of words.now))) }
    ensures counted { OnOk result (is_count asked (length (words_of words.now)) ≡ true) }
    ensures err { IfErr result (λ why. read_fields_by false asked (words_of words.now) ≡ Err why) }
{
    if !is_count(asked, count_words(words)) {
        return Err(TextWhy::Words);
    }
    Ok(())
}

/// The first number, and the words that follow it.
#[tactic(auto, unfolding(grammar_spec::specs::Arguments::numbers_of))]
pub fn next_number(words: &[u8]) -> Option<(i64, &[u8])>
    ensures some { IfSome result (λ r. numbers_of (words_of words.now) ≡ number_before (Some r.0) (numbers_of (words_of r.1.now))) }
    ensures one { IfSome result (λ r. length (words_of words.now) ≡ length (words_of r.1.now) + 1) }
    ensures none { IfNone result (0 < length (words_of words.now) → numbers_of (words_of words.now) ≡ None) }
{
    let (word, rest) = next_word(words)?;
    Some((number(word)?, rest))
}

/// The first two numbers as a point, and the words that follow them.
#[tactic(auto, unfolding(grammar_spec::specs::Arguments::numbers_of))]
pub fn next_point(words: &[u8]) -> Option<(Point, &[u8])>
    ensures some { IfSome result (λ r. numbers_of (words_of words.now) ≡ number_before (Some r.0.x) (number_before (Some r.0.y) (numbers_of (words_of r.1.now)))) }
    ensures two { IfSome result (λ r. length (words_of words.now) ≡ length (words_of r.1.now) + 2) }
    ensures none { IfNone result (1 < length (words_of words.now) → numbers_of (words_of words.now) ≡ None) }
{
    let (x, rest) = next_number(words)?;
    let (y, rest) = next_number(rest)?;
    Some((Point { x, y }, rest))
}

/// Two numbers as a point.
#[tactic(auto, unfolding(grammar_spec::specs::Arguments::numbers_of))]
pub fn one_point(words: &[u8]) -> Option<Point>
    requires { length (words_of words.now) ≡ 2 }
    ensures { result ≡ option_map (λ numbers. point_from numbers 0) (numbers_of (words_of words.now)) }
{
    let (point, _) = next_point(words)?;
    Some(point)
}

/// Four numbers as two points.
#[tactic(auto, unfolding(grammar_spec::specs::Arguments::numbers_of))]
pub fn two_points(words: &[u8]) -> Option<(Point, Point)>
    requires { length (words_of words.now) ≡ 4 }
    ensures { result ≡ option_map (λ numbers. (point_from numbers 0, point_from numbers 2)) (numbers_of (words_of words.now)) }
{
    let (from, rest) = next_point(words)?;
    let (to, _) = next_point(rest)?;
    Some((from, to))
}

/// Five numbers as a grid.
#[tactic(auto, unfolding(grammar_spec::specs::Arguments::numbers_of))]
pub fn grid_spec(words: &[u8]) -> Option<GridSpec>
    requires { length (words_of words.now) ≡ 5 }
    ensures { result ≡ option_map grid_of (numbers_of (words_of words.now)) }
{
    let (step, rest) = next_number(words)?;
    let (origin, rest) = next_point(rest)?;
    let (size, _) = next_point(rest)?;
    Some(GridSpec {
        step,
        x0: origin.x,
        y0: origin.y,
        cols: size.x,
        rows: size.y,
    })
}
