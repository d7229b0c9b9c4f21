//! A desk's own lines. Nothing here takes memory.

ghost use Rattle.std.specs.Prelude.{◌≡◌, [], false, IfOk, IfSome, None, Some, codes, drop, get_or, bytes_eq, length, option_map, if◌then◌else◌};
ghost use Rattle.text_spec.specs.Words.{words_of};
ghost use Rattle.grammar_spec.specs.Arguments.{at, numbers_of, read_fields, shape};
ghost use Rattle.grammar_spec.specs.PlanText.{ok_map};
ghost use Rattle.desk_spec.specs.DeskText.{own_line, read_alone, read_numbered};
ghost use Rattle.desk_text.specs.DeskReadings.{HasShiftInDeskLine};

use desk_spec::DeskLine;
use grammar_spec::{Count, TextWhy};
use plan_text::{is_word, next_number, next_word, numbers_alone};

/// That no word is there.
#[tactic(auto, using(std::proofs::lemmas::List::nil_from_length), unfolding(grammar_spec::specs::Arguments::numbers_of))]
fn alone(words: &[u8]) -> Result<(), TextWhy>
    ensures { result ≡ ok_map (λ f. record {}) (read_fields (shape false (Count.Exactly 0)) (words_of words.now)) }
{
    numbers_alone(words, Count::Exactly(0))
}

/// The one number that is there.
#[tactic(auto, using(std::proofs::lemmas::List::nil_from_length), unfolding(grammar_spec::specs::Arguments::numbers_of))]
fn one_number(words: &[u8]) -> Option<i64>
    requires { length (words_of words.now) ≡ 1 }
    ensures { result ≡ option_map (λ numbers. at numbers 0) (numbers_of (words_of words.now)) }
{
    let (number, _) = next_number(words)?;
    Some(number)
}

/// The number of a watcher.
fn watcher(words: &[u8]) -> Result<i64, TextWhy>
    ensures { result ≡ ok_map (λ f. at f.numbers 0) (read_fields (shape false (Count.Exactly 1)) (words_of words.now)) }
{
    numbers_alone(words, Count::Exactly(1))?;
    one_number(words).ok_or(TextWhy::Number)
}

/// `undo`
fn undo(words: &[u8]) -> Result<DeskLine, TextWhy>
    ensures reads { result ≡ read_alone DeskLine.Undo (words_of words.now) }
    ensures shift { IfOk result HasShiftInDeskLine }
{
    alone(words)?;
    Ok(DeskLine::Undo)
}

/// `redo`
fn redo(words: &[u8]) -> Result<DeskLine, TextWhy>
    ensures reads { result ≡ read_alone DeskLine.Redo (words_of words.now) }
    ensures shift { IfOk result HasShiftInDeskLine }
{
    alone(words)?;
    Ok(DeskLine::Redo)
}

/// `unwatch K`
fn unwatch(words: &[u8]) -> Result<DeskLine, TextWhy>
    ensures reads { result ≡ read_numbered DeskLine.Unwatch (words_of words.now) }
    ensures shift { IfOk result HasShiftInDeskLine }
{
    Ok(DeskLine::Unwatch(watcher(words)?))
}

/// `show watch K`
fn show_watch(words: &[u8]) -> Result<DeskLine, TextWhy>
    ensures reads { result ≡ read_numbered DeskLine.ShowWatch (words_of words.now) }
    ensures shift { IfOk result HasShiftInDeskLine }
{
    Ok(DeskLine::ShowWatch(watcher(words)?))
}

/// What follows `show`, where it is `watch`.
fn shown(words: &[u8]) -> Option<Result<DeskLine, TextWhy>>
    ensures reads { result ≡ (if bytes_eq (get_or (words_of words.now) 0 []) (codes "watch")
        then Some (read_numbered DeskLine.ShowWatch (drop 1 (words_of words.now))) else None) }
    ensures shift { IfSome result (λ line. IfOk line HasShiftInDeskLine) }
{
    let (first, rest) = next_word(words)?;
    if is_word(first, b"watch") {
        Some(show_watch(rest))
    } else {
        None
    }
}

/// What is read where the words begin one of the desk's own lines, and `None` where they begin another.
#[tactic(auto, unfolding(desk_spec::specs::DeskText::own_line))]
pub fn own_line(words: &[u8]) -> Option<Result<DeskLine, TextWhy>>
    ensures reads { result ≡ own_line (words_of words.now) }
    ensures shift { IfSome result (λ line. IfOk line HasShiftInDeskLine) }
{
    let (first, rest) = next_word(words)?;
    if is_word(first, b"undo") {
        Some(undo(rest))
    } else if is_word(first, b"redo") {
        Some(redo(rest))
    } else if is_word(first, b"unwatch") {
        Some(unwatch(rest))
    } else if is_word(first, b"show") {
        shown(rest)
    } else {
        None
    }
}
