//! The text of a plan, printed.

ghost use Rattle.std.specs.Prelude.{◌≡◌, ◌∷◌, ◌++◌, [], List, IfOk, OnOk, IsTrue, map};
ghost use Rattle.std.specs.Fmt.{signed_decimal};
ghost use Rattle.std.specs.List.{list_any};
ghost use Rattle.text_spec.specs.Names.{IsName};
ghost use Rattle.plan_spec.specs.Plan.{Plan, items_of};
ghost use Rattle.plan_spec.specs.Accepted.{is_sound};
ghost use Rattle.grammar_spec.specs.Arguments.{numbers_of_points, field_words};
ghost use Rattle.grammar_spec.specs.PlanText.{keyword, word_of_item, shape_of, fields_of_item, is_screen, item_words, header_words, ended_line, plan_text_of, ArePrintable};
ghost use Rattle.plan_text.specs.RoundTrip.{has_name, HaveNames, ReadsAgain};
ghost use Rattle.plan_text.specs.Printing.{spaced};

use itoa::Buffer;
use plan_spec::{Item, PlanData};
use plane_spec::Point;
use std::alloc::Global;
use text_spec::{Name, NoMemory};

/// Appends bytes.
fn put(text: &mut Vec<u8>, bytes: &[u8]) -> Result<(), NoMemory>
    ensures { OnOk result (text.new.items ≡ text.old.items ++ bytes.now) }
{
    Ok(text.extend_from_slice(bytes)?)
}

/// Appends a space and a word.
#[tactic(auto, unfolding(crate::specs::Printing::spaced))]
fn put_word(text: &mut Vec<u8>, word: &[u8]) -> Result<(), NoMemory>
    ensures { OnOk result (text.new.items ≡ text.old.items ++ spaced (word.now ∷ [])) }
{
    put(text, b" ")?;
    put(text, word)
}

/// Appends a space and a number.
fn put_number(text: &mut Vec<u8>, number: i64) -> Result<(), NoMemory>
    ensures { OnOk result (text.new.items ≡ text.old.items ++ spaced (signed_decimal number ∷ [])) }
{
    let mut buffer = Buffer::new();
    put_word(text, buffer.format(number).as_bytes())
}

/// Appends numbers, each after a space.
#[tactic(auto, using(crate::proofs::Printed::spaced_more), unfolding(crate::specs::Printing::spaced))]
fn put_numbers(text: &mut Vec<u8>, numbers: &[i64]) -> Result<(), NoMemory>
    ensures { OnOk result (text.new.items ≡ text.old.items ++ spaced (map signed_decimal numbers.now)) }
{
    'numbers: for number in numbers {
        put_number(text, *number)?;
    }
    Ok(())
}

/// Appends the numbers of points, each after a space.
#[tactic(auto, using(crate::proofs::Printed::spaced_more), unfolding(crate::specs::Printing::spaced, grammar_spec::specs::Arguments::numbers_of_points))]
fn put_points(text: &mut Vec<u8>, points: &[Point]) -> Result<(), NoMemory>
    ensures { OnOk result (text.new.items ≡ text.old.items ++ spaced (map signed_decimal (numbers_of_points points.now))) }
{
    'points: for point in points {
        put_numbers(text, &[point.x, point.y])?;
    }
    Ok(())
}

/// Appends the numbers of two points, each after a space.
fn put_ends(text: &mut Vec<u8>, from: Point, to: Point) -> Result<(), NoMemory>
    ensures { OnOk result (text.new.items ≡ text.old.items ++ spaced (map signed_decimal (from.x ∷ from.y ∷ to.x ∷ to.y ∷ []))) }
{
    put_numbers(text, &[from.x, from.y, to.x, to.y])
}

/// Appends a name and two points, each word after a space.
#[tactic(auto, using(crate::proofs::Printed::spaced_more))]
fn put_segment(text: &mut Vec<u8>, name: &Name, from: Point, to: Point) -> Result<(), NoMemory>
    ensures text { OnOk result (text.new.items ≡ text.old.items ++ spaced (name.now ∷ map signed_decimal (from.x ∷ from.y ∷ to.x ∷ to.y ∷ []))) }
    ensures named { OnOk result (IsName name.now) }
{
    put_word(text, name.bytes())?;
    put_ends(text, from, to)
}

/// The keyword with which the line of an item begins.
pub fn keyword(item: &Item) -> &'static [u8]
    ensures { result.now ≡ keyword (word_of_item item.now) }
{
    match item {
        Item::Grid(_) => b"grid",
        Item::Outer(_) => b"outer",
        Item::Obstacle(..) => b"obstacle",
        Item::Screen(..) => b"screen",
        Item::Route(..) => b"route",
    }
}

/// Appends the words of an item after its keyword.
#[tactic(auto, using(crate::proofs::Printed::spaced_more))]
fn put_fields(text: &mut Vec<u8>, item: &Item) -> Result<(), NoMemory>
    ensures text { OnOk result (text.new.items ≡ text.old.items ++ spaced (field_words (shape_of (word_of_item item.now)) (fields_of_item item.now))) }
    ensures named { OnOk result (IsTrue (has_name item.now)) }
{
    match item {
        Item::Grid(grid) => put_numbers(text, &[grid.step, grid.x0, grid.y0, grid.cols, grid.rows]),
        Item::Outer(points) => put_points(text, points.as_slice()),
        Item::Obstacle(name, points) => {
            put_word(text, name.bytes())?;
            put_points(text, points.as_slice())
        }
        Item::Screen(name, from, to) => put_segment(text, name, *from, *to),
        Item::Route(name, from, to) => put_segment(text, name, *from, *to),
    }
}

/// Appends the line of an item. Callers learn that its name is one.
#[tactic(auto, using(crate::proofs::Printed::line_ended))]
fn put_item(text: &mut Vec<u8>, item: &Item) -> Result<(), NoMemory>
    ensures text { OnOk result (text.new.items ≡ text.old.items ++ ended_line (item_words item.now)) }
    ensures named { OnOk result (IsTrue (has_name item.now)) }
{
    put(text, keyword(item))?;
    put_fields(text, item)?;
    put(text, b"\n")
}

/// Whether the item is a screen.
pub fn is_screen(item: &Item) -> bool
    ensures { result ≡ is_screen item.now }
{
    matches!(item, Item::Screen(..))
}

/// Whether one of the items is a screen, so that their plan is of the second version.
pub fn have_screens(items: &[Item]) -> bool
    ensures { result ≡ list_any is_screen items.now }
{
    items.iter().any(is_screen)
}

/// The header's line.
fn header(items: &[Item]) -> &'static [u8]
    ensures { result.now ≡ ended_line (header_words items.now) }
{
    if have_screens(items) {
        b"plan 2\n"
    } else {
        b"plan 1\n"
    }
}

/// The text of a plan: `plan 2` where an item is a screen and `plan 1` otherwise, and then a line for each item. Where
/// the items keep the limits of printing, it is read again, with these items and no others.
///
/// Cost: one pass over the items, and memory for the text alone.
#[tactic(auto, unfolding(grammar_spec::specs::PlanText::plan_text_of))]
pub fn print_plan(alloc: Global, plan: &PlanData) -> Result<Vec<u8>, NoMemory>
    ensures text { IfOk result (λ text. text.items ≡ plan_text_of plan.now.items) }
    ensures again { OnOk result (ArePrintable plan.now.items → ReadsAgain plan.now.items) }
{
    let items = plan.items.as_slice();
    let mut text = Vec::new(alloc);
    put(&mut text, header(items))?;
    'items: for item in items {
        put_item(&mut text, item)?;
    }
    Ok(text)
}

/// What is printed is read again: for items that can be printed and whose names are names, as those of every item are,
/// the text is in the grammar, with these items and no others, and neither it nor a line of it is too long.
pub fn prints_and_reads()
    ensures { (items : List Item) → ArePrintable items → HaveNames items → ReadsAgain items }
{}

/// The items of a sound plan keep the limits of printing. So the text of such a plan is read again.
pub fn accepted_plans_are_printable()
    ensures { (p : Plan) → IsTrue (is_sound p) → ArePrintable (items_of p) }
{}
