//! The table of a plan: the lines of its text.

ghost use Rattle.std.specs.Prelude.{◌≡◌, ◌∷◌, ◌++◌, [], map, OnErr, OnOk};
ghost use Rattle.std.specs.Fmt.{signed_decimal};
ghost use Rattle.dm_io.specs.Streams.{WritesPrefix, appended_to};
ghost use Rattle.grammar_spec.specs.Arguments.{field_words, numbers_of_points};
ghost use Rattle.grammar_spec.specs.PlanText.{fields_of_item, header_words, item_words, shape_of, word_of_item};
ghost use Rattle.report_spec.specs.Records.{records_bytes};
ghost use Rattle.report_spec.specs.Tables.{plan_table};
ghost use Rattle.reports.specs.Faults.{Counts};

use crate::fault::ReportFault;
use crate::lists::element_of;
use crate::record::Record;
use crate::table::{Rows, put_table};
use dm_io::Sink;
use options_spec::Form;
use plan_spec::Item;
use plan_text::{have_screens, keyword};
use plane_spec::Point;
use std::alloc::Global;
use text_spec::{Name, NoMemory};

/// The version that a plan with these items is of.
fn make_header(row: &mut Record, items: &[Item]) -> Result<(), NoMemory>
    ensures { OnOk result (row.new ≡ header_words items.now) }
{
    row.clear();
    row.word(b"plan")?;
    if have_screens(items) {
        row.word(b"2")
    } else {
        row.word(b"1")
    }
}

/// Adds numbers.
#[tactic(auto, using(crate::proofs::Elements::one_more))]
fn add_numbers(row: &mut Record, numbers: &[i64]) -> Result<(), NoMemory>
    ensures { OnOk result (row.new ≡ row.old ++ map signed_decimal numbers.now) }
{
    'numbers: for number in numbers {
        row.signed(*number)?;
    }
    Ok(())
}

/// Adds the coordinates of points.
#[tactic(auto, using(crate::proofs::Elements::some_more), unfolding(grammar_spec::specs::Arguments::numbers_of_points))]
fn add_points(row: &mut Record, points: &[Point]) -> Result<(), NoMemory>
    ensures { OnOk result (row.new ≡ row.old ++ map signed_decimal (numbers_of_points points.now)) }
{
    'points: for point in points {
        add_numbers(row, &[point.x, point.y])?;
    }
    Ok(())
}

/// Adds a name and the coordinates of two points.
#[tactic(auto, using(crate::proofs::Elements::one_more))]
fn add_segment(row: &mut Record, name: &Name, from: Point, to: Point) -> Result<(), NoMemory>
    ensures { OnOk result (row.new ≡ row.old ++ name.now ∷ map signed_decimal (from.x ∷ from.y ∷ to.x ∷ to.y ∷ [])) }
{
    row.name(name)?;
    add_numbers(row, &[from.x, from.y, to.x, to.y])
}

/// Adds the words of an item after its keyword.
#[tactic(auto, using(crate::proofs::Elements::one_more))]
fn add_fields(row: &mut Record, item: &Item) -> Result<(), NoMemory>
    ensures { OnOk result (row.new ≡ row.old ++ field_words (shape_of (word_of_item item.now)) (fields_of_item item.now)) }
{
    match item {
        Item::Grid(grid) => add_numbers(row, &[grid.step, grid.x0, grid.y0, grid.cols, grid.rows]),
        Item::Outer(points) => add_points(row, points.as_slice()),
        Item::Obstacle(name, points) => {
            row.name(name)?;
            add_points(row, points.as_slice())
        }
        Item::Screen(name, from, to) => add_segment(row, name, *from, *to),
        Item::Route(name, from, to) => add_segment(row, name, *from, *to),
    }
}

/// The words of an item's line.
fn make_item(row: &mut Record, item: &Item) -> Result<(), NoMemory>
    ensures { OnOk result (row.new ≡ item_words item.now) }
{
    row.clear();
    row.word(keyword(item))?;
    add_fields(row, item)
}

/// The lines that are left: that of the header, and those of the items from a place on.
#[derive(Drop)]
struct PlanRows<'a> {
    items: &'a [Item],
    begun: bool,
    at: usize,
}

impl<'a> Rows for PlanRows<'a> {
    ghost use Rattle.reports.specs.Rows.{lines_left};

    ghost left = { λ s. lines_left s.begun s.at s.items.now };

    #[tactic(auto, using(crate::proofs::Elements::mapped_none))]
    fn next_row(&mut self, row: &mut Record) -> Result<bool, NoMemory> {
        if !self.begun {
            make_header(row, self.items)?;
            self.begun = true;
            return Ok(true);
        }
        if self.at >= self.items.len() {
            return Ok(false);
        }
        make_item(row, element_of(self.items, self.at))?;
        self.at += 1;
        Ok(true)
    }
}

/// Prints the table of a plan's items: the lines of its text, the header counted.
///
/// Cost: one pass over the items, and a call of the sink for each 64 KiB; memory for the longest line, and in csv form
/// for some thousand of them.
#[tactic(auto, unfolding(report_spec::specs::Tables::plan_table))]
pub fn put_plan<O: Sink>(
    alloc: Global,
    out: &mut O,
    form: Form,
    items: &[Item],
) -> Result<(), ReportFault>
    ensures all { OnOk result (O.written out.new ≡ appended_to (O.written out.old) (records_bytes form (plan_table items.now))) }
    ensures prefix { OnErr result (WritesPrefix (O.written out.old) (O.written out.new) (records_bytes form (plan_table items.now))) }
    ensures faults { Counts result (O.faults out.old) (O.faults out.new) }
{
    let _count = items.len();
    let mut rows = PlanRows {
        items,
        begun: false,
        at: 0,
    };
    put_table(alloc, out, form, b"plan", &mut rows)
}
