//! Lines as they stand in a script.

ghost use Rattle.std.specs.Prelude.{◌≡◌, ℕ, Err, List, true};
ghost use Rattle.text_spec.specs.Lines.{is_long};
ghost use Rattle.plan_text.specs.Readings.{IsShown};
ghost use Rattle.desk_spec.specs.DeskText.{read_line_of_desk};
ghost use Rattle.desk_text.specs.DeskReadings.{desk_reading_of_shown};

use grammar_spec::TextWhy;

/// What is read of a line without its carriage return is what the grammar reads of the line as it stands in the script;
/// and a line that is too long there is outside the grammar for that, so it needn't be held to be refused.
pub fn desk_lines_are_read()
    ensures shown { (line shown : List ℕ) → IsShown line shown → desk_reading_of_shown shown ≡ read_line_of_desk line }
    ensures long { (line : List ℕ) → is_long line ≡ true → read_line_of_desk line ≡ Err TextWhy.Long }
{}
