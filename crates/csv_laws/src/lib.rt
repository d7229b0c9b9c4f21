//! Laws of csv form: what the definition of a record in csv form says is what the crate `csv` writes and reads.
//!
//! ```text
//! table,routes                fields without commas, quotes, newlines and carriage returns stand as they are,
//! route,1,4/1,2/1             joined by commas, and a newline ends the record
//! end,1
//! ```
//!
//! A law is a function without parameters and with an empty body, whose contract states it.
//!
//! | law | what it says | breaks if .. changes |
//! |---|---|---|
//! | [`plain_records_are_written_as_defined`] | of plain fields the default writer of `csv` writes the record in csv form | `record_bytes` |
//! | [`plain_records_are_read_back`] | and its default reader reads the fields of that record | `record_bytes` |
//! | [`names_and_numbers_are_plain`] | names, numbers and fractions need no quotes | `is_name`, `fraction_field` |
//!
//! Definitions: `Plain` (which fields and records need no quotes). Proofs cite the laws by the lemmas in `proofs/`:
//! `Written` and `Plain`.
#![tactic(auto)]

ghost use Rattle.std.specs.Prelude.{List, [], Some, true, unsigned_abs, ℕ, ℤ, ◌<◌, ◌^◌, ◌++◌, ◌≡◌};
ghost use Rattle.csv.specs.Machine.{next_record};
ghost use Rattle.csv.specs.Reading.{default_config};
ghost use Rattle.csv.specs.Writing.{default_writer, row_text};
ghost use Rattle.csv.specs.declared.parser.State.TheVariants as state;
ghost use Rattle.options_spec.specs.declared.options.Form.TheVariants.{Csv};
ghost use Rattle.std.specs.Fmt.{decimal, signed_decimal};
ghost use Rattle.text_spec.specs.Names.{is_name};
ghost use Rattle.plane_spec.specs.Fractions.{Fraction};
ghost use Rattle.report_spec.specs.Records.{fraction_field, record_bytes};
ghost use Rattle.csv_laws.specs.Plain.{is_plain, is_plain_record};

/// Of a record whose fields need no quotes, and that isn't one empty field, a csv writer with the crate's defaults
/// writes the fields joined by commas and a newline.
pub fn plain_records_are_written_as_defined()
    ensures { (fields : List (List ℕ)) → is_plain_record fields ≡ true
        → row_text default_writer fields ≡ record_bytes Csv fields }
{}

/// A csv reader with the crate's defaults reads the fields of such a record again, whatever bytes follow.
pub fn plain_records_are_read_back()
    ensures { (fields : List (List ℕ)) (tail : List ℕ) → is_plain_record fields ≡ true
        → next_record default_config state.StartRecord [] [] (record_bytes Csv fields ++ tail)
        ≡ Some (fields, state.StartRecord, tail) }
{}

/// Names, and numbers and fractions of up to 64 digits, need no quotes.
pub fn names_and_numbers_are_plain()
    ensures name { (bytes : List ℕ) → is_name bytes ≡ true → is_plain bytes ≡ true }
    ensures number { (n : ℕ) → n < 10 ^ 64 → is_plain (decimal n) ≡ true }
    ensures signed { (z : ℤ) → unsigned_abs z < 10 ^ 64 → is_plain (signed_decimal z) ≡ true }
    ensures fraction { (f : Fraction) → unsigned_abs f.num < 10 ^ 64 → unsigned_abs f.den < 10 ^ 64
        → is_plain (fraction_field f) ≡ true }
{}
