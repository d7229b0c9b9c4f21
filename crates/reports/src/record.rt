//! Records that are made field by field.

ghost use Rattle.std.specs.Prelude.{◌≡◌, ◌<◌, ℕ, List, ◌∷◌, ◌++◌, [], true, length, get_or, codes, OnOk};
ghost use Rattle.std.specs.Fmt.{decimal, signed_decimal};
ghost use Rattle.std.specs.List.{list_all};
ghost use Rattle.csv.specs.Records.{fields_of};
ghost use Rattle.csv_laws.specs.Plain.{is_plain};
ghost use Rattle.report_spec.specs.Records.{fraction_field, fraction_or_dash, number_or_dash, rpoint_fields};

use arrayvec::ArrayVec;
use csv::ByteRecord;
use exact_geom::{Frac, RPoint};
use itoa::Buffer;
use std::alloc::Global;
use std::marker::Model;
use text_spec::{Name, NoMemory};

/// A record that is made field by field, in memory that is used again for the next one. No field needs quotes in csv
/// form. Contracts see the list of the fields.
///
/// A call that answers [`NoMemory`] leaves any fields.
#[derive(Drop)]
pub struct Record {
    row: ByteRecord,
}

impl Model for Record {
    ghost use Rattle.std.specs.Prelude.{◌≡◌, ℕ, List, [], true};
    ghost use Rattle.std.specs.List.{list_all};
    ghost use Rattle.csv.specs.Records.{fields_of, partial_of};
    ghost use Rattle.csv_laws.specs.Plain.{is_plain};

    ghost Value = { List (List ℕ) };

    ghost view = { λ a. fields_of a.row };

    ghost invariant = { λ a. (list_all is_plain (fields_of a.row) ≡ true) × (partial_of a.row ≡ []) };
}

/// A fraction as `a/b`.
fn fraction_text(f: Frac) -> ArrayVec<u8, 96>
    ensures { result.items ≡ fraction_field f }
{
    let mut digits = Buffer::new();
    let mut text = ArrayVec::new();
    text.try_extend_from_slice(digits.format(f.num()).as_bytes())
        .unwrap();
    text.push(b'/');
    text.try_extend_from_slice(digits.format(f.den()).as_bytes())
        .unwrap();
    text
}

impl Record {
    /// A record without fields.
    pub fn new(alloc: Global) -> Record
        ensures { result ≡ [] }
    {
        Record {
            row: ByteRecord::new(alloc),
        }
    }

    /// Takes all fields away, and keeps the memory.
    pub fn clear(&mut self)
        ensures { self.new ≡ [] }
    {
        self.row.clear();
    }

    /// How many fields there are, of which callers then know that they need no quotes.
    pub fn len(&self) -> usize
        ensures count { result ≡ length self.now }
        ensures plain { list_all is_plain self.now ≡ true }
    {
        self.row.len()
    }

    /// The field at a place.
    pub fn field(&self, k: usize) -> &[u8]
        requires { k < length self.now }
        ensures { result.now ≡ get_or self.now k [] }
    {
        self.row.get(k).unwrap()
    }

    /// The fields as the crate `csv` knows them.
    pub(crate) fn row(&self) -> &ByteRecord
        ensures fields { fields_of result.now ≡ self.now }
        ensures plain { list_all is_plain self.now ≡ true }
    {
        &self.row
    }

    /// Adds a field that needs no quotes.
    pub fn word(&mut self, word: &[u8]) -> Result<(), NoMemory>
        requires { is_plain word.now ≡ true }
        ensures { OnOk result (self.new ≡ self.old ++ word.now ∷ []) }
    {
        if self.row.push_field(word).is_err() {
            self.row.clear();
            return Err(NoMemory);
        }
        Ok(())
    }

    /// Adds a name.
    pub fn name(&mut self, name: &Name) -> Result<(), NoMemory>
        ensures { OnOk result (self.new ≡ self.old ++ name.now ∷ []) }
    {
        self.word(name.bytes())
    }

    /// Adds a natural number.
    pub fn number(&mut self, n: u64) -> Result<(), NoMemory>
        ensures { OnOk result (self.new ≡ self.old ++ decimal n ∷ []) }
    {
        let mut digits = Buffer::new();
        self.word(digits.format(n).as_bytes())
    }

    /// Adds a whole number.
    pub fn signed(&mut self, z: i64) -> Result<(), NoMemory>
        ensures { OnOk result (self.new ≡ self.old ++ signed_decimal z ∷ []) }
    {
        let mut digits = Buffer::new();
        self.word(digits.format(z).as_bytes())
    }

    /// Adds a whole number of any size.
    pub fn wide(&mut self, z: i128) -> Result<(), NoMemory>
        ensures { OnOk result (self.new ≡ self.old ++ signed_decimal z ∷ []) }
    {
        let mut digits = Buffer::new();
        self.word(digits.format(z).as_bytes())
    }

    /// Adds a fraction as `a/b`, also where it is whole.
    pub fn fraction(&mut self, f: Frac) -> Result<(), NoMemory>
        ensures { OnOk result (self.new ≡ self.old ++ fraction_field f ∷ []) }
    {
        self.word(&fraction_text(f))
    }

    /// Adds `-`, which stands for what there isn't.
    pub fn dash(&mut self) -> Result<(), NoMemory>
        ensures { OnOk result (self.new ≡ self.old ++ codes "-" ∷ []) }
    {
        self.word(b"-")
    }

    /// Adds a natural number, or `-` where there is none.
    pub fn number_or_dash(&mut self, n: Option<u32>) -> Result<(), NoMemory>
        ensures { OnOk result (self.new ≡ self.old ++ number_or_dash n ∷ []) }
    {
        match n {
            Some(n) => self.number(u64::from(n)),
            None => self.dash(),
        }
    }

    /// Adds a fraction, or `-` where there is none.
    pub fn fraction_or_dash(&mut self, f: Option<Frac>) -> Result<(), NoMemory>
        ensures { OnOk result (self.new ≡ self.old ++ fraction_or_dash f ∷ []) }
    {
        match f {
            Some(f) => self.fraction(f),
            None => self.dash(),
        }
    }

    /// Adds the two coordinates of a point.
    pub fn rpoint(&mut self, p: RPoint) -> Result<(), NoMemory>
        ensures { OnOk result (self.new ≡ self.old ++ rpoint_fields p) }
    {
        self.fraction(p.x)?;
        self.fraction(p.y)
    }
}
