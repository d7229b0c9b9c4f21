//! Lines that are compared by their ends.

ghost use Rattle.std.specs.Prelude.{◌≡◌, ◌%◌, ◌^◌, unsigned_abs};
ghost use Rattle.axial_lines.specs.Found as found;
ghost use Rattle.axial_lines.specs.Found.{bits_of_ends};

use crate::line::AxialLine;
use exact_geom::{Frac, RPoint};
use std::hash::{Hash, Hasher};
use std::marker::Model;

/// A line that is equal to another where the two have the same ends, in either order. Ends are in lowest terms, so they
/// are the same where their parts are.
#[derive(Clone, Copy, Debug)]
pub(crate) struct ByEnds {
    pub(crate) line: AxialLine,
}

impl Model for ByEnds {
    ghost use Rattle.sight_spec.specs.Axial.{AxialLine as LineParts};

    ghost Value = { LineParts };

    ghost view = { λ a. a.line };

    ghost inverse = { λ l. record { line = l } };
}

impl ByEnds {
    /// The line itself.
    pub(crate) fn line(&self) -> AxialLine
        ensures { result ≡ self.now }
    {
        self.line
    }
}

impl PartialEq for ByEnds {
    ghost use Rattle.std.specs.Cmp.{partial_equiv_from_equiv};
    ghost use Rattle.axial_lines.specs.Found.{has_ends_of};
    ghost use Rattle.axial_lines.specs.SameEnds.{ends_equiv};

    ghost eq = { has_ends_of };

    ghost laws = { partial_equiv_from_equiv ends_equiv };

    fn eq(&self, other: &Self) -> bool {
        (self.line.from == other.line.from && self.line.to == other.line.to)
            || (self.line.from == other.line.to && self.line.to == other.line.from)
    }
}

impl Eq for ByEnds {
    ghost use Rattle.axial_lines.specs.SameEnds.{ends_equiv};

    ghost laws = { ends_equiv };
}

// ---- the hash

/// The bits with a number mixed in, by an exclusive or and a product with a prime (Fowler, Noll and Vo).
fn mixed(bits: u64, n: u64) -> u64
    ensures { result ≡ found.mixed bits n }
{
    (bits ^ n).wrapping_mul(1_099_511_628_211)
}

/// The low 64 bits of the size of a number.
fn low_bits(z: i128) -> u64
    ensures { result ≡ found.low_bits z }
{
    (z.unsigned_abs() % (1 << 64)) as u64
}

/// The bits with the parts of a fraction mixed in.
fn with_parts(bits: u64, f: &Frac) -> u64
    ensures { result ≡ found.with_parts bits f.now }
{
    mixed(mixed(bits, low_bits(f.num())), low_bits(f.den()))
}

/// Bits of an end.
fn bits_of_end(p: &RPoint) -> u64
    ensures { result ≡ found.bits_of_end p.now }
{
    with_parts(with_parts(0, &p.x), &p.y)
}

/// The square, without what overflows.
fn squared(n: u64) -> u64
    ensures { result ≡ found.squared n }
{
    n.wrapping_mul(n)
}

/// Bits of both ends, whichever comes first. They are squared before they are added, since lines with one middle are
/// frequent, and sums of their ends are then alike.
#[tactic(auto, unfolding(crate::specs::Found::bits_of_ends))]
fn bits_of_ends(line: &AxialLine) -> u64
    ensures { result ≡ bits_of_ends line.now }
{
    squared(bits_of_end(&line.from)).wrapping_add(squared(bits_of_end(&line.to)))
}

impl Hash for ByEnds {
    ghost use Rattle.std.specs.Hash as fed;
    ghost use Rattle.axial_lines.specs.Found.{bits_of_ends};
    ghost use Rattle.axial_lines.specs.SameEnds.{same_bits};

    ghost hash_input = { λ l. fed.u64 (bits_of_ends l) };

    ghost respects_eq = { same_bits };

    fn hash<H: Hasher>(&self, state: &mut H) {
        state.write_u64(bits_of_ends(&self.line));
    }
}
