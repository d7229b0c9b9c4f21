//! Fractions in lowest terms.

ghost use Rattle.std.specs.Prelude.{◌≡◌, ◌≢◌, ◌<◌, ◌≤◌, pos, unsigned_abs, ◌≤ℤ◌, ◌*◌, ◌↔◌, ℕ, true, ℤ, neg_ℤ, ◌&&◌};
ghost use Rattle.std.specs.Ordering.{int_eq};
ghost use Rattle.std.specs.Cmp.Rules.{comparing};
ghost use Rattle.std.proofs.Common.{rules};
ghost use Prim.Native.Nat.{◌∣◌};
ghost use Rattle.std.specs.Int.{IsGcd, int_div_euclid};
ghost use Rattle.plane_spec.specs.Vectors.{IsWithin};
ghost use Rattle.plane_spec.specs.Fractions as fractions;
ghost use Rattle.exact_geom.specs.Parts.{HasCoordinateParts, HasPartsWithin, same_parts};
ghost use Rattle.exact_geom.specs.declared.limits.TheConstants.{MAX_COORDINATE_PART, MAX_FRACTION_PART};

use crate::arithmetic::wide_product;
use crate::compare::{is_equal, order};
use std::cmp::Ordering;
use std::marker::Model;

/// A fraction in lowest terms, over a denominator of at least 1.
#[derive(Clone, Copy, Debug)]
pub struct Frac {
    num: i128,
    den: i128,
}

impl Model for Frac {
    ghost use Rattle.plane_spec.specs.Fractions.{Fraction, IsReduced};

    ghost Value = { Fraction };

    ghost view = { λ a. record { num = a.num; den = a.den } };

    ghost invariant = { λ a. IsReduced (record { num = a.num; den = a.den }) };

    ghost inverse = { λ f. record { num = f.num; den = f.den } };
}

impl PartialEq for Frac {
    ghost eq = { same_parts };

    ghost laws = { Prim.search (comparing, rules) };

    /// Whether the two have one value: in lowest terms, that is one numerator and one denominator.
    fn eq(&self, other: &Self) -> bool
        ensures by_parts { result ≡ same_parts self.now other.now }
        ensures by_value { result ≡ fractions.same_value self.now other.now }
    {
        are_same(self.num, self.den, other.num, other.den)
    }
}

fn are_same(a: i128, b: i128, c: i128, d: i128) -> bool
    ensures { result ≡ (int_eq a c && int_eq b d) }
{
    is_equal(a, c) && is_equal(b, d)
}

impl Eq for Frac {
    ghost laws = { Prim.search (comparing, rules) };
}

/// The greatest common divisor of two words, by remainders: the number of steps grows with the number of digits.
fn divisor_of_words(a: u64, b: u64) -> u64
    ensures { result ≡ fractions.common_divisor a b }
{
    let mut greater = a;
    let mut lesser = b;
    while lesser != 0 {
        let rest = greater % lesser;
        greater = lesser;
        lesser = rest;
    }
    greater
}

/// The greatest common divisor. As soon as both numbers fit into words, a step is one instruction and no call.
fn common_divisor(a: u128, b: u128) -> u128
    ensures { result ≡ fractions.common_divisor a b }
{
    let mut greater = a;
    let mut lesser = b;
    while lesser != 0 {
        if let (Ok(greater), Ok(lesser)) = (u64::try_from(greater), u64::try_from(lesser)) {
            return u128::from(divisor_of_words(greater, lesser));
        }
        let rest = greater % lesser;
        greater = lesser;
        lesser = rest;
    }
    greater
}

/// The greatest common divisor of a numerator and a denominator of at least 1.
fn divisor_of(num: i128, den: i128) -> u128
    requires { pos 1 ≤ℤ den }
    ensures value { result ≡ fractions.common_divisor (unsigned_abs num) (unsigned_abs den) }
    ensures nonzero { 0 < result }
{
    common_divisor(num.unsigned_abs(), den.unsigned_abs())
}

/// `z` divided by a divisor of its size.
fn divided(z: i128, divisor: u128) -> i128
    requires small { IsWithin MAX_FRACTION_PART z }
    requires nonzero { 0 < divisor }
    ensures { result ≡ fractions.divided z divisor }
{
    let size = (z.unsigned_abs() / divisor) as i128;
    if z < 0 { -size } else { size }
}

/// `num / den` in lowest terms, for a denominator of at least 1.
pub(crate) fn lowest(num: i128, den: i128) -> Frac
    requires num_in { IsWithin MAX_FRACTION_PART num }
    requires den_in { IsWithin MAX_FRACTION_PART den }
    requires positive { pos 1 ≤ℤ den }
    ensures { result ≡ fractions.reduced (record { num = num; den = den }) }
{
    let divisor = divisor_of(num, den);
    Frac {
        num: divided(num, divisor),
        den: divided(den, divisor),
    }
}

/// The least whole number that isn't below `num / den`. Nothing is negated, since the least value has no opposite.
fn ceiling(num: i128, den: i128) -> i128
    requires { pos 1 ≤ℤ den }
    ensures { result ≡ neg_ℤ (int_div_euclid (neg_ℤ num) den) }
{
    if 0 < num {
        (num - 1) / den + 1
    } else {
        num / den
    }
}

impl Frac {
    /// The whole number `z`.
    pub fn whole(z: i64) -> Frac
        ensures { result ≡ fractions.whole z }
    {
        Frac {
            num: i128::from(z),
            den: 1,
        }
    }

    /// `num / den` in lowest terms.
    ///
    /// Cost: one division for each step of Euclid's algorithm, at most about five for each decimal digit.
    pub fn new(num: i128, den: i128) -> Frac
        requires num_in { IsWithin MAX_FRACTION_PART num }
        requires den_in { IsWithin MAX_FRACTION_PART den }
        requires nonzero { den ≢ pos 0 }
        ensures value { result ≡ fractions.reduced (fractions.fraction num den) }
        ensures no_larger { (most : ℕ) → IsWithin (pos most) num → IsWithin (pos most) den → HasPartsWithin (pos most) result }
    {
        if 0 < den {
            lowest(num, den)
        } else {
            lowest(-num, -den)
        }
    }

    /// The numerator, which has the sign of the value.
    pub fn num(&self) -> i128
        ensures { result ≡ self.now.num }
    {
        self.num
    }

    /// The denominator, at least 1.
    pub fn den(&self) -> i128
        ensures value { result ≡ self.now.den }
        ensures positive { pos 1 ≤ℤ result }
        ensures lowest { fractions.IsReduced self.now }
    {
        self.den
    }

    /// The greatest whole number that isn't above the value, for negative values too.
    pub fn floor(&self) -> i128
        ensures value { result ≡ fractions.floor_of self.now }
        ensures not_above { fractions.is_at_least self.now result ≡ true }
        ensures greatest { (z : ℤ) → fractions.is_at_least self.now z ≡ true → z ≤ℤ result }
    {
        self.num.div_euclid(self.den)
    }

    /// The least whole number that isn't below the value, for negative values too.
    pub fn ceil(&self) -> i128
        ensures value { result ≡ fractions.ceil_of self.now }
        ensures not_below { fractions.is_at_most self.now result ≡ true }
        ensures least { (z : ℤ) → fractions.is_at_most self.now z ≡ true → result ≤ℤ z }
    {
        ceiling(self.num, self.den)
    }

    /// Which of two values is less, by products across; both fit since all four parts are at most 10^18 in size.
    pub fn compare(&self, other: &Frac) -> Ordering
        requires self_in { HasCoordinateParts self.now }
        requires other_in { HasCoordinateParts other.now }
        ensures { result ≡ fractions.value_order_of self.now other.now }
    {
        order(
            wide_product(self.num, other.den),
            wide_product(other.num, self.den),
        )
    }
}

/// The laws of lowest terms, for fractions over denominators of at least 1: a fraction in lowest terms is the only one
/// of its value, so that two of them are equal exactly where their values are.
pub fn lowest_terms()
    ensures is_reduced { (f : fractions.Fraction) → pos 1 ≤ℤ f.den → fractions.IsReduced (fractions.reduced f) }
    ensures keeps_value { (f : fractions.Fraction) → fractions.same_value f (fractions.reduced f) ≡ true }
    ensures one_form { (f g : fractions.Fraction) → pos 1 ≤ℤ f.den → pos 1 ≤ℤ g.den → fractions.same_value f g ≡ true → fractions.reduced f ≡ fractions.reduced g }
    ensures stays { (f : fractions.Fraction) → fractions.IsReduced f → fractions.reduced f ≡ f }
    ensures equal { (f g : fractions.Fraction) → fractions.IsReduced f → fractions.IsReduced g → (f ≡ g) ↔ (fractions.same_value f g ≡ true) }
    ensures keeps_order { (f g : fractions.Fraction) → pos 1 ≤ℤ f.den → pos 1 ≤ℤ g.den → fractions.value_order_of (fractions.reduced f) (fractions.reduced g) ≡ fractions.value_order_of f g }
    ensures no_larger { (most : ℕ) (f : fractions.Fraction) → HasPartsWithin (pos most) f → HasPartsWithin (pos most) (fractions.reduced f) }
    ensures over_positive { (num den : ℤ) → den ≢ pos 0 → pos 1 ≤ℤ (fractions.fraction num den).den }
    ensures divides_other_factor { (a b c : ℕ) → IsGcd a b 1 → a ∣ b * c → a ∣ c }
{}
