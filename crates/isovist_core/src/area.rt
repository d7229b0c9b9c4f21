//! The doubled area of a triangle, not reduced.

ghost use Rattle.std.specs.Prelude.{◌≡◌, neg_ℤ, ◌*ℤ◌, ◌≤ℤ◌, pos};
ghost use Rattle.std.specs.Int.{int_div_euclid};
ghost use Rattle.exact_geom.specs.declared.limits.TheConstants.{MAX_CROSS, MAX_FRACTION_PART, MAX_STOP_PART};
ghost use Rattle.plane_spec.specs.Fractions as fractions;
ghost use Rattle.plane_spec.specs.Vectors.{IsDirection, IsWithin, cross_of};
ghost use Rattle.isovist_laws.proofs.Areas.{area_of};
ghost use Rattle.isovist_core.specs.Areas.{MAX_SIZES};

use exact_geom::{Frac, cross};
use plane_spec::Point;
use sight_core::Hit;
use std::marker::Model;

/// A doubled area as a fraction over a denominator of at least 1, not reduced. Contracts see the fraction.
#[derive(Clone, Copy, Debug)]
pub(crate) struct Area {
    num: i128,
    den: i128,
}

impl Model for Area {
    ghost use Rattle.plane_spec.specs.Fractions.{Fraction};
    ghost use Rattle.isovist_core.specs.Areas.{IsArea};

    ghost Value = { Fraction };

    ghost view = { λ a. record { num = a.num; den = a.den } };

    ghost invariant = { λ a. IsArea (record { num = a.num; den = a.den }) };

    ghost inverse = { λ f. record { num = f.num; den = f.den } };
}

/// The product of two parts of hits.
fn product(a: i128, b: i128) -> i128
    requires a_in { IsWithin MAX_STOP_PART a }
    requires b_in { IsWithin MAX_STOP_PART b }
    ensures value { result ≡ a *ℤ b }
    ensures within { IsWithin MAX_SIZES result }
{
    a * b
}

/// The product of a product of two parts and a cross product.
fn scaled(a: i128, turn: i128) -> i128
    requires a_in { IsWithin MAX_SIZES a }
    requires turn_in { IsWithin MAX_CROSS turn }
    ensures value { result ≡ a *ℤ turn }
    ensures within { IsWithin MAX_FRACTION_PART result }
{
    a * turn
}

/// The denominator of a hit.
fn den_of(hit: &Hit) -> i128
    ensures value { result ≡ hit.now.den }
    ensures positive { pos 1 ≤ℤ result }
    ensures within { IsWithin MAX_STOP_PART result }
{
    let _ = hit.num();
    hit.den()
}

/// The product of two positive parts of hits.
fn positive_product(a: i128, b: i128) -> i128
    requires a_in { IsWithin MAX_STOP_PART a }
    requires b_in { IsWithin MAX_STOP_PART b }
    requires a_up { pos 1 ≤ℤ a }
    requires b_up { pos 1 ≤ℤ b }
    ensures value { result ≡ a *ℤ b }
    ensures positive { pos 1 ≤ℤ result }
    ensures within { IsWithin MAX_FRACTION_PART result }
{
    a * b
}

/// The product of the denominators of two hits.
fn denominator(s: &Hit, t: &Hit) -> i128
    ensures value { result ≡ s.now.den *ℤ t.now.den }
    ensures positive { pos 1 ≤ℤ result }
    ensures within { IsWithin MAX_FRACTION_PART result }
{
    positive_product(den_of(s), den_of(t))
}

/// The product of the numerators of two hits, and of the cross product of their directions.
fn numerator(e: Point, f: Point, s: &Hit, t: &Hit) -> i128
    requires e_in { IsDirection e }
    requires f_in { IsDirection f }
    ensures value { result ≡ s.now.num *ℤ t.now.num *ℤ cross_of e f }
    ensures within { IsWithin MAX_FRACTION_PART result }
{
    scaled(product(s.num(), t.num()), cross(e, f))
}

/// The least whole number that isn't below `num / den`. Nothing is negated, since the least value has no opposite.
fn ceiling(num: i128, den: i128) -> i128
    requires { pos 1 ≤ℤ den }
    ensures { result ≡ neg_ℤ (int_div_euclid (neg_ℤ num) den) }
{
    if 0 < num {
        (num - 1) / den + 1
    } else {
        num / den
    }
}

impl Area {
    /// Twice the area between the hits `s` in direction `e` and `t` in direction `f`.
    ///
    /// Cost: four multiplications.
    pub(crate) fn between(e: Point, f: Point, s: &Hit, t: &Hit) -> Area
        requires e_in { IsDirection e }
        requires f_in { IsDirection f }
        ensures { result ≡ area_of e f s.now t.now }
    {
        Area {
            num: numerator(e, f, s, t),
            den: denominator(s, t),
        }
    }

    /// The area in lowest terms.
    pub(crate) fn reduced(&self) -> Frac
        ensures { result ≡ fractions.reduced self.now }
    {
        Frac::new(self.num, self.den)
    }

    /// The greatest whole number that isn't above it.
    pub(crate) fn floor(&self) -> i128
        ensures { result ≡ fractions.floor_of self.now }
    {
        self.num.div_euclid(self.den)
    }

    /// The least whole number that isn't below it.
    pub(crate) fn ceil(&self) -> i128
        ensures { result ≡ fractions.ceil_of self.now }
    {
        ceiling(self.num, self.den)
    }
}
