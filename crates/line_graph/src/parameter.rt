//! Where a point lies on a line, as a fraction of 64-bit parts.

ghost use Rattle.std.specs.Prelude.{◌≡◌, ◌≢◌, pos, ◌≤ℤ◌, ◌-ℤ◌, ◌*ℤ◌, false, int_le};
ghost use Rattle.std.specs.Ordering.{int_eq};
ghost use Rattle.plane_spec.specs.Vectors.{IsWithin};
ghost use Rattle.plane_spec.specs.declared.TheConstants.{MAX_COMPONENT, MAX_COORDINATE};
ghost use Rattle.plane_spec.specs.Fractions.{fraction};
ghost use Rattle.exact_geom.specs.declared.limits.TheConstants.{MAX_CROSS, MAX_STOP_PART};
ghost use Rattle.line_graph.specs.Bounds.{HasEndParts, IsParameter};
ghost use Rattle.line_graph.specs.Stretches as stretches;
ghost use Rattle.line_graph.specs.declared.limits.TheConstants.{MAX_END_NUMERATOR, MAX_PARAMETER_PART};

use crate::compare::is_positive;
use exact_geom::{Frac, wide_product};
use std::marker::Model;

/// The parameter `t` of a point `p + t d`, not reduced.
#[derive(Clone, Copy, Debug)]
pub(crate) struct Parameter {
    num: i64,
    den: i64,
}

impl Model for Parameter {
    ghost use Rattle.plane_spec.specs.Fractions.{Fraction};
    ghost use Rattle.line_graph.specs.Bounds.{IsParameter};

    ghost Value = { Fraction };

    ghost view = { λ a. record { num = a.num; den = a.den } };

    ghost invariant = { λ a. IsParameter (record { num = a.num; den = a.den }) };

    ghost inverse = { λ f. record { num = f.num; den = f.den } };
}

fn numerator(at: &Frac) -> i64
    requires { HasEndParts at.now }
    ensures value { result ≡ at.now.num }
    ensures within { IsWithin MAX_END_NUMERATOR result }
{
    at.num() as i64
}

fn denominator(at: &Frac) -> i64
    requires { HasEndParts at.now }
    ensures value { result ≡ at.now.den }
    ensures within { IsWithin MAX_STOP_PART result }
    ensures positive { pos 1 ≤ℤ result }
{
    at.den() as i64
}

/// A coordinate or a component of a direction, times the denominator of an end.
fn scaled(z: i64, den: i64) -> i64
    requires z_in { IsWithin MAX_COMPONENT z }
    requires den_in { IsWithin MAX_STOP_PART den }
    ensures value { result ≡ z *ℤ den }
    ensures within { IsWithin (MAX_COMPONENT *ℤ MAX_STOP_PART) result }
{
    z * den
}

/// `a - b`, of a numerator of an end and a scaled number.
fn minus(a: i64, b: i64) -> i64
    requires a_in { IsWithin MAX_END_NUMERATOR a }
    requires b_in { IsWithin (MAX_COMPONENT *ℤ MAX_STOP_PART) b }
    ensures value { result ≡ a -ℤ b }
    ensures within { IsWithin MAX_PARAMETER_PART result }
{
    a - b
}

/// `num / den` over a positive denominator.
fn over(num: i64, den: i64) -> Parameter
    requires num_in { IsWithin MAX_PARAMETER_PART num }
    requires den_in { IsWithin MAX_PARAMETER_PART den }
    requires nonzero { den ≢ pos 0 }
    ensures { result ≡ fraction num den }
{
    if is_positive(den) {
        Parameter { num, den }
    } else {
        Parameter {
            num: -num,
            den: -den,
        }
    }
}

/// The parameter at which `z + t d` is a coordinate of an end.
pub(crate) fn parameter_in(z: i64, d: i64, at: &Frac) -> Parameter
    requires z_in { IsWithin MAX_COORDINATE z }
    requires d_in { IsWithin MAX_COMPONENT d }
    requires nonzero { int_eq d (pos 0) ≡ false }
    requires at_in { HasEndParts at.now }
    ensures { result ≡ stretches.parameter_in z d at.now }
{
    let den = denominator(at);
    over(minus(numerator(at), scaled(z, den)), scaled(d, den))
}

impl Parameter {
    fn num(&self) -> i64
        ensures value { result ≡ self.now.num }
        ensures within { IsWithin MAX_PARAMETER_PART result }
    {
        self.num
    }

    fn den(&self) -> i64
        ensures value { result ≡ self.now.den }
        ensures within { IsWithin MAX_PARAMETER_PART result }
    {
        self.den
    }

    /// Whether the parameter is at most `t / k`, for `k` above 0.
    pub(crate) fn is_at_most(&self, t: i64, k: i64) -> bool
        requires t_in { IsWithin MAX_CROSS t }
        requires k_in { IsWithin MAX_CROSS k }
        ensures { result ≡ int_le (self.now.num *ℤ k) (self.now.den *ℤ t) }
    {
        at_most(product(self.num(), k), product(self.den(), t))
    }

    /// Whether the parameter is at least `t / k`, for `k` above 0.
    pub(crate) fn is_at_least(&self, t: i64, k: i64) -> bool
        requires t_in { IsWithin MAX_CROSS t }
        requires k_in { IsWithin MAX_CROSS k }
        ensures { result ≡ int_le (self.now.den *ℤ t) (self.now.num *ℤ k) }
    {
        at_most(product(self.den(), t), product(self.num(), k))
    }
}

/// The product of a part of a parameter and a cross product.
fn product(a: i64, b: i64) -> i128
    requires a_in { IsWithin MAX_PARAMETER_PART a }
    requires b_in { IsWithin MAX_CROSS b }
    ensures { result ≡ a *ℤ b }
{
    wide_product(i128::from(a), i128::from(b))
}

fn at_most(a: i128, b: i128) -> bool
    ensures { result ≡ int_le a b }
{
    a <= b
}
