//! Where a ray may be stopped.

ghost use Rattle.std.specs.Prelude.{◌≡◌, ◌*ℤ◌, ◌<ℤ◌, ◌≤◌, IfSome, pos};
ghost use Rattle.std.specs.Option.{option_map};
ghost use Rattle.plane_spec.specs.Fractions as fractions;
ghost use Rattle.plane_spec.specs.Vectors.{IsDirected, IsDirection, IsWithin};
ghost use Rattle.sight_spec.specs.Stops as stops;
ghost use Rattle.sweep_laws.specs.Parts as parts;
ghost use Rattle.view_laws.specs.Views as views;
ghost use Rattle.sight_sweep.specs.Told.{IsFar, IsFrontTo};

use crate::corners::length;
use crate::products::cross;
use exact_geom::{Frac, is_less, wide_product};
use plane_spec::Point;
use std::marker::Model;
use view_laws::Front;

/// A hit at `num / den`, which isn't reduced, over a denominator of at least 1. Contracts see the fraction.
#[derive(Clone, Copy, Debug)]
pub(crate) struct Hit {
    num: i64,
    den: i64,
}

impl Model for Hit {
    ghost use Rattle.plane_spec.specs.Fractions.{Fraction};
    ghost use Rattle.sight_sweep.specs.Hits.{IsHit};

    ghost Value = { Fraction };

    ghost view = { λ a. record { num = a.num; den = a.den } };

    ghost invariant = { λ a. IsHit (record { num = a.num; den = a.den }) };

    ghost inverse = { λ f. record { num = f.num; den = f.den } };
}

/// The numerator of the one times the denominator of the other.
fn across(f: &Hit, g: &Hit) -> i128
    ensures { result ≡ f.now.num *ℤ g.now.den }
{
    wide_product(i128::from(f.num), i128::from(g.den))
}

/// Whether `f` comes before `g` on a ray.
fn is_before(f: &Hit, g: &Hit) -> bool
    ensures { result ≡ fractions.is_before f.now g.now }
{
    is_less(across(f, g), across(g, f))
}

impl Hit {
    /// In lowest terms.
    pub(crate) fn lowest(&self) -> Frac
        ensures { result ≡ fractions.reduced self.now }
    {
        Frac::new(i128::from(self.num), i128::from(self.den))
    }
}

/// The earlier of the two, the first where neither is.
pub(crate) fn nearer(best: Option<Hit>, hit: Option<Hit>) -> Option<Hit>
    ensures { result ≡ stops.nearer best hit }
{
    match (best, hit) {
        (None, hit) => hit,
        (Some(best), None) => Some(best),
        (Some(best), Some(hit)) => {
            if is_before(&hit, &best) {
                Some(hit)
            } else {
                Some(best)
            }
        }
    }
}

/// Where the ray meets what is first.
pub(crate) fn hit_by(d: Point, front: Option<Front>) -> Option<Hit>
    requires d_in { IsDirection d }
    requires front_to { IfSome front (IsFrontTo d) }
    ensures { result ≡ views.hit_by d front }
{
    match front {
        None => None,
        Some(front) => Some(Hit {
            num: front.spread,
            den: cross(d, front.edge),
        }),
    }
}

/// A distance as a whole number that may be negative.
fn signed(far: u64) -> i64
    requires { far ≤ 800000 }
    ensures value { result ≡ pos far }
    ensures within { IsWithin (pos 320000000000) result }
{
    far as i64
}

/// Where it reaches a corner so far off.
pub(crate) fn corner_by(d: Point, far: Option<u64>) -> Option<Hit>
    requires d_in { IsDirection d }
    requires directed { IsDirected d }
    requires far_is { IfSome far IsFar }
    ensures { result ≡ views.corner_by d far }
{
    match far {
        None => None,
        Some(far) => Some(Hit {
            num: signed(far),
            den: signed(length(d)),
        }),
    }
}

/// Where it begins, if it begins blocked.
pub(crate) fn start_stop(begins: bool) -> Option<Hit>
    ensures { result ≡ parts.start_stop begins }
{
    if begins {
        Some(Hit { num: 0, den: 1 })
    } else {
        None
    }
}
