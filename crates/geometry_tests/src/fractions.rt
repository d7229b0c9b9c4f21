//! Fractions by hand.

ghost use Rattle.std.specs.Prelude.{◌≢◌, pos};
ghost use Rattle.plane_spec.specs.Vectors.{IsWithin};
ghost use Rattle.exact_geom.specs.declared.limits.TheConstants.{MAX_COORDINATE_PART, MAX_FRACTION_PART};

use exact_geom::Frac;
use std::cmp::Ordering;

/// Whether `num / den` has these parts in lowest terms, this floor and this ceiling.
fn is(num: i128, den: i128, parts: (i128, i128), floor: i128, ceil: i128) -> bool
    requires num_in { IsWithin MAX_FRACTION_PART num }
    requires den_in { IsWithin MAX_FRACTION_PART den }
    requires nonzero { den ≢ pos 0 }
{
    let f = Frac::new(num, den);
    f.num() == parts.0 && f.den() == parts.1 && f.floor() == floor && f.ceil() == ceil
}

fn ordered(a: i128, b: i128, c: i128, d: i128) -> Ordering
    requires a_in { IsWithin MAX_COORDINATE_PART a }
    requires b_in { IsWithin MAX_COORDINATE_PART b }
    requires b_some { b ≢ pos 0 }
    requires c_in { IsWithin MAX_COORDINATE_PART c }
    requires d_in { IsWithin MAX_COORDINATE_PART d }
    requires d_some { d ≢ pos 0 }
{
    Frac::new(a, b).compare(&Frac::new(c, d))
}

#[test]
fn fractions_by_hand(rt: HostRuntime) {
    assert!(rt; is(4, -6, (-2, 3), -1, 0));
    assert!(rt; is(-4, -6, (2, 3), 0, 1));
    assert!(rt; is(0, -5, (0, 1), 0, 0));
    assert!(rt; is(7, 2, (7, 2), 3, 4));
    assert!(rt; is(-7, 2, (-7, 2), -4, -3));
    assert!(rt; is(-12, 4, (-3, 1), -3, -3));
    assert!(rt; is(832040, 514229, (832040, 514229), 1, 2));
    assert!(rt; ordered(1, 2, -1, 3) == Ordering::Greater);
    assert!(rt; ordered(-1, 2, -1, 3) == Ordering::Less);
    assert!(rt; ordered(-2, 6, 1, -3) == Ordering::Equal);
    assert!(rt; Frac::new(-2, 6) == Frac::new(1, -3));
    assert!(rt; Frac::new(1, 2) != Frac::new(-1, 2));
}
