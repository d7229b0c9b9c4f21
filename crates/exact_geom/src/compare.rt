//! Comparisons, one a function: each has the definitions' word for it, and is proved without looking at bits.

ghost use Rattle.std.specs.Prelude.{◌≡◌, int_le, int_lt, pos};
ghost use Rattle.std.specs.Ordering.{int_cmp, int_eq};
ghost use Rattle.plane_spec.specs.Segments as segments;

use std::cmp::Ordering;

/// Whether `z` is 0.
pub fn is_zero(z: i128) -> bool
    ensures { result ≡ int_eq z (pos 0) }
{
    z == 0
}

/// Whether `z` is above 0.
pub fn is_positive(z: i128) -> bool
    ensures { result ≡ int_lt (pos 0) z }
{
    0 < z
}

/// Whether `z` is 0 or above it.
pub fn is_at_least_zero(z: i128) -> bool
    ensures { result ≡ int_le (pos 0) z }
{
    0 <= z
}

/// Whether one is positive and the other negative.
pub fn are_opposite(s: i128, t: i128) -> bool
    ensures { result ≡ segments.are_opposite s t }
{
    (s < 0 && 0 < t) || (0 < s && t < 0)
}

/// Whether the two are one number.
pub(crate) fn is_equal(a: i128, b: i128) -> bool
    ensures { result ≡ int_eq a b }
{
    a == b
}

/// Whether `a` is below `b`.
pub fn is_less(a: i128, b: i128) -> bool
    ensures { result ≡ int_lt a b }
{
    a < b
}

/// Whether `a` is at most `b`.
pub(crate) fn is_at_most(a: i128, b: i128) -> bool
    ensures { result ≡ int_le a b }
{
    a <= b
}

/// The order of two numbers.
pub(crate) fn order(a: i128, b: i128) -> Ordering
    ensures { result ≡ int_cmp a b }
{
    a.cmp(&b)
}
