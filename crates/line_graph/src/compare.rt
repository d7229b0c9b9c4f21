//! The signs of 64-bit numbers.

ghost use Rattle.std.specs.Prelude.{◌≡◌, pos, int_lt};
ghost use Rattle.std.specs.Ordering.{int_eq};

pub(crate) fn is_positive(z: i64) -> bool
    ensures { result ≡ int_lt (pos 0) z }
{
    0 < z
}

pub(crate) fn is_negative(z: i64) -> bool
    ensures { result ≡ int_lt z (pos 0) }
{
    z < 0
}

pub(crate) fn is_zero(z: i64) -> bool
    ensures { result ≡ int_eq z (pos 0) }
{
    z == 0
}
