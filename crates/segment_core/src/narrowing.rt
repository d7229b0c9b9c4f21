//! Numbers that are known to fit 64 bits, in 64 bits.

ghost use Rattle.std.specs.Prelude.{◌≡◌};
ghost use Rattle.plane_spec.specs.Vectors.{IsWithin};
ghost use Rattle.exact_geom.specs.declared.limits.TheConstants.{MAX_COORDINATE_PART, MAX_CROSS};

/// A cross or a dot product.
pub(crate) fn narrow(value: i128) -> i64
    requires { IsWithin MAX_CROSS value }
    ensures value { result ≡ value }
    ensures within { IsWithin MAX_CROSS result }
{
    value as i64
}

/// A part of a coordinate.
pub(crate) fn narrow_part(value: i128) -> i64
    requires { IsWithin MAX_COORDINATE_PART value }
    ensures { result ≡ value }
{
    value as i64
}
