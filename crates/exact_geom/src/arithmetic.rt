//! Sums, differences and products, one operation a function.
//!
//! A proof sees a machine number as the word that holds it. A function of one operation says once, by bounds on its
//! operands, that nothing is lost; what is built of such functions is then proved over the integers alone.

ghost use Rattle.std.specs.Prelude.{◌≡◌, ◌+ℤ◌, ◌-ℤ◌, ◌*ℤ◌};
ghost use Rattle.plane_spec.specs.Vectors.{IsWithin};
ghost use Rattle.plane_spec.specs.declared.TheConstants.{MAX_COMPONENT, MAX_COORDINATE};
ghost use Rattle.exact_geom.specs.declared.limits.TheConstants.{MAX_COORDINATE_PART, MAX_CROSS, MAX_DIFFERENCE, MAX_PRODUCT, MAX_STOP_PART};

/// `b - a`, of two coordinates.
pub(crate) fn difference(a: i64, b: i64) -> i64
    requires a_in { IsWithin MAX_COORDINATE a }
    requires b_in { IsWithin MAX_COORDINATE b }
    ensures value { result ≡ b -ℤ a }
    ensures within { IsWithin MAX_DIFFERENCE result }
{
    b - a
}

/// The product of two components of directions.
pub(crate) fn product(a: i64, b: i64) -> i64
    requires a_in { IsWithin MAX_COMPONENT a }
    requires b_in { IsWithin MAX_COMPONENT b }
    ensures value { result ≡ a *ℤ b }
    ensures within { IsWithin MAX_PRODUCT result }
{
    a * b
}

/// `a - b`, of two products.
pub(crate) fn minus(a: i64, b: i64) -> i64
    requires a_in { IsWithin MAX_PRODUCT a }
    requires b_in { IsWithin MAX_PRODUCT b }
    ensures value { result ≡ a -ℤ b }
    ensures within { IsWithin MAX_CROSS result }
{
    a - b
}

/// `a + b`, of two products.
pub(crate) fn plus(a: i64, b: i64) -> i64
    requires a_in { IsWithin MAX_PRODUCT a }
    requires b_in { IsWithin MAX_PRODUCT b }
    ensures value { result ≡ a +ℤ b }
    ensures within { IsWithin MAX_CROSS result }
{
    a + b
}

/// A coordinate or a component of a direction, times a part of a fraction.
pub(crate) fn scaled(a: i64, b: i128) -> i128
    requires a_in { IsWithin MAX_COMPONENT a }
    requires b_in { IsWithin MAX_STOP_PART b }
    ensures value { result ≡ a *ℤ b }
    ensures within { IsWithin (MAX_COMPONENT *ℤ MAX_STOP_PART) result }
{
    i128::from(a) * b
}

/// `a + b`, of two scaled numbers.
pub(crate) fn sum(a: i128, b: i128) -> i128
    requires a_in { IsWithin (MAX_COMPONENT *ℤ MAX_STOP_PART) a }
    requires b_in { IsWithin (MAX_COMPONENT *ℤ MAX_STOP_PART) b }
    ensures value { result ≡ a +ℤ b }
    ensures within { IsWithin MAX_COORDINATE_PART result }
{
    a + b
}

/// The product of two parts of fractions, or of a part and a coordinate.
pub fn wide_product(a: i128, b: i128) -> i128
    requires a_in { IsWithin MAX_COORDINATE_PART a }
    requires b_in { IsWithin MAX_COORDINATE_PART b }
    ensures { result ≡ a *ℤ b }
{
    a * b
}
