//! How large numbers get. Each bound leaves room for what is computed from it, so that no step is lost.

use plane_spec::{MAX_COMPONENT, MAX_COORDINATE};

/// The greatest size of the difference of two coordinates.
pub const MAX_DIFFERENCE: i64 = 2 * MAX_COORDINATE;

/// The greatest size of the product of two components of directions.
pub const MAX_PRODUCT: i64 = MAX_COMPONENT * MAX_COMPONENT;

/// The greatest size of a cross product and of a dot product of two directions.
pub const MAX_CROSS: i64 = 2 * MAX_PRODUCT;

/// The greatest size of the orientation of three points.
pub const MAX_ORIENTATION: i64 = 2 * MAX_DIFFERENCE * MAX_DIFFERENCE;

/// The greatest size of the parts of a `t` at which a ray is stopped: a difference of two cross products fits.
pub const MAX_STOP_PART: i128 = 1_000_000_000_000;

/// The greatest size of the parts of a coordinate that is compared: those of `p + t d` fit.
pub const MAX_COORDINATE_PART: i128 = 1_000_000_000_000_000_000;

/// The greatest size of parts that are brought to lowest terms: a product of two parts of coordinates fits.
pub const MAX_FRACTION_PART: i128 = MAX_COORDINATE_PART * MAX_COORDINATE_PART;
