//! How large the numbers get by which lines are compared. All products of them fit in 128 bits, and all else in 64.

use exact_geom::{MAX_COORDINATE_PART, MAX_STOP_PART};
use plane_spec::MAX_COORDINATE;

/// The greatest size of the numerator of a coordinate of an end: that of `z + t d` for a coordinate `z`, a component
/// `d` of the direction between two corners and a stop `t`.
pub const MAX_END_NUMERATOR: i128 = 3 * MAX_COORDINATE as i128 * MAX_STOP_PART;

/// The greatest size of the parts of a parameter.
pub const MAX_PARAMETER_PART: i64 = MAX_COORDINATE_PART as i64;

/// The greatest size of whole numbers that are told apart where lines are compared by their extents. Greater ones count
/// as this one.
pub const MAX_RANKED: i128 = 1_000_000_000;
