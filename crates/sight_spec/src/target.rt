//! What is asked of the point from which one looks.

use plane_spec::Point as PlanePoint;

/// What is asked of the point from which one looks: whether it sees another, or how far the ray in a direction reaches
/// and what it meets first.
#[derive(Clone, Copy, Debug, PartialEq, Eq)]
pub enum Target {
    /// Whether this point is seen.
    Point(PlanePoint),
    /// What the ray in this direction meets.
    Ray(PlanePoint),
}
