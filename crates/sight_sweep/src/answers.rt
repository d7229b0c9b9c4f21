//! What a sweep answers.

use exact_geom::Frac;

/// Whether a point is seen; or how far a ray reaches, and the number of the first wall, or screen after them, that it
/// meets nearest.
#[derive(Clone, Copy, Debug)]
pub enum Answer {
    /// Whether the point is seen.
    Seen(bool),
    /// How far the ray reaches, if anything stops it, and the number of the wall or screen that it meets first.
    Reach {
        /// The `t` at which it is stopped, in lowest terms.
        stop: Option<Frac>,
        /// The number of the wall, or of the screen after all walls.
        wall: Option<u32>,
    },
}
