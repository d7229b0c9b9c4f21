//! Why there is no list of lines.

use thiserror::Error;

/// Why there is no list of lines.
#[derive(Clone, Copy, Debug, PartialEq, Eq, Error)]
pub enum LinesFault {
    /// There are more than [`MAX_AXIAL_LINES`](plan_spec::MAX_AXIAL_LINES).
    #[error("there are more than {max} axial lines", max = plan_spec::MAX_AXIAL_LINES)]
    TooManyLines,
    /// There is no memory.
    #[error("there is no memory")]
    NoMemory,
}
