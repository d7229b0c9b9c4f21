//! A gap between two directions.

use crate::heading::Heading;

/// The gap from one direction to the next, counterclockwise.
#[derive(Clone, Copy, Debug)]
pub(crate) struct Gap {
    pub(crate) from: Heading,
    pub(crate) to: Heading,
}
