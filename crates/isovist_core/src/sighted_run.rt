//! A run of sectors in which one wall is seen.

use crate::heading::Heading;

/// A run: from one direction to another, counterclockwise, one wall or screen is seen.
#[derive(Clone, Copy, Debug)]
pub(crate) struct SightedRun {
    pub(crate) from: Heading,
    pub(crate) to: Heading,
    pub(crate) wall: u32,
}
