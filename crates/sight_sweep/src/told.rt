//! What a view tells of one direction.

use view_laws::Front;

/// What is told of one direction.
#[derive(Clone, Copy, Debug)]
pub(crate) struct Told {
    /// What is seen first.
    pub(crate) front: Option<Front>,
    /// How far off the nearest corner is that is led into on the way out.
    pub(crate) ahead: Option<u64>,
    /// The same on the way back.
    pub(crate) behind: Option<u64>,
}
