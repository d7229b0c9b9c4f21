//! What is to be done with each row.

use plan_spec::Changed;

/// Which pairs of a row are asked.
#[derive(Clone, Copy, Debug)]
pub(crate) enum Job {
    /// All of them: the old graph has no edges.
    All,
    /// Those whose segments meet one of the boxes: all others are as they were.
    Dirty(Changed),
}
