//! A part of a list, by where it begins and ends.

/// The elements from `from` on, up to `upto`, which isn't with them.
#[derive(Clone, Copy, Debug)]
pub(crate) struct Range {
    pub(crate) from: usize,
    pub(crate) upto: usize,
}
