//! What stands after the word that begins a line.

/// How many numbers a line has.
#[derive(Clone, Copy, Debug, PartialEq, Eq)]
pub enum Count {
    /// So many, no more and no fewer.
    Exactly(usize),
    /// At least one pair.
    InPairs,
}
