//! What a claim is answered with.

/// A row that was claimed, or that none was left.
#[derive(Clone, Copy, Debug, PartialEq, Eq)]
pub enum Claim {
    /// This row, which nobody had claimed.
    Row(u32),
    /// All rows are claimed.
    Done,
}
