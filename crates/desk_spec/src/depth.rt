//! How far a desk goes back.

/// How many changes a desk can undo.
pub const DEPTH: usize = 64;
