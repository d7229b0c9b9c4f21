//! Which walls, screens and corners a look leaves out.

/// Flags by number: false for what is left out.
#[derive(Drop)]
pub(crate) struct LeftOut {
    /// For each wall, and each screen after all walls, whether the round has it.
    pub(crate) kept: Vec<bool>,
    /// For each corner whether the round comes by it.
    pub(crate) shown: Vec<bool>,
}
