//! Why a line of a script at a desk is refused.

use grammar_spec::TextWhy;
use plan_spec::Why;

/// Why a line of a script at a desk is refused.
#[derive(Drop)]
pub enum DeskReason {
    /// It is outside the grammar.
    Text(TextWhy),
    /// Its edit is refused.
    Edit(Why),
    /// There is nothing to undo, or to redo.
    Nothing,
    /// There is no watcher of this number.
    NoWatch,
}
