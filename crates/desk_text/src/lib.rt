//! The lines of a script at a desk, read.
//!
//! | item | what it is |
//! |---|---|
//! | [`read_desk_line`] | what a line asks of a desk, or why it is outside the grammar |
//! | [`desk_lines_are_read`] | the law that a line without its carriage return is read as it stands in the script |
//! | [`DeskLine`], [`TextWhy`], [`ReadLineFault`] | what is read from a line, or why it isn't |
//!
//! ```text
//! undo                 show watch 0         move A 1 0             depth 0 0
//! a step back          a watcher's notes    an edit as any other   kind: no question of a desk
//! ```
//!
//! The grammar is that of `desk_spec`, `specs/DeskText.antt`. The lines that a desk has with any script are read by
//! `plan_text`. Lines are read in place: only the points of an obstacle that is added take memory.
#![tactic(auto)]

mod law;
mod other;
mod own;
mod reading;

pub use desk_spec::DeskLine;
pub use law::desk_lines_are_read;
pub use plan_text::{ReadLineFault, TextWhy};
pub use reading::read_desk_line;
