//! What is read: the grammar of plans and scripts, and the plain data that it names.
//!
//! | item | what it is |
//! |---|---|
//! | [`PlanLine`], [`Version`], [`PlanWord`] | a line of a plan: blank, a header or an item |
//! | [`Line`], [`Query`], [`ScriptWord`] | a line of a script: blank, an edit or a question |
//! | [`Count`] | how many numbers a line has |
//! | [`TextWhy`] | why a line is outside the grammar |
//! | [`LineNumbers`] | the numbers of the lines on which items stand |
//! | [`MAX_PLAN_BYTES`], [`MAX_SCRIPT_BYTES`] | how many bytes the file of a plan and a script may have |
//!
//! The definitions stand in `specs/`, in the order in which they are read: `Arguments`, `PlanText`, `ScriptText`.
#![tactic(auto)]

mod arguments;
mod limits;
mod plan_line;
mod script_line;
mod text_why;

pub use arguments::Count;
pub use limits::{MAX_PLAN_BYTES, MAX_SCRIPT_BYTES};
pub use plan_line::{PlanLine, PlanWord, Version};
pub use script_line::{Line, Query, ScriptWord};
pub use text_why::{LineNumbers, TextWhy};
