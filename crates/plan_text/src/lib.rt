//! The text of plans and scripts: plans are read and printed, the lines of a script are read.
//!
//! | item | what it is |
//! |---|---|
//! | [`read_plan`] | the items of a plan's text with the numbers of their lines, or the first line outside the grammar |
//! | [`read_line`] | the edit or the question of a line of a script, or why it is outside the grammar |
//! | [`shown_lines_are_read`] | the law that a line without its carriage return is read as it stands in the script |
//! | [`print_plan`] | the text of items |
//! | [`prints_and_reads`] | the law that what is printed is read again |
//! | [`accepted_plans_are_printable`] | the law that the items of a sound plan keep the limits of printing |
//! | [`PlanText`] | a plan as it is read |
//! | [`ReadPlanFault`], [`ReadLineFault`] | why bytes aren't read |
//! | [`Line`], [`Query`], [`TextWhy`], [`LineNumbers`] | what is read from a line |
//! | [`Edit`], [`GridSpec`], [`Item`], [`Items`], [`PlanData`], [`Point`], [`Points`], [`Name`] | what plans and edits are made of |
//! | [`natural`] | the number that a word of digits stands for |
//! | [`next_word`], [`is_word`], [`is_long`] | the words of a line one by one, and whether a line is too long |
//! | [`next_number`], [`numbers_alone`] | the numbers of a line one by one, and whether there are as many as asked for |
//! | [`keyword`], [`is_screen`], [`have_screens`] | the keyword of an item, and whether items ask for the second version |
//! | [`NoMemory`] | what is answered where there is no memory |
//! | [`MAX_PLAN_BYTES`] | how many bytes the text of a plan may have |
//!
//! The grammar is that of `grammar_spec`: `specs/Arguments.antt`, `specs/PlanText.antt` and `specs/ScriptText.antt`.
//! Bytes are cut into lines and words in place: only the points of polygons, items and the printed text take memory.
#![tactic(auto)]

mod arguments;
mod faults;
mod fields;
mod numbers;
mod plan_lines;
mod plans;
mod polygons;
mod printing;
mod script_lines;
mod words;

pub use faults::{ReadLineFault, ReadPlanFault};
pub use fields::{next_number, numbers_alone};
pub use grammar_spec::{Count, Line, LineNumbers, MAX_PLAN_BYTES, Query, TextWhy};
pub use numbers::natural;
pub use plan_spec::{Edit, GridSpec, Item, Items, PlanData, Points};
pub use plane_spec::Point;
pub use plans::{PlanText, read_plan};
pub use printing::{
    accepted_plans_are_printable, have_screens, is_screen, keyword, print_plan, prints_and_reads,
};
pub use script_lines::{read_line, shown_lines_are_read};
pub use text_spec::{Name, NoMemory};
pub use words::{is_long, is_word, next_word};
