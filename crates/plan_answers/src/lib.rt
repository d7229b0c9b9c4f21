//! What a session answers: the replies to the lines of a script, the tables of a mode, and the record of a trial.
//!
//! | item | what it prints |
//! |---|---|
//! | [`answer_line`] | the reply to a line of a script, which it does: an edit, a question, or nothing |
//! | [`put_mode`] | the tables of a mode over the plan of a session |
//! | [`put_trial_of`] | the record of the trial of a number of boxes |
//!
//! ```text
//! show edges      ok 1 / table edges / .. / end 57
//! remove nobody   refused 2 missing
//! ```
//!
//! All that a reply needs is computed before its first byte is written: memory gives out before `ok`, or while the rows
//! are made. What is printed is what `report_spec` says of the plan, whatever the session keeps.
#![tactic(auto)]

mod found;
mod lines;
mod modes;
mod questions;
mod replies;
mod table;
mod tables;
mod trials;
mod turns_table;

pub use lines::answer_line;
pub use modes::put_mode;
pub use trials::put_trial_of;
