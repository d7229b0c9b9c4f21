//! A script read line by line, each line answered before more is taken, whatever answers it.
//!
//! | item | what it is |
//! |---|---|
//! | [`Answerer`] | what answers lines: it has a state, and each line makes one step |
//! | [`AnswerFault`] | why a line wasn't answered |
//! | [`answer_script`], [`ScriptEnd`] | answers all lines of a script; how that ended |
//!
//! ```text
//! script   show edges \n remove A \n show edges        each reply is written before the next line is waited for
//! out      ok 1 ..       ok 2        ok 3 ..
//! ```
#![tactic(auto)]

mod answerer;
mod script;
#[cfg(test)]
mod tests;

pub use answerer::{AnswerFault, Answerer};
pub use script::{ScriptEnd, answer_script};
