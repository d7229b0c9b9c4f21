//! The words of the command, read as its options, by the code of the crate `clap`.
//!
//! | item | what it is |
//! |---|---|
//! | [`options_in`] | what the words ask for, if they ask for something |
//!
//! ```text
//! -m VGA -f plan.txt --workers 4      analyse plan.txt: what its grid points see, by four workers, as text
//! -m TRIAL --number 30                make the trial plan of thirty boxes
//! -m VGA                              nothing: an analysis needs a file
//! ```
#![tactic(auto)]

mod arguments;
mod job;
#[cfg(test)]
mod tests;

pub use job::options_in;
