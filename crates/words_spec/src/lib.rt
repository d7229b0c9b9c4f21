//! The words of the command: which options they give, by the stated rule of the crate `clap` for one simple command.
//!
//! The definition stands in `specs/CommandWords.antt`. It is a crate of its own so that no other crate of definitions
//! stands on `clap`.
#![tactic(auto)]
