//! The options of the command: what the texts that are given for them ask for.
//!
//! | item | what it is |
//! |---|---|
//! | [`Given`], [`GivenText`] | the texts that are given for the options |
//! | [`Options`], [`Job`] | what the command was asked for |
//! | [`Mode`] | which tables of a plan are printed |
//! | [`Form`] | how records are printed: as text or as csv |
//! | [`MAX_WORKERS`], [`MAX_TRIAL_BOXES`] | how many workers and boxes may be asked for |
//!
//! `specs/Options.antt` says which options texts stand for; which words of the command give which texts is said in
//! `words_spec`.
#![tactic(auto)]

mod options;

pub use options::{Form, Given, GivenText, Job, MAX_TRIAL_BOXES, MAX_WORKERS, Mode, Options};
