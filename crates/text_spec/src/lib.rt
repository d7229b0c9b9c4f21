//! Lines, words, numbers and names as bytes: the definitions that readers of text cite, and the types that all crates
//! share.
//!
//! | item | what it is |
//! |---|---|
//! | [`Name`] | 1 to 32 letters, digits, `_` and `-` |
//! | [`Sequence`] | a list that grows at its end |
//! | [`NoMemory`] | what every call answers that found no memory |
//! | [`without_return`] | a line without the carriage return that stands last in it |
//! | [`lines_are_whole_but_for_the_last`] | the law that ties all lines to those that a newline ends |
//! | [`MAX_LINE_BYTES`], [`MAX_NAME_BYTES`] | how many bytes lines and names may have |
//! | [`MAX_DIGITS`], [`MAX_NUMBER`] | how many digits numbers may have, and what they come to |
//!
//! `specs/Lines.antt` cuts bytes into lines, `specs/Words.antt` lines into words; `specs/Numbers.antt` and
//! `specs/Names.antt` say which words are numbers and names.
#![tactic(auto)]

mod lines;
mod name;
mod no_memory;
mod numbers;
mod sequence;

pub use lines::{MAX_LINE_BYTES, lines_are_whole_but_for_the_last, without_return};
pub use name::{MAX_NAME_BYTES, Name};
pub use no_memory::NoMemory;
pub use numbers::{MAX_DIGITS, MAX_NUMBER};
pub use sequence::Sequence;
