//! Why a line isn't read, and on which lines items stand.

use text_spec::Sequence;

/// Why a line is outside the grammar. Where several hold, it is told first that the line is too long, then that its
/// first word is none of the grammar's, then a wrong number of words, then a wrong word after `show`, then a wrong
/// name, and last a wrong number. So `show foo bar` has a wrong number of words, and `show foo` is of no kind.
#[derive(Clone, Copy, Debug, PartialEq, Eq)]
pub enum TextWhy {
    /// More than [`MAX_LINE_BYTES`](text_spec::MAX_LINE_BYTES) stand before the newline.
    Long,
    /// The first word, or the word after `show`, is none of the grammar's, or a header was due and this is none.
    Kind,
    /// The number of words is wrong.
    Words,
    /// The word in a name's place is no name.
    Name,
    /// A word in a number's place is no number.
    Number,
}

/// The numbers of lines, counted from 1. Contracts see a list of numbers.
pub type LineNumbers = Sequence<u32>;
