//! Words that are numbers.

/// How many digits a number may have.
pub const MAX_DIGITS: usize = 9;

/// The largest number of so many digits.
pub const MAX_NUMBER: u32 = 999_999_999;
