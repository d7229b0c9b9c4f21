//! Words read as numbers.

ghost use Rattle.std.specs.Prelude.{◌≡◌, length};
ghost use Rattle.text_spec.specs.Numbers.{natural_of, number_of};

use text_spec::MAX_DIGITS;

/// The number that a word of 1 to 9 digits stands for, or `None` where it is none.
#[tactic(auto, unfolding(text_spec::specs::Numbers::natural_of))]
pub fn natural(digits: &[u8]) -> Option<u32>
    ensures { result ≡ natural_of digits.now }
{
    if digits.is_empty() || digits.len() > MAX_DIGITS {
        return None;
    }
    let mut value = 0;
    'digits: for digit in digits {
        if !digit.is_ascii_digit() {
            return None;
        }
        value = value * 10 + u32::from(*digit - b'0');
    }
    Some(value)
}

/// 1 to 9 digits, with `-` before them or without, as a number.
#[tactic(auto, unfolding(text_spec::specs::Numbers::number_of))]
pub fn number(word: &[u8]) -> Option<i64>
    ensures { result ≡ number_of word.now }
{
    let (first, rest) = word.split_first()?;
    if *first == b'-' {
        natural(rest).map(|value| -i64::from(value))
    } else {
        natural(word).map(i64::from)
    }
}
