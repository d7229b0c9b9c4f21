//! Bytes cut into lines, and lines into words. Nothing here takes memory.

ghost use Rattle.std.specs.Prelude.{◌≡◌, ◌∷◌, ◌<◌, ◌≤◌, [], IfSome, IfNone, length, not, bytes_eq};
ghost use Rattle.std.specs.List.{position, position_or_len};
ghost use Rattle.text_spec.specs.Lines.{is_long, is_newline, lines_of};
ghost use Rattle.text_spec.specs.Words.{begins_comment, is_space, words_of};

use text_spec::MAX_LINE_BYTES;

fn is_space(byte: u8) -> bool
    ensures { result ≡ is_space byte }
{
    byte == b' ' || byte == b'\t'
}

/// Where the first space stands.
fn first_space(bytes: &[u8]) -> Option<usize>
    ensures { result ≡ position is_space bytes.now }
{
    bytes.iter().position(|byte| is_space(*byte))
}

/// Where the first byte stands that is no space.
fn first_of_word(bytes: &[u8]) -> Option<usize>
    ensures { result ≡ position (λ b. not (is_space b)) bytes.now }
{
    bytes.iter().position(|byte| !is_space(*byte))
}

/// How many bytes stand before the first space.
fn word_length(bytes: &[u8]) -> usize
    ensures value { result ≡ position_or_len is_space bytes.now }
    ensures within { result ≤ length bytes.now }
{
    match first_space(bytes) {
        Some(length) => length,
        None => bytes.len(),
    }
}

/// The first word, and what follows it.
pub fn next_word(bytes: &[u8]) -> Option<(&[u8], &[u8])>
    ensures word { IfSome result (λ r. words_of bytes.now ≡ r.0.now ∷ words_of r.1.now) }
    ensures shorter { IfSome result (λ r. length r.1.now < length bytes.now) }
    ensures none { IfNone result (words_of bytes.now ≡ []) }
{
    let start = first_of_word(bytes)?;
    let (_, rest) = bytes.split_at(start);
    Some(rest.split_at(word_length(rest)))
}

/// Whether the word is this keyword.
pub fn is_word(word: &[u8], keyword: &[u8]) -> bool
    ensures { result ≡ bytes_eq word.now keyword.now }
{
    word == keyword
}

/// How many words there are.
pub fn count_words(bytes: &[u8]) -> usize
    ensures { result ≡ length (words_of bytes.now) }
{
    let mut rest = bytes;
    let mut count = 0;
    'words: while let Some((_, more)) = next_word(rest) {
        rest = more;
        count += 1;
    }
    count
}

/// Where the first newline stands.
fn first_newline(bytes: &[u8]) -> Option<usize>
    ensures { result ≡ position is_newline bytes.now }
{
    bytes.iter().position(|byte| *byte == b'\n')
}

/// The first line without its newline, and what follows the newline.
pub fn next_line(bytes: &[u8]) -> Option<(&[u8], &[u8])>
    ensures line { IfSome result (λ r. lines_of bytes.now ≡ r.0.now ∷ lines_of r.1.now) }
    ensures shorter { IfSome result (λ r. length r.1.now < length bytes.now) }
    ensures none { IfNone result (lines_of bytes.now ≡ []) }
{
    if bytes.is_empty() {
        return None;
    }
    match first_newline(bytes) {
        Some(end) => Some((&bytes[..end], &bytes[end + 1..])),
        None => Some(bytes.split_at(bytes.len())),
    }
}

/// Whether more bytes than a line may have stand before its newline.
pub fn is_long(line: &[u8]) -> bool
    ensures { result ≡ is_long line.now }
{
    line.len() > MAX_LINE_BYTES
}

/// Whether the word begins with `#`.
pub fn begins_comment(word: &[u8]) -> bool
    ensures { result ≡ begins_comment word.now }
{
    match word.first() {
        Some(byte) => *byte == b'#',
        None => false,
    }
}
