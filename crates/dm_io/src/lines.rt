//! Lines in bytes, and what a reader tells of them.
ghost use Rattle.std.specs.Prelude.{◌≡◌, ◌≤◌, ◌<◌, ℕ, length, false, take, IfSome, IfNone, slice_index};
ghost use Rattle.text_spec.specs.Lines.{without_return};
ghost use Rattle.dm_io.specs.Lines.{next_of, has_newline};

use text_spec::without_return;

/// What a reader of lines tells.
#[derive(Clone, Copy, Debug, PartialEq, Eq)]
pub enum Next {
    /// The next line stands in `bytes`. It has at most [`MAX_LINE_BYTES`](text_spec::MAX_LINE_BYTES) before its
    /// newline, a carriage return counted.
    Line,
    /// The next line has more bytes than that before its newline and was skipped to its end.
    Long,
    /// All was taken, and every line was read.
    End,
    /// The source failed. Every line whose newline was taken was read.
    Failed,
    /// The source gave one byte more than the limit. Every line whose newline is within the limit was read.
    Over,
}

/// The place of the first newline, of which there is none among the first `seen` bytes.
pub fn newline_after(bytes: &[u8], seen: usize) -> Option<usize>
    requires within { seen ≤ length bytes.now }
    requires plain { has_newline (take seen bytes.now) ≡ false }
    ensures within { IfSome result (λ n. n < length bytes.now) }
    ensures before { IfSome result (λ n. has_newline (take n bytes.now) ≡ false) }
    ensures there { IfSome result (λ n. slice_index bytes.now n ≡ 10) }
    ensures nowhere { IfNone result (has_newline bytes.now ≡ false) }
{
    for i in seen..bytes.len() {
        if bytes[i] == b'\n' {
            return Some(i);
        }
    }
    None
}

/// The number of bytes that are shown of a line: all but a carriage return that stands last.
pub fn shown_length(line: &[u8]) -> usize
    ensures shown { take result line.now ≡ without_return line.now }
    ensures within { result ≤ length line.now }
{
    without_return(line).len()
}

/// How a line is told: as what it is.
pub fn next_of(long: bool) -> Next
    ensures { result ≡ next_of long }
{
    if long { Next::Long } else { Next::Line }
}
