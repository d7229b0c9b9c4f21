//! Lines: how long they may be, and what is shown of them.

ghost use Rattle.std.specs.Prelude.{◌≡◌, ◌++◌, ℕ, List, length, take};
ghost use Rattle.text_spec.specs.Lines.{lines_of, unended_line_of, whole_lines_of, without_return};

/// How many bytes may stand before a line's newline, a carriage return counted.
pub const MAX_LINE_BYTES: usize = 20000;

/// The line without one carriage return that stands last in it.
pub fn without_return(line: &[u8]) -> &[u8]
    ensures bytes { result.now ≡ without_return line.now }
    ensures prefix { take (length result.now) line.now ≡ result.now }
{
    line.strip_suffix(b"\r").unwrap_or(line)
}

/// The lines of bytes are those that a newline ends, and then what stands after the last newline, if anything does.
pub fn lines_are_whole_but_for_the_last()
    ensures { (bytes : List ℕ) → lines_of bytes ≡ whole_lines_of bytes ++ unended_line_of bytes }
{}
