//! A square of bits as rows of words.

ghost use Rattle.std.specs.Prelude.{◌≡◌, ℕ, ◌+◌, ◌*◌, ◌/◌, ◌<◌, ◌≤◌, ◌&&◌, ◌||◌, ◌==◌, length};
ghost use Rattle.vga_grid.specs.Rows.{width, bit_in, is_pair};

use crate::limits::MAX_NODES;

/// How many words a row of `n` bits takes.
pub(crate) fn row_len(n: u32) -> usize
    requires { n ≤ MAX_NODES }
    ensures { result ≡ width n }
{
    (n as usize + 63) / 64
}

/// Bit `j` of row `i`.
pub(crate) fn get_bit(words: &[u64], n: u32, i: u32, j: u32) -> bool
    requires i { i < n }
    requires j { j < n }
    requires at_most { n ≤ MAX_NODES }
    requires sized { length words.now ≡ n * width n }
    ensures { result ≡ bit_in words.now n i j }
{
    (words[i as usize * row_len(n) + j as usize / 64] >> (j % 64)) & 1 == 1
}

/// Sets bit `j` of row `i`.
fn set_bit(words: &mut [u64], n: u32, i: u32, j: u32)
    requires i { i < n }
    requires j { j < n }
    requires at_most { n ≤ MAX_NODES }
    requires sized { length words.old ≡ n * width n }
    ensures bits { (a b : ℕ) → b / 64 < width n
        → bit_in words.new n a b ≡ (bit_in words.old n a b || (a == i && b == j)) }
{
    let at = i as usize * row_len(n) + j as usize / 64;
    words[at] |= 1 << (j % 64);
}

/// Sets bit `j` of row `i` and bit `i` of row `j`.
pub(crate) fn set_pair(words: &mut [u64], n: u32, i: u32, j: u32)
    requires i { i < n }
    requires j { j < n }
    requires at_most { n ≤ MAX_NODES }
    requires sized { length words.old ≡ n * width n }
    ensures bits { (a b : ℕ) → b / 64 < width n
        → bit_in words.new n a b ≡ (bit_in words.old n a b || is_pair i j a b) }
{
    set_bit(words, n, i, j);
    set_bit(words, n, j, i);
}
