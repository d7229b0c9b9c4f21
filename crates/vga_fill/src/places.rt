//! Where the bits of a graph stand in the table of a fill.

ghost use Rattle.std.specs.Prelude.{◌≡◌, ◌<◌, ◌≤◌, ◌^◌, ◌-◌};
ghost use Rattle.vga_grid.specs.Rows.{width};
ghost use Rattle.vga_grid.specs.declared.limits.TheConstants.{MAX_NODES};
ghost use Rattle.vga_fill.specs.Places.{size, word_of};

/// The mask of one bit.
pub(crate) fn mask_of(b: u32) -> u64
    requires { b < 64 }
    ensures { result ≡ 2 ^ b }
{
    1 << b
}

/// How many words a row takes.
pub(crate) fn row_len(count: u32) -> usize
    requires { count ≤ MAX_NODES }
    ensures { result ≡ width count }
{
    (count as usize + 63) / 64
}

/// Which word has the place (i, j).
pub(crate) fn word_at(count: u32, i: u32, j: u32) -> usize
    requires at_most { count ≤ MAX_NODES }
    requires i_in { i < count }
    requires j_in { j < count }
    ensures value { result ≡ word_of count i j }
    ensures within { result < size count }
{
    1 + i as usize * row_len(count) + j as usize / 64
}
