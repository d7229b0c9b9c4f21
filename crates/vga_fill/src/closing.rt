//! The graph that a fill leaves.

ghost use Rattle.std.specs.Mem.Slots.{slots_items, slots_len, IsFull};
ghost use Rattle.std.specs.Prelude.{◌≡◌, ◌≢◌, ℕ, ◌%◌, ◌<◌, ◌≤◌, ◌&&◌, IfNone, IfOk, IfSome, false, nat_lt, not};
ghost use Rattle.std.specs.Prelude.{slice_index, true};
ghost use Rattle.vga_grid.specs.Sets.{is_set};
ghost use Rattle.vga_grid.specs.declared.limits.TheConstants.{MAX_NODES};
ghost use Rattle.vga_fill.specs.Graphs.{IsReadFrom, is_one};
ghost use Rattle.vga_fill.specs.Places.{size, word_of};

use crate::places::word_at;
use atomic_table::Closed;
use std::alloc::Global;
use text_spec::NoMemory;
use vga_grid::BitGraph;

/// A word of a table that no thread shares any more.
fn word(closed: &Closed<(), Global>, k: usize) -> u64
    requires full { IsFull closed.now.words }
    requires within { k < slots_len closed.now.words }
    ensures { result ≡ slice_index (slots_items closed.now.words) k }
{
    closed.word(k)
}

/// The word's lowest bit.
fn lowest(word: u64) -> u32
    requires { word ≢ 0 }
    ensures small { result < 64 }
    ensures here { is_set word result ≡ true }
    ensures least { (i : ℕ) → i < result → is_set word i ≡ false }
{
    word.trailing_zeros()
}

/// The bits of a word from bit `b` on.
fn high_part(word: u64, b: u32) -> u64
    requires { b < 64 }
    ensures { (i : ℕ) → i < 64 → is_set result i ≡ (is_set word i && not (nat_lt i b)) }
{
    word & (u64::MAX << b)
}

/// The bits of the word of the place (i, j) from this place on.
fn ones_from(closed: &Closed<(), Global>, count: u32, i: u32, j: u32) -> u64
    requires at_most { count ≤ MAX_NODES }
    requires i_in { i < count }
    requires j_in { j < count }
    requires full { IsFull closed.now.words }
    requires sized { slots_len closed.now.words ≡ size count }
    ensures { (b : ℕ) → b < 64 → is_set result b
        ≡ (is_set (slice_index (slots_items closed.now.words) (word_of count i j)) b && not (nat_lt b (j % 64))) }
{
    high_part(word(closed, word_at(count, i, j)), j % 64)
}

/// The node of the first place of row `i` that is 1, from that of node `from` on. It goes on by words.
fn next_one(closed: &Closed<(), Global>, count: u32, i: u32, from: u32) -> Option<u32>
    requires at_most { count ≤ MAX_NODES }
    requires i_in { i < count }
    requires full { IsFull closed.now.words }
    requires sized { slots_len closed.now.words ≡ size count }
    ensures found { IfSome result (λ j. (from ≤ j) × (j < count)
        × (is_one (slots_items closed.now.words) count i j ≡ true)) }
    ensures first { IfSome result (λ j. (k : ℕ) → from ≤ k → k < j
        → is_one (slots_items closed.now.words) count i k ≡ false) }
    ensures none { IfNone result ((k : ℕ) → from ≤ k → k < count
        → is_one (slots_items closed.now.words) count i k ≡ false) }
{
    let mut j = from;
    'words: while j < count {
        let ones = ones_from(closed, count, i, j);
        let first = j - j % 64;
        if ones != 0 {
            let found = first + lowest(ones);
            if found >= count {
                return None;
            }
            return Some(found);
        }
        j = first + 64;
    }
    None
}

/// The graph that joins two nodes where the place of the smaller one's row is 1.
///
/// Cost: a step for each word, and one for each edge.
pub(crate) fn graph_of_closed(
    alloc: Global,
    closed: &Closed<(), Global>,
    count: u32,
) -> Result<BitGraph, NoMemory>
    requires at_most { count ≤ MAX_NODES }
    requires full { IsFull closed.now.words }
    requires sized { slots_len closed.now.words ≡ size count }
    ensures { IfOk result (IsReadFrom (slots_items closed.now.words) count) }
{
    let mut graph = BitGraph::empty(alloc, count)?;
    for i in 0..count {
        let mut j = i + 1;
        'ones: while let Some(next) = next_one(closed, count, i, j) {
            graph.join_pair(i, next);
            j = next + 1;
        }
    }
    Ok(graph)
}
