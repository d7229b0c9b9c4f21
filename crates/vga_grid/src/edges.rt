//! The edges of a graph, one after another.

ghost use Rattle.std.specs.Prelude.{◌≡◌, ◌≢◌, ℕ, ◌+◌, ◌-◌, ◌*◌, ◌/◌, ◌<◌, ◌≤◌, ◌&&◌, true, false, not, IfSome, IfNone, length, nat_lt, count_by};
ghost use Rattle.std.specs.Iterator.{YieldsFirst, item_count};
ghost use Rattle.std.specs.List.{range_with_len};
ghost use Rattle.graph_spec.specs.Graphs.{edges_of};
ghost use Rattle.vga_grid.specs.Rows.{bit_of, graph_of, is_joined};
ghost use Rattle.vga_grid.specs.Sets.{is_set};
ghost use Rattle.vga_grid.specs.Edges.{edges_left};

use crate::bit_graph::BitGraph;

/// The word's lowest bit.
fn lowest(word: u64) -> u32
    requires { word ≢ 0 }
    ensures small { result < 64 }
    ensures here { is_set word result ≡ true }
    ensures least { (i : ℕ) → i < result → is_set word i ≡ false }
{
    word.trailing_zeros()
}

/// The bits of a word from bit `b` on.
fn high_part(word: u64, b: u32) -> u64
    requires { b < 64 }
    ensures { (i : ℕ) → i < 64 → is_set result i ≡ (is_set word i && not (nat_lt i b)) }
{
    word & (u64::MAX << b)
}

/// The first bit that is set, in word `from` or a later one.
fn first_in_words(row: &[u64], from: usize) -> Option<usize>
    requires small { length row.now ≤ 256 }
    ensures low { IfSome result (λ v. 64 * from ≤ v) }
    ensures high { IfSome result (λ v. v < 64 * length row.now) }
    ensures here { IfSome result (λ v. bit_of row.now v ≡ true) }
    ensures first { IfSome result (λ v. (w : ℕ) → 64 * from ≤ w → w < v → bit_of row.now w ≡ false) }
    ensures none { IfNone result ((w : ℕ) → 64 * from ≤ w → bit_of row.now w ≡ false) }
{
    for k in from..row.len() {
        if row[k] != 0 {
            return Some(64 * k + lowest(row[k]) as usize);
        }
    }
    None
}

/// The first bit that is set, from `from` on.
fn first_from(row: &[u64], from: usize) -> Option<usize>
    requires small { length row.now ≤ 256 }
    ensures low { IfSome result (λ v. from ≤ v) }
    ensures high { IfSome result (λ v. v < 64 * length row.now) }
    ensures here { IfSome result (λ v. bit_of row.now v ≡ true) }
    ensures first { IfSome result (λ v. (w : ℕ) → from ≤ w → w < v → bit_of row.now w ≡ false) }
    ensures none { IfNone result ((w : ℕ) → from ≤ w → bit_of row.now w ≡ false) }
{
    let start = from / 64;
    if start >= row.len() {
        return None;
    }
    let word = high_part(row[start], (from % 64) as u32);
    if word != 0 {
        return Some(64 * start + lowest(word) as usize);
    }
    first_in_words(row, start + 1)
}

/// How many bits are set in word `from` and the later ones.
fn count_words(row: &[u64], from: usize) -> u64
    requires small { length row.now ≤ 256 }
    requires from { from ≤ length row.now }
    ensures value { result ≡ count_by (bit_of row.now) (range_with_len (64 * from) (64 * length row.now - 64 * from)) }
    ensures few { result ≤ 64 * length row.now }
{
    let mut sum = 0u64;
    for k in from..row.len() {
        sum += u64::from(row[k].count_ones());
    }
    sum
}

/// How many bits are set from `from` on.
fn count_from(row: &[u64], from: usize) -> u64
    requires small { length row.now ≤ 256 }
    ensures { result ≡ count_by (bit_of row.now) (range_with_len from (64 * length row.now - from)) }
{
    let start = from / 64;
    if start >= row.len() {
        return 0;
    }
    let word = high_part(row[start], (from % 64) as u32);
    u64::from(word.count_ones()) + count_words(row, start + 1)
}

/// The edges that are left.
#[derive(Drop)]
pub struct Edges<'a> {
    graph: &'a BitGraph,
    row: u32,
    column: u32,
}

impl<'a> Iterator for Edges<'a> {
    type Item = (u32, u32);

    ghost next_gives = { YieldsFirst (λ s. edges_left (graph_of s.graph.now) s.row s.column) };

    ghost remaining = { item_count (λ s. edges_left (graph_of s.graph.now) s.row s.column) };

    fn next(&mut self) -> Option<(u32, u32)> {
        while self.row < self.graph.len() {
            if let Some(j) = first_from(self.graph.row(self.row), self.column as usize) {
                self.column = j as u32 + 1;
                return Some((self.row, j as u32));
            }
            self.row += 1;
            self.column = self.row + 1;
        }
        None
    }
}

impl BitGraph {
    /// The edges, each once, with its smaller end first.
    pub fn edges(&self) -> Edges<'_>
        ensures { edges_left (graph_of result.graph.now) result.row result.column ≡ edges_of (graph_of self.now) }
    {
        let _n = self.len();
        Edges {
            graph: self,
            row: 0,
            column: 1,
        }
    }

    /// How many edges there are, by the bits of each row past its own node.
    pub fn edge_count(&self) -> u64
        ensures { result ≡ length (edges_of (graph_of self.now)) }
    {
        let mut count = 0u64;
        for i in 0..self.len() {
            count += count_from(self.row(i), i as usize + 1);
        }
        count
    }
}
