//! Graphs as squares of bits.

ghost use Rattle.std.specs.Prelude.{◌≡◌, ◌≢◌, ℕ, ◌<◌, ◌≤◌, ◌||◌, false, length, IfOk};
ghost use Rattle.graph_spec.specs.Graphs.{IsSimpleGraph};
ghost use Rattle.vga_grid.specs.Rows.{width, bit_of, is_joined, is_pair, graph_of};

use crate::bits::{get_bit, row_len, set_pair};
use crate::grid::Grid;
use crate::limits::MAX_NODES;
use std::alloc::Global;
use std::marker::Model;
use text_spec::NoMemory;

/// A graph of at most `MAX_NODES` nodes, numbered from 0. Its edges have no direction and join different nodes: the type
/// keeps it so. Contracts see which nodes are joined (`is_joined`), or the graph as a whole (`graph_of`).
///
/// Memory: of n nodes n rows of ⌈n/64⌉ words of 64 bits, 2 MiB for 4096 nodes.
#[derive(Drop)]
pub struct BitGraph {
    count: u32,
    words: Vec<u64>,
}

impl Model for BitGraph {
    ghost use Rattle.vga_grid.specs.Rows.{Matrix, AreRows};

    ghost Value = { Matrix };

    ghost view = { λ a. record { count = a.count; words = a.words.items } };

    ghost invariant = { λ a. AreRows (record { count = a.count; words = a.words.items }) };
}

impl BitGraph {
    /// A graph of `n` nodes and no edge.
    pub fn empty(alloc: Global, n: u32) -> Result<BitGraph, NoMemory>
        requires { n ≤ MAX_NODES }
        ensures count { IfOk result (λ graph. graph.count ≡ n) }
        ensures none { IfOk result (λ graph. (i j : ℕ) → is_joined graph i j ≡ false) }
        ensures simple { IfOk result (λ graph. IsSimpleGraph (graph_of graph)) }
    {
        let words = vec![in alloc; 0u64; n as usize * row_len(n)]?;
        Ok(BitGraph { count: n, words })
    }

    /// How many nodes there are.
    pub fn len(&self) -> u32
        ensures len { result ≡ self.now.count }
        ensures at_most { self.now.count ≤ MAX_NODES }
        ensures simple { IsSimpleGraph (graph_of self.now) }
    {
        self.count
    }

    /// Whether `i` and `j` are joined. A number that is no node's is joined with none.
    pub fn has(&self, i: u32, j: u32) -> bool
        ensures { result ≡ is_joined self.now i j }
    {
        i < self.count && j < self.count && get_bit(&self.words, self.count, i, j)
    }

    /// Joins two different nodes. Where they were joined, nothing changes.
    pub fn join_pair(&mut self, i: u32, j: u32)
        requires apart { i ≢ j }
        requires i_in { i < self.old.count }
        requires j_in { j < self.old.count }
        ensures count { self.new.count ≡ self.old.count }
        ensures joined { (a b : ℕ) → is_joined self.new a b ≡ (is_joined self.old a b || is_pair i j a b) }
        ensures simple { IsSimpleGraph (graph_of self.new) }
    {
        set_pair(&mut self.words, self.count, i, j);
    }

    /// Row `i`: bit `j` of its words, counted from the lowest bit of the first, tells whether `i` and `j` are joined.
    pub fn row(&self, i: u32) -> &[u64]
        requires { i < self.now.count }
        ensures len { length result.now ≡ width self.now.count }
        ensures bits { (j : ℕ) → bit_of result.now j ≡ is_joined self.now i j }
    {
        let len = row_len(self.count);
        let at = i as usize * len;
        &self.words[at..at + len]
    }
}

fn is_shared<T: Send + Sync>() {}

/// A graph and a grid may be moved to another thread and shared between threads.
pub fn types_are_shared() {
    is_shared::<BitGraph>();
    is_shared::<Grid>();
}
