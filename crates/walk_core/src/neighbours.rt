//! The neighbours of each node of a graph, as lists.

ghost use Rattle.std.specs.Prelude.{◌≡◌, ◌≢◌, ℕ, ◌++◌, ◌^◌, ◌<◌, ◌≤◌, ◌&&◌, ◌==◌, true, false, not, All, IfOk, OnOk, length};
ghost use Rattle.vga_grid.specs.Rows.{graph_of};
ghost use Rattle.vga_grid.specs.Sets.{is_set};
ghost use Rattle.walk_spec.specs.Walks.{neighbours_of};
ghost use Rattle.walk_core.specs.Lists.{listed, nodes_of_word, nodes_of_row};

use std::alloc::Global;
use std::marker::Model;
use text_spec::NoMemory;
use vga_grid::BitGraph;

/// The neighbours of each node in order of their numbers, those of one node after those of the other in one list.
#[derive(Drop)]
pub(crate) struct Neighbours {
    count: u32,
    firsts: Vec<u32>,
    near: Vec<u16>,
}

impl Model for Neighbours {
    ghost use Rattle.walk_core.specs.Lists.{Lists, AreLists};

    ghost Value = { Lists };

    ghost view = { λ a. record { count = a.count; firsts = a.firsts.items; near = a.near.items } };

    ghost invariant = { λ a. AreLists (record { count = a.count; firsts = a.firsts.items; near = a.near.items }) };
}

/// The word's lowest bit.
fn lowest(word: u64) -> u32
    requires { word ≢ 0 }
    ensures small { result < 64 }
    ensures here { is_set word result ≡ true }
    ensures least { (i : ℕ) → i < result → is_set word i ≡ false }
{
    word.trailing_zeros()
}

/// The word with bit `b` cleared.
fn cleared(word: u64, b: u32) -> u64
    requires { b < 64 }
    ensures bits { (i : ℕ) → i < 64 → is_set result i ≡ (is_set word i && not (i == b)) }
    ensures less { is_set word b ≡ true → result < word }
{
    word & !(1 << b)
}

/// Adds the nodes of the bits of a word, whose lowest bit is for node `first`.
fn push_word(near: &mut Vec<u16>, first: u16, word: u64) -> Result<(), NoMemory>
    requires { first ≤ 65000 }
    ensures { OnOk result (near.new.items ≡ near.old.items ++ nodes_of_word first word) }
{
    let mut left = word;
    'bits: while left != 0 {
        let bit = lowest(left);
        near.push(first + bit as u16)?;
        left = cleared(left, bit);
    }
    Ok(())
}

/// Adds the nodes of the bits of a row.
fn push_row(near: &mut Vec<u16>, row: &[u64]) -> Result<(), NoMemory>
    requires { length row.now ≤ 256 }
    ensures { OnOk result (near.new.items ≡ near.old.items ++ nodes_of_row row.now) }
{
    for k in 0..row.len() {
        push_word(near, 64 * k as u16, row[k])?;
    }
    Ok(())
}

impl Neighbours {
    /// The neighbours of each node of a graph.
    ///
    /// Cost: one pass over the words of the graph's rows, and a step for each neighbour.
    pub(crate) fn of_graph(alloc: Global, graph: &BitGraph) -> Result<Neighbours, NoMemory>
        ensures count { IfOk result (λ lists. lists.count ≡ graph.now.count) }
        ensures listed { IfOk result (λ lists. (node : ℕ) → node < graph.now.count
            → listed lists node ≡ neighbours_of (graph_of graph.now) node) }
    {
        let mut near = Vec::new(alloc);
        let mut firsts = Vec::new(alloc);
        firsts.push(0)?;
        for node in 0..graph.len() {
            push_row(&mut near, graph.row(node))?;
            firsts.push(near.len() as u32)?;
        }
        Ok(Neighbours {
            count: graph.len(),
            firsts,
            near,
        })
    }

    /// How many nodes there are.
    pub(crate) fn nodes(&self) -> u32
        ensures { result ≡ self.now.count }
    {
        self.count
    }

    /// The neighbours of a node.
    #[tactic(auto, unfolding(crate::specs::Lists::listed))]
    pub(crate) fn of(&self, node: u32) -> &[u16]
        requires { node < self.now.count }
        ensures near { result.now ≡ listed self.now node }
        ensures nodes { All (λ near. near < self.now.count) result.now }
        ensures short { length result.now < 2 ^ 32 }
    {
        let first = self.firsts[node as usize] as usize;
        let end = self.firsts[node as usize + 1] as usize;
        &self.near[first..end]
    }
}
