//! The depths of all nodes from one.

ghost use Rattle.std.specs.Prelude.{◌≡◌, ◌≢◌, ℕ, ◌+◌, ◌*◌, ◌/◌, ◌<◌, ◌≤◌, true, false, Option, None, Some, length, IfOk, slice_index_or, nat_lt};
ghost use Rattle.graph_spec.specs.Graphs.{depths_of};
ghost use Rattle.vga_grid.specs.Rows.{width, bit_of, graph_of};
ghost use Rattle.step_depth.specs.Levels.{IsMarked};

use crate::levels::look;
use crate::sets::{assign_without, complement, count, has, remove};
use std::alloc::Global;
use text_spec::NoMemory;
use vga_grid::BitGraph;

/// Marks the nodes of word `k` of the front.
fn mark_word(marks: &mut [Option<u32>], front: &[u64], k: usize, depth: u32)
    requires small { length front.now ≤ 256 }
    requires word { k < length front.now }
    requires nodes { (v : ℕ) → bit_of front.now v ≡ true → v < length marks.old }
    ensures marked { (v : ℕ) → v / 64 ≡ k → bit_of front.now v ≡ true → slice_index_or marks.new v None ≡ Some depth }
    ensures others { (v : ℕ) → v / 64 ≢ k → slice_index_or marks.new v None ≡ slice_index_or marks.old v None }
    ensures kept { (v : ℕ) → bit_of front.now v ≡ false → slice_index_or marks.new v None ≡ slice_index_or marks.old v None }
{
    for v in 64 * k..64 * k + 64 {
        if has(front, v) {
            marks[v] = Some(depth);
        }
    }
}

/// Marks the nodes of the front.
fn mark(marks: &mut [Option<u32>], front: &[u64], depth: u32)
    requires small { length front.now ≤ 256 }
    requires nodes { (v : ℕ) → bit_of front.now v ≡ true → v < length marks.old }
    ensures { IsMarked depth (bit_of front.now) marks.old marks.new }
{
    for k in 0..front.len() {
        if front[k] != 0 {
            mark_word(marks, front, k, depth);
        }
    }
}

/// The depth of each node from `i`: the least number of edges of a walk, or none where there is no walk.
///
/// Cost: for each level one pass over words, and at most a row for each node of the front or for each that is left.
pub fn depths(alloc: Global, graph: &BitGraph, i: u32) -> Result<Vec<Option<u32>>, NoMemory>
    requires { i < graph.now.count }
    ensures { IfOk result (λ depths. depths.items ≡ depths_of (graph_of graph.now) i) }
{
    let n = graph.len();
    let width = (n as usize + 63) / 64;
    let mut known = vec![in alloc; 0u64; width]?;
    let mut front = vec![in alloc; 0u64; width]?;
    let mut left = vec![in alloc; 0u64; width]?;
    let mut next = vec![in alloc; 0u64; width]?;
    let mut rest = vec![in alloc; 0u64; width]?;
    let mut list = vec![in alloc; 0u32; width + 16]?;
    let mut marks = vec![in alloc; None; n as usize]?;
    complement(&mut known, n as usize);
    marks[i as usize] = Some(0);
    mark_levels(
        graph, i, &known, &mut front, &mut left, &mut next, &mut rest, &mut list, &mut marks,
    );
    Ok(marks)
}

/// Marks each node that is reached from `i` with its depth, level after level.
fn mark_levels(
    graph: &BitGraph,
    i: u32,
    known: &[u64],
    front: &mut [u64],
    left: &mut [u64],
    next: &mut [u64],
    rest: &mut [u64],
    list: &mut [u32],
    marks: &mut [Option<u32>],
)
    requires node { i < graph.now.count }
    requires known { length known.now ≡ width graph.now.count }
    requires all { (v : ℕ) → bit_of known.now v ≡ nat_lt v graph.now.count }
    requires front { length front.old ≡ width graph.now.count }
    requires left { length left.old ≡ width graph.now.count }
    requires next { length next.old ≡ width graph.now.count }
    requires rest { length rest.old ≡ width graph.now.count }
    requires list { length list.old ≡ width graph.now.count + 16 }
    requires marks { length marks.old ≡ graph.now.count }
    requires source { slice_index_or marks.old i None ≡ Some 0 }
    requires none { (v : ℕ) → v ≢ i → slice_index_or marks.old v None ≡ None }
    ensures { marks.new ≡ depths_of (graph_of graph.now) i }
{
    let _n = graph.len();
    let row = graph.row(i);
    front.copy_from_slice(row);
    assign_without(left, known, row);
    remove(left, i as usize);
    mark(marks, front, 1);
    let mut depth = 1u32;
    let mut todo = count(left);
    while todo > 0 {
        next.copy_from_slice(left);
        look(graph, front, next, rest, list, todo, count(front));
        let missing = count(next);
        if todo - missing == 0 {
            return;
        }
        depth += 1;
        assign_without(front, left, next);
        left.copy_from_slice(next);
        mark(marks, front, depth);
        todo = missing;
    }
}
