//! Breadth first, level by level, on bits.

ghost use Rattle.std.specs.Prelude.{◌≡◌, ◌≢◌, ℕ, ◌+◌, ◌*◌, ◌/◌, ◌<◌, ◌≤◌, ◌&&◌, ◌||◌, ◌==◌, true, false, Bool, not, length, slice_index, count_by, is_some};
ghost use Rattle.graph_spec.specs.Graphs.{nodes, depths_of, total_depth};
ghost use Rattle.vga_grid.specs.Rows.{width, bit_of, is_joined, graph_of};
ghost use Rattle.vga_grid.specs.Sets.{is_set, size};
ghost use Rattle.step_depth.specs.Levels.{IsPushed, IsWordPushed, IsPart, IsLooked, IsClosed, Level};

use crate::reach::Reach;
use crate::sets::{
    assign_without, cleared, complement, count, gather, has, lowest, meet, next_word, remove,
    take_four_out, take_out,
};
use vga_grid::BitGraph;

/// Takes the neighbours of eight listed nodes out of what is missing.
fn push_eight(graph: &BitGraph, list: &[u32], missing: &mut [u64], at: usize)
    requires within { at + 8 ≤ length list.now }
    requires small { length list.now ≤ 1024 }
    requires nodes { (t : ℕ) → t < length list.now → slice_index list.now t < graph.now.count }
    requires sized { length missing.old ≡ width graph.now.count }
    ensures { (before : ℕ → Bool) → IsPushed (is_joined graph.now) list.now (length list.now) at before (bit_of missing.old)
        → IsPushed (is_joined graph.now) list.now (length list.now) (at + 8) before (bit_of missing.new) }
{
    push_four(graph, list, missing, at);
    push_four(graph, list, missing, at + 4);
}

/// Takes the neighbours of four listed nodes out of what is missing.
fn push_four(graph: &BitGraph, list: &[u32], missing: &mut [u64], at: usize)
    requires within { at + 4 ≤ length list.now }
    requires small { length list.now ≤ 1024 }
    requires nodes { (t : ℕ) → t < length list.now → slice_index list.now t < graph.now.count }
    requires sized { length missing.old ≡ width graph.now.count }
    ensures { (before : ℕ → Bool) → IsPushed (is_joined graph.now) list.now (length list.now) at before (bit_of missing.old)
        → IsPushed (is_joined graph.now) list.now (length list.now) (at + 4) before (bit_of missing.new) }
{
    let a = graph.row(list[at]);
    let b = graph.row(list[at + 1]);
    let c = graph.row(list[at + 2]);
    let d = graph.row(list[at + 3]);
    take_four_out(missing, a, b, c, d);
}

/// Takes the neighbours of listed nodes out of what is missing, and answers of how many: fewer than are listed where that
/// is little use.
fn push(graph: &BitGraph, list: &[u32], missing: &mut [u64], before: u32, rows_left: u32) -> usize
    requires small { length list.now ≤ 1024 }
    requires nodes { (t : ℕ) → t < length list.now → slice_index list.now t < graph.now.count }
    requires sized { length missing.old ≡ width graph.now.count }
    ensures within { result ≤ length list.now }
    ensures pushed { IsPushed (is_joined graph.now) list.now (length list.now) result (bit_of missing.old) (bit_of missing.new) }
{
    let _n = graph.len();
    let mut at = 0;
    let mut last = before;
    let mut rows = rows_left;
    while at + 8 <= list.len() {
        push_eight(graph, list, missing, at);
        at += 8;
        rows = rows.saturating_sub(8);
        let now = count(missing);
        if now == 0 || (last.saturating_sub(now) < 16 && now < rows) {
            return at;
        }
        last = now;
    }
    while at < list.len() {
        take_out(missing, graph.row(list[at]));
        at += 1;
    }
    at
}

/// The nodes of word `k` that have no neighbour in the front.
fn pull_word(graph: &BitGraph, front: &[u64], k: usize, word: u64) -> u64
    requires front { length front.now ≡ width graph.now.count }
    requires within { k < width graph.now.count }
    requires nodes { (b : ℕ) → b < 64 → is_set word b ≡ true → 64 * k + b < graph.now.count }
    ensures fewer { (b : ℕ) → b < 64 → is_set result b ≡ true → is_set word b ≡ true }
    ensures found { (b : ℕ) → b < 64 → is_set word b ≡ true → is_set result b ≡ false → (u : ℕ) × (bit_of front.now u ≡ true) × (is_joined graph.now (64 * k + b) u ≡ true) }
    ensures none { (u b : ℕ) → b < 64 → bit_of front.now u ≡ true → is_joined graph.now (64 * k + b) u ≡ true → is_set result b ≡ false }
{
    let _n = graph.len();
    let mut kept = word;
    let mut rest = word;
    while rest != 0 {
        let b = lowest(rest);
        rest = cleared(rest, b);
        if meet(graph.row(64 * k as u32 + b), front, k) {
            kept = cleared(kept, b);
        }
    }
    kept
}

/// Takes out of what is missing each node with a neighbour in the front, node by node.
fn pull(graph: &BitGraph, front: &[u64], missing: &mut [u64])
    requires front { length front.now ≡ width graph.now.count }
    requires sized { length missing.old ≡ width graph.now.count }
    requires nodes { (v : ℕ) → bit_of missing.old v ≡ true → v < graph.now.count }
    ensures { IsLooked (is_joined graph.now) (bit_of front.now) (bit_of missing.old) (bit_of missing.new) }
{
    let _n = graph.len();
    for k in 0..missing.len() {
        let word = missing[k];
        if word != 0 {
            missing[k] = pull_word(graph, front, k, word);
        }
    }
}

/// Takes the neighbours of the nodes of word `k` out of what is missing.
fn push_word(graph: &BitGraph, missing: &mut [u64], k: usize, word: u64)
    requires within { k < width graph.now.count }
    requires nodes { (b : ℕ) → b < 64 → is_set word b ≡ true → 64 * k + b < graph.now.count }
    requires sized { length missing.old ≡ width graph.now.count }
    ensures { IsWordPushed (is_joined graph.now) k word (bit_of missing.old) (bit_of missing.new) }
{
    let _n = graph.len();
    let mut rest = word;
    while rest != 0 {
        let b = lowest(rest);
        rest = cleared(rest, b);
        take_out(missing, graph.row(64 * k as u32 + b));
    }
}

/// Takes the neighbours of the front out of what is missing, row by row: where the front is small, this is the fastest.
fn push_each(graph: &BitGraph, front: &[u64], missing: &mut [u64])
    requires front { length front.now ≡ width graph.now.count }
    requires front_nodes { (u : ℕ) → bit_of front.now u ≡ true → u < graph.now.count }
    requires sized { length missing.old ≡ width graph.now.count }
    ensures { IsLooked (is_joined graph.now) (bit_of front.now) (bit_of missing.old) (bit_of missing.new) }
{
    let _n = graph.len();
    let mut k = next_word(front, 0);
    while k < front.len() {
        push_word(graph, missing, k, front[k]);
        k = next_word(front, k + 1);
    }
}

/// Takes neighbours of the front out of what is missing, by rows of the front from all over it, as long as they find much.
/// Answers whether all are taken out.
fn push_rounds(
    graph: &BitGraph,
    front: &[u64],
    missing: &mut [u64],
    rest: &mut [u64],
    list: &mut [u32],
    todo: u32,
    size: u32,
) -> bool
    requires front { length front.now ≡ width graph.now.count }
    requires front_nodes { (u : ℕ) → bit_of front.now u ≡ true → u < graph.now.count }
    requires sized { length missing.old ≡ width graph.now.count }
    requires rest { length rest.old ≡ width graph.now.count }
    requires list { length list.old ≡ width graph.now.count + 16 }
    ensures part { IsPart (is_joined graph.now) (bit_of front.now) (bit_of missing.old) (bit_of missing.new) }
    ensures whole { result ≡ true → IsLooked (is_joined graph.now) (bit_of front.now) (bit_of missing.old) (bit_of missing.new) }
{
    let _n = graph.len();
    rest.copy_from_slice(front);
    let mut before = todo;
    let mut rows = size;
    for _ in 0..64 {
        let n = gather(rest, list);
        if n == 0 {
            return true;
        }
        let done = push(graph, &list[..n], missing, before, rows);
        let now = count(missing);
        if now == 0 {
            return true;
        }
        rows = rows.saturating_sub(n as u32);
        if done < n || (before.saturating_sub(now) < 2 * n as u32 && now < rows) {
            return false;
        }
        before = now;
    }
    false
}

/// Takes out of what is missing each node with a neighbour in the front: by rows of the front as long as they find much,
/// and then by the rows of what is still missing. How many are missing (`todo`) and in the front (`size`) decides no more
/// than which way is taken.
pub(crate) fn look(
    graph: &BitGraph,
    front: &[u64],
    missing: &mut [u64],
    rest: &mut [u64],
    list: &mut [u32],
    todo: u32,
    size: u32,
)
    requires front { length front.now ≡ width graph.now.count }
    requires front_nodes { (u : ℕ) → bit_of front.now u ≡ true → u < graph.now.count }
    requires sized { length missing.old ≡ width graph.now.count }
    requires nodes { (v : ℕ) → bit_of missing.old v ≡ true → v < graph.now.count }
    requires rest { length rest.old ≡ width graph.now.count }
    requires list { length list.old ≡ width graph.now.count + 16 }
    ensures { IsLooked (is_joined graph.now) (bit_of front.now) (bit_of missing.old) (bit_of missing.new) }
{
    if size <= 8 {
        push_each(graph, front, missing);
    } else if !push_rounds(graph, front, missing, rest, list, todo, size) {
        pull(graph, front, missing);
    }
}

/// Makes `known` a set that `i` is in: it stays, or all others take its place, and no edge leaves either.
fn include(graph: &BitGraph, i: u32, known: &mut [u64])
    requires node { i < graph.now.count }
    requires known { length known.old ≡ width graph.now.count }
    requires closed { IsClosed (graph_of graph.now) (bit_of known.old) }
    ensures closed { IsClosed (graph_of graph.now) (bit_of known.new) }
    ensures here { bit_of known.new i ≡ true }
{
    let n = graph.len();
    if !has(known, i as usize) {
        complement(known, n as usize);
    }
}

/// How many nodes are reached, and the sum of their depths.
#[derive(Clone, Copy)]
struct Found {
    reached: u32,
    total: u64,
}

/// What is reached from `i`, level after level from depth 1 on. What is still left at the end can't be reached.
fn levels(
    graph: &BitGraph,
    i: u32,
    degree: u32,
    known: &[u64],
    front: &mut [u64],
    left: &mut [u64],
    next: &mut [u64],
    rest: &mut [u64],
    list: &mut [u32],
) -> Found
    requires node { i < graph.now.count }
    requires known { length known.now ≡ width graph.now.count }
    requires closed { IsClosed (graph_of graph.now) (bit_of known.now) }
    requires here { bit_of known.now i ≡ true }
    requires front { length front.old ≡ width graph.now.count }
    requires left { length left.old ≡ width graph.now.count }
    requires next { length next.old ≡ width graph.now.count }
    requires rest { length rest.old ≡ width graph.now.count }
    requires list { length list.old ≡ width graph.now.count + 16 }
    requires level { Level (graph_of graph.now) i (bit_of known.now) 1 (bit_of front.old) (bit_of left.old) }
    requires degree { degree ≡ size front.old }
    requires some { 0 < degree }
    ensures reached { result.reached ≡ count_by is_some (depths_of (graph_of graph.now) i) }
    ensures total { result.total ≡ total_depth (depths_of (graph_of graph.now) i) }
    ensures closed { (now : ℕ → Bool) → ((v : ℕ) → now v ≡ (bit_of known.now v && not (bit_of left.new v))) → IsClosed (graph_of graph.now) now }
{
    let _n = graph.len();
    let mut depth = 1u32;
    let mut reached = 1 + degree;
    let mut total = u64::from(degree);
    let mut todo = count(left);
    let mut size = degree;
    while todo > 0 {
        next.copy_from_slice(left);
        look(graph, front, next, rest, list, todo, size);
        let missing = count(next);
        let found = todo - missing;
        if found == 0 {
            return Found { reached, total };
        }
        depth += 1;
        reached += found;
        total += u64::from(depth) * u64::from(found);
        assign_without(front, left, next);
        left.copy_from_slice(next);
        todo = missing;
        size = found;
    }
    Found { reached, total }
}

/// What node `i` reaches. `known` is a set of nodes that no edge leaves, and so it stays; the other slices are room to work in.
pub(crate) fn spread(
    graph: &BitGraph,
    i: u32,
    known: &mut [u64],
    front: &mut [u64],
    left: &mut [u64],
    next: &mut [u64],
    rest: &mut [u64],
    list: &mut [u32],
) -> Reach
    requires node { i < graph.now.count }
    requires known { length known.old ≡ width graph.now.count }
    requires closed { IsClosed (graph_of graph.now) (bit_of known.old) }
    requires front { length front.old ≡ width graph.now.count }
    requires left { length left.old ≡ width graph.now.count }
    requires next { length next.old ≡ width graph.now.count }
    requires rest { length rest.old ≡ width graph.now.count }
    requires list { length list.old ≡ width graph.now.count + 16 }
    ensures closed { IsClosed (graph_of graph.now) (bit_of known.new) }
    ensures connectivity { result.connectivity ≡ count_by (is_joined graph.now i) (nodes (graph_of graph.now)) }
    ensures reached { result.reached ≡ count_by is_some (depths_of (graph_of graph.now) i) }
    ensures total { result.total ≡ total_depth (depths_of (graph_of graph.now) i) }
{
    let _n = graph.len();
    let row = graph.row(i);
    let degree = count(row);
    if degree == 0 {
        return Reach {
            connectivity: 0,
            reached: 1,
            total: 0,
        };
    }
    include(graph, i, known);
    front.copy_from_slice(row);
    assign_without(left, known, row);
    remove(left, i as usize);
    let found = levels(graph, i, degree, known, front, left, next, rest, list);
    take_out(known, left);
    Reach {
        connectivity: degree,
        reached: found.reached,
        total: found.total,
    }
}
