//! How many pieces share an end with each piece.

ghost use Rattle.std.specs.Prelude.{◌≡◌, ◌≤◌, ◌<◌, ◌*◌, ◌+◌, IfOk, ℕ, filter, length, map};
ghost use Rattle.std.specs.List.{enumerate_from};
ghost use Rattle.route_spec.specs.Routes.{ArePiecesOfPlan, neighbour_counts, neighbours_of};
ghost use Rattle.segment_core.specs.declared.limits.TheConstants.{MAX_STEPS};
ghost use Rattle.segment_core.specs.Steps.{AreInRange, piece_at, row_of};
ghost use Rattle.segment_core.specs.Nodes.{AreNodesOf, counts_apart, counts_at};

use crate::nodes::{Nodes, nodes_of};
use crate::piece::Piece;
use std::alloc::Global;
use text_spec::NoMemory;

/// Whether a step from the node `at` stands for a piece but `k`. A piece with both ends there is counted by its step
/// against the route alone.
fn counts_at(pieces: &[Piece], nodes: &Nodes, k: usize, at: u32, step: usize) -> bool
    requires in_range { AreInRange pieces.now }
    requires nodes { AreNodesOf pieces.now nodes.now.tails.items nodes.now.leaving.items }
    requires step { step < 2 * length pieces.now }
    ensures { result ≡ counts_at nodes.now.tails.items k at step }
{
    step / 2 != k && !(step % 2 == 1 && at == nodes.head(pieces, step))
}

/// The same for pieces that don't have an end at `from`.
fn counts_apart(pieces: &[Piece], nodes: &Nodes, k: usize, at: u32, from: u32, step: usize) -> bool
    requires in_range { AreInRange pieces.now }
    requires nodes { AreNodesOf pieces.now nodes.now.tails.items nodes.now.leaving.items }
    requires step { step < 2 * length pieces.now }
    ensures { result ≡ counts_apart nodes.now.tails.items k at from step }
{
    counts_at(pieces, nodes, k, at, step)
        && from != nodes.tails[step]
        && from != nodes.head(pieces, step)
}

/// How many pieces but `k` have the end of `k` at which the step `2 k` ends.
fn count_first(pieces: &[Piece], nodes: &Nodes, k: usize, from: u32) -> u32
    requires in_range { AreInRange pieces.now }
    requires nodes { AreNodesOf pieces.now nodes.now.tails.items nodes.now.leaving.items }
    requires piece { k < length pieces.now }
    ensures value { result ≡ length (filter (counts_at nodes.now.tails.items k from) (row_of pieces.now (2 * k))) }
    ensures at_most { result ≤ MAX_STEPS }
{
    let mut count = 0;
    for step in nodes.after(pieces, 2 * k) {
        if counts_at(pieces, nodes, k, from, *step as usize) {
            count += 1;
        }
    }
    count
}

/// How many pieces but `k` have the other end of `k`, and don't have the first.
fn count_second(pieces: &[Piece], nodes: &Nodes, k: usize, from: u32, to: u32) -> u32
    requires in_range { AreInRange pieces.now }
    requires nodes { AreNodesOf pieces.now nodes.now.tails.items nodes.now.leaving.items }
    requires piece { k < length pieces.now }
    ensures value { result ≡ length (filter (counts_apart nodes.now.tails.items k to from) (row_of pieces.now (2 * k + 1))) }
    ensures at_most { result ≤ MAX_STEPS }
{
    let mut count = 0;
    for step in nodes.after(pieces, 2 * k + 1) {
        if counts_apart(pieces, nodes, k, to, from, *step as usize) {
            count += 1;
        }
    }
    count
}

/// The number of other pieces that share an end with piece `k`: those at one end, and those at the other that aren't at
/// the first.
fn neighbours_at(pieces: &[Piece], nodes: &Nodes, k: usize) -> u32
    requires in_range { AreInRange pieces.now }
    requires nodes { AreNodesOf pieces.now nodes.now.tails.items nodes.now.leaving.items }
    requires piece { k < length pieces.now }
    ensures { result ≡ neighbours_of pieces.now (k, piece_at pieces.now k) }
{
    let (from, to) = (nodes.tails[2 * k + 1], nodes.tails[2 * k]);
    count_first(pieces, nodes, k, from) + count_second(pieces, nodes, k, from, to)
}

/// For each piece the number of other pieces with which it shares an end.
///
/// ```text
///        │          the lower piece of the upright route has three neighbours:
///   ─────●─────     the upper one, and both of the other route
///        │
/// ```
///
/// Cost: one sort of the ends of all pieces, and a look at each pair of pieces that share an end.
///
/// Source: connectivity of segments after Turner (2007).
pub fn neighbours(alloc: Global, pieces: &[Piece]) -> Result<Vec<u32>, NoMemory>
    requires { ArePiecesOfPlan pieces.now }
    ensures { IfOk result (λ counts. counts.items ≡ neighbour_counts pieces.now) }
{
    let nodes = nodes_of(alloc, pieces)?;
    let mut counts = Vec::new(alloc);
    for k in 0..pieces.len() {
        counts.push(neighbours_at(pieces, &nodes, k))?;
    }
    Ok(counts)
}
