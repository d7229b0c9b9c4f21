//! The ends of pieces, numbered by their points.

ghost use Rattle.std.specs.Prelude.{◌≡◌, ◌≤◌, ◌<◌, ◌*◌, ◌++◌, ◌∷◌, [], ◌&&◌, IfOk, OnOk, ℕ, get_or, length, replicate};
ghost use Rattle.std.specs.Ordering.{int_eq};
ghost use Rattle.exact_geom.specs.Parts.{HasRPointParts};
ghost use Rattle.segment_core.specs.Steps.{AreInRange};
ghost use Rattle.segment_core.specs.Nodes.{AreTailsOf};
ghost use Rattle.segment_core.specs.Ends.{AreNumbered, AreSortedEnds, end_of, ends_of, is_one_point};

use crate::narrowing::narrow_part;
use crate::piece::Piece;
use exact_geom::RPoint;
use std::alloc::Global;
use text_spec::NoMemory;

/// The end of a piece from which a step leads, by the parts of its coordinates, with the step's number. In lowest terms
/// one point has one form, so ends are put in order without comparing fractions.
#[derive(Clone, Copy, Debug, PartialEq, Eq, PartialOrd, Ord)]
struct End {
    x_num: i64,
    x_den: i64,
    y_num: i64,
    y_den: i64,
    step: u32,
}

fn end_of(point: &RPoint, step: u32) -> End
    requires { HasRPointParts point.now }
    ensures { result ≡ end_of point.now step }
{
    End {
        x_num: narrow_part(point.x.num()),
        x_den: narrow_part(point.x.den()),
        y_num: narrow_part(point.y.num()),
        y_den: narrow_part(point.y.den()),
        step,
    }
}

fn is_equal(a: i64, b: i64) -> bool
    ensures { result ≡ int_eq a b }
{
    a == b
}

fn are_same(a: i64, b: i64, c: i64, d: i64) -> bool
    ensures { result ≡ (int_eq a c && int_eq b d) }
{
    is_equal(a, c) && is_equal(b, d)
}

/// Whether two ends are at one point.
fn is_one_point(a: &End, b: &End) -> bool
    ensures { result ≡ is_one_point a.now b.now }
{
    are_same(a.x_num, a.x_den, b.x_num, b.x_den) && are_same(a.y_num, a.y_den, b.y_num, b.y_den)
}

fn append(ends: &mut Vec<End>, end: End) -> Result<(), NoMemory>
    ensures { OnOk result (ends.new.items ≡ ends.old.items ++ end ∷ []) }
{
    ends.push(end)?;
    Ok(())
}

/// The ends of pieces, in the order of the steps that lead from them.
fn ends(alloc: Global, pieces: &[Piece]) -> Result<Vec<End>, NoMemory>
    requires { AreInRange pieces.now }
    ensures { IfOk result (λ ends. ends.items ≡ ends_of pieces.now) }
{
    let mut ends = Vec::new(alloc);
    for (k, piece) in pieces.iter().enumerate() {
        let step = (2 * k) as u32;
        append(&mut ends, end_of(&piece.to, step))?;
        append(&mut ends, end_of(&piece.from, step + 1))?;
    }
    Ok(ends)
}

/// Gives each step the number of its node: one more wherever the next end in order is another point. The number of the
/// last node is answered.
fn number_nodes(ends: &[End], tails: &mut [u32]) -> u32
    requires sorted { AreSortedEnds ends.now (length tails.old) }
    ensures numbered { AreNumbered ends.now tails.new result (length ends.now) }
{
    let mut node = 0;
    for at in 0..ends.len() {
        if 0 < at && !is_one_point(&ends[at - 1], &ends[at]) {
            node += 1;
        }
        let step = ends[at].step as usize;
        tails[step] = node;
    }
    node
}

fn filled(alloc: Global, count: usize) -> Result<Vec<u32>, NoMemory>
    ensures { IfOk result (λ tails. tails.items ≡ replicate count 0) }
{
    Ok(vec![in alloc; 0; count]?)
}

/// For each step the number of the node from which it leads, and below which number all are.
pub(crate) fn tails(alloc: Global, pieces: &[Piece]) -> Result<(Vec<u32>, u32), NoMemory>
    requires { AreInRange pieces.now }
    ensures tails { IfOk result (λ r. AreTailsOf pieces.now r.0.items) }
    ensures below { IfOk result (λ r. (s : ℕ) → s < 2 * length pieces.now → get_or r.0.items s 0 < r.1) }
{
    let mut ends = ends(alloc, pieces)?;
    ends.sort_unstable();
    let mut tails = filled(alloc, 2 * pieces.len())?;
    let last = number_nodes(&ends, &mut tails);
    Ok((tails, last + 1))
}
