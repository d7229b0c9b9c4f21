//! Whole numbers between which a line lies.

ghost use Rattle.std.specs.Prelude.{◌≡◌, ◌≤ℤ◌, ◌+ℤ◌, neg_ℤ, unsigned_abs, nat_le, ◌&&◌, map, IfOk};
ghost use Rattle.line_graph.specs.Extents as extents;
ghost use Rattle.line_graph.specs.Rows.{AreColumns};
ghost use Rattle.line_graph.specs.declared.limits.TheConstants.{MAX_RANKED};

use crate::limits::MAX_RANKED;
use axial_lines::AxialLine;
use exact_geom::{Frac, is_less};
use std::alloc::Global;
use text_spec::NoMemory;

/// The whole numbers between which a line lies, in both coordinates, each counted from the least one.
#[derive(Clone, Copy, Debug)]
pub(crate) struct Extent {
    pub(crate) left: u32,
    pub(crate) right: u32,
    pub(crate) below: u32,
    pub(crate) above: u32,
}

/// `z + MAX_RANKED`, which is not below 0.
fn shifted(z: i128) -> u32
    requires low { neg_ℤ MAX_RANKED ≤ℤ z }
    requires high { z ≤ℤ MAX_RANKED }
    ensures { result ≡ unsigned_abs (z +ℤ MAX_RANKED) }
{
    (z + MAX_RANKED).unsigned_abs() as u32
}

#[tactic(auto, unfolding(crate::specs::Extents::rank_of))]
fn rank(z: i128) -> u32
    ensures { result ≡ extents.rank_of z }
{
    if is_less(z, -MAX_RANKED) {
        0
    } else if is_less(MAX_RANKED, z) {
        (MAX_RANKED + MAX_RANKED).unsigned_abs() as u32
    } else {
        shifted(z)
    }
}

fn low(f: &Frac, g: &Frac) -> u32
    ensures { result ≡ extents.low_of f.now g.now }
{
    rank(f.floor()).min(rank(g.floor()))
}

fn high(f: &Frac, g: &Frac) -> u32
    ensures { result ≡ extents.high_of f.now g.now }
{
    rank(f.ceil()).max(rank(g.ceil()))
}

/// The extent of a line.
#[tactic(auto, unfolding(crate::specs::Extents::extent_of))]
fn extent_of(line: &AxialLine) -> Extent
    ensures { result ≡ extents.extent_of line.now }
{
    Extent {
        left: low(&line.from.x, &line.to.x),
        right: high(&line.from.x, &line.to.x),
        below: low(&line.from.y, &line.to.y),
        above: high(&line.from.y, &line.to.y),
    }
}

/// The extents of lines, in order.
pub(crate) fn extents_of(alloc: Global, lines: &[AxialLine]) -> Result<Vec<Extent>, NoMemory>
    ensures { IfOk result (λ list. list.items ≡ map extents.extent_of lines.now) }
{
    let mut list = Vec::new(alloc);
    for line in lines {
        list.push(extent_of(line))?;
    }
    Ok(list)
}

/// Extents side by side: a list for each side, in order, so that many are compared at once.
#[derive(Drop)]
pub(crate) struct Columns {
    pub(crate) left: Vec<u32>,
    pub(crate) right: Vec<u32>,
    pub(crate) below: Vec<u32>,
    pub(crate) above: Vec<u32>,
}

/// The sides of extents, in order.
pub(crate) fn columns_of(alloc: Global, extents: &[Extent]) -> Result<Columns, NoMemory>
    ensures { IfOk result (λ c. AreColumns c.left.items c.right.items c.below.items c.above.items extents.now) }
{
    let mut left = Vec::new(alloc);
    let mut right = Vec::new(alloc);
    let mut below = Vec::new(alloc);
    let mut above = Vec::new(alloc);
    for e in extents {
        left.push(e.left)?;
        right.push(e.right)?;
        below.push(e.below)?;
        above.push(e.above)?;
    }
    Ok(Columns {
        left,
        right,
        below,
        above,
    })
}

fn at_most(a: u32, b: u32) -> bool
    ensures { result ≡ nat_le a b }
{
    a <= b
}

/// Both, without a branch.
fn and(a: bool, b: bool) -> bool
    ensures { result ≡ a && b }
{
    a & b
}

/// Whether neither extent lies wholly before the other. All four tests are made, so that nothing branches.
#[tactic(auto, unfolding(crate::specs::Extents::are_near))]
pub(crate) fn are_near(e: Extent, f: Extent) -> bool
    ensures { result ≡ extents.are_near e f }
{
    let beside = and(at_most(e.left, f.right), at_most(f.left, e.right));
    let one_over = and(beside, at_most(e.below, f.above));
    and(one_over, at_most(f.below, e.above))
}
