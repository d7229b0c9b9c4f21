//! The nodes where pieces end, and the steps that lead from each.

ghost use Rattle.std.specs.Prelude.{◌≡◌, ◌≤◌, ◌<◌, ◌*◌, ◌++◌, ◌∷◌, [], IfOk, OnOk, ℕ, get_or, length, replicate};
ghost use Rattle.segment_core.specs.declared.limits.TheConstants.{MAX_STEPS};
ghost use Rattle.segment_core.specs.Steps.{AreInRange, reversed_step, row_of};
ghost use Rattle.segment_core.specs.Nodes.{AreNodesOf, leaving_of};

use crate::ends::tails;
use crate::piece::Piece;
use smallvec::SmallVec;
use std::alloc::Global;
use std::marker::Model;
use text_spec::NoMemory;

/// Where the steps of pieces begin: for each step the number of the node from which it leads, and for each node the
/// steps that lead from it. The steps of piece `k` are `2 k`, against its route, and `2 k + 1`, with it.
#[derive(Drop)]
pub(crate) struct Nodes {
    pub tails: Vec<u32>,
    pub leaving: Vec<Star>,
}

/// The steps that lead from a node.
#[derive(Drop)]
pub(crate) struct Star {
    steps: SmallVec<u32, 4>,
}

impl Model for Star {
    ghost use Rattle.std.specs.Prelude.{List, ℕ};

    ghost Value = { List ℕ };

    ghost view = { λ a. a.steps.items };
}

impl Star {
    fn new(alloc: Global) -> Star
        ensures { result ≡ [] }
    {
        Star {
            steps: SmallVec::new(alloc),
        }
    }

    fn push(&mut self, step: u32) -> Result<(), NoMemory>
        ensures { OnOk result (self.new ≡ self.old ++ step ∷ []) }
    {
        self.steps.push(step)?;
        Ok(())
    }

    fn steps(&self) -> &[u32]
        ensures { result.now ≡ self.now }
    {
        self.steps.as_slice()
    }
}

/// The step on the same piece in the other heading.
fn reversed_step(step: usize) -> usize
    requires { step < MAX_STEPS }
    ensures { result ≡ reversed_step step }
{
    if step % 2 == 1 { step - 1 } else { step + 1 }
}

impl Nodes {
    /// The steps that begin where a step ends, in order.
    pub(crate) fn after(&self, pieces: &[Piece], step: usize) -> &[u32]
        requires in_range { AreInRange pieces.now }
        requires nodes { AreNodesOf pieces.now self.now.tails.items self.now.leaving.items }
        requires step { step < 2 * length pieces.now }
        ensures { result.now ≡ row_of pieces.now step }
    {
        let head = self.head(pieces, step) as usize;
        self.leaving[head].steps()
    }

    /// The node at which a step ends.
    pub(crate) fn head(&self, pieces: &[Piece], step: usize) -> u32
        requires in_range { AreInRange pieces.now }
        requires nodes { AreNodesOf pieces.now self.now.tails.items self.now.leaving.items }
        requires step { step < 2 * length pieces.now }
        ensures { result ≡ get_or self.now.tails.items (reversed_step step) 0 }
    {
        let _ = pieces;
        self.tails[reversed_step(step)]
    }
}

fn empty_stars(alloc: Global, count: u32) -> Result<Vec<Star>, NoMemory>
    ensures { IfOk result (λ stars. stars.items ≡ replicate count []) }
{
    let mut stars = Vec::new(alloc);
    for _ in 0..count {
        stars.push(Star::new(alloc))?;
    }
    Ok(stars)
}

fn leaving(alloc: Global, tails: &[u32], count: u32) -> Result<Vec<Star>, NoMemory>
    requires at_most { length tails.now ≤ MAX_STEPS }
    requires below { (s : ℕ) → s < length tails.now → get_or tails.now s 0 < count }
    ensures one_each { IfOk result (λ leaving. length leaving.items ≡ count) }
    ensures members { IfOk result (λ leaving. (node : ℕ) → node < count → get_or leaving.items node [] ≡ leaving_of tails.now node) }
{
    let mut leaving = empty_stars(alloc, count)?;
    for (step, node) in tails.iter().enumerate() {
        leaving[*node as usize].push(step as u32)?;
    }
    Ok(leaving)
}

/// The nodes of pieces.
pub(crate) fn nodes_of(alloc: Global, pieces: &[Piece]) -> Result<Nodes, NoMemory>
    requires { AreInRange pieces.now }
    ensures { IfOk result (λ nodes. AreNodesOf pieces.now nodes.tails.items nodes.leaving.items) }
{
    let (tails, count) = tails(alloc, pieces)?;
    let leaving = leaving(alloc, &tails, count)?;
    Ok(Nodes { tails, leaving })
}
