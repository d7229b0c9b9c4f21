//! What is measured at the nodes of a graph.

ghost use Rattle.std.specs.Prelude.{◌≡◌, ℕ, ◌+◌, ◌-◌, ◌*◌, ◌<◌, ◌≤◌, pos, ◌-ℤ◌, ◌*ℤ◌, length, All, IfOk, map};
ghost use Rattle.plane_spec.specs.Fractions.{reduced};
ghost use Rattle.plane_spec.specs.Vectors.{IsWithin};
ghost use Rattle.graph_spec.specs.Graphs.{mean_depth, relative_asymmetry};
ghost use Rattle.step_depth.specs.Measured.{IsMeasured, measured};

use crate::reach::Reach;
use exact_geom::Frac;
use std::alloc::Global;
use std::marker::Model;
use text_spec::NoMemory;

/// So many measures are remembered for their fractions: in a dense graph most nodes have one of a few totals, and a
/// fraction in lowest terms takes as long as a good part of the search from its node.
const REMEMBERED: u64 = 256;

/// What is measured at a node.
#[derive(Clone, Copy, Debug)]
pub struct Measure {
    /// How many neighbours it has.
    pub connectivity: u32,
    /// How many nodes it reaches, itself included.
    pub reached: u32,
    /// The sum of their depths.
    pub total: u64,
    /// The mean depth of the other nodes reached, where there are any.
    pub mean: Option<Frac>,
    /// The relative asymmetry, where at least three nodes are reached.
    pub ra: Option<Frac>,
}

impl Model for Measure {
    ghost use Rattle.graph_spec.specs.Graphs.{Measures};

    ghost Value = { Measures };

    ghost view = { λ m. record { connectivity = m.connectivity; reached = m.reached; total = m.total; mean = m.mean; asymmetry = m.ra } };

    ghost inverse = { λ v. record { connectivity = v.connectivity; reached = v.reached; total = v.total; mean = v.mean; ra = v.asymmetry } };
}

/// The mean of depths whose sum is `total`, over all but one of the `reached` nodes: none where no other is reached.
///
/// Cost: one fraction in lowest terms.
pub fn mean_of(reached: u64, total: u64) -> Option<Frac>
    ensures { result ≡ mean_depth reached total }
{
    if reached < 2 {
        return None;
    }
    Some(Frac::new(i128::from(total), i128::from(reached - 1)))
}

/// The difference of a total and a number of nodes.
fn difference(a: u64, b: u32) -> i128
    ensures value { result ≡ pos a -ℤ pos b }
    ensures within { IsWithin (pos 100000000000000000000) result }
{
    i128::from(a) - i128::from(b)
}

/// Twice an integer.
fn twice(z: i128) -> i128
    requires { IsWithin (pos 100000000000000000000) z }
    ensures value { result ≡ pos 2 *ℤ z }
    ensures within { IsWithin (pos 1000000000000000000000) result }
{
    2 * z
}

/// How many ordered pairs of the other nodes there are.
fn pairs_of(reached: u32) -> u64
    requires { 3 ≤ reached }
    ensures value { result ≡ (reached - 1) * (reached - 2) }
    ensures some { 0 < result }
{
    u64::from(reached - 1) * u64::from(reached - 2)
}

/// A fraction over a whole number of at least 1, in lowest terms.
fn over(num: i128, den: u64) -> Frac
    requires num { IsWithin (pos 1000000000000000000000) num }
    requires den { 0 < den }
    ensures { result ≡ reduced (record { num = num; den = pos den }) }
{
    Frac::new(num, i128::from(den))
}

/// The relative asymmetry, 2 (mean - 1) / (reached - 2).
fn asymmetry_of(reached: u32, total: u64) -> Option<Frac>
    ensures { result ≡ relative_asymmetry reached total }
{
    if reached < 3 {
        return None;
    }
    Some(over(twice(difference(total, reached - 1)), pairs_of(reached)))
}

/// What is measured at a node that reaches so much.
fn measure_of(reach: Reach) -> Measure
    ensures { result ≡ measured reach }
{
    Measure {
        connectivity: reach.connectivity,
        reached: reach.reached,
        total: reach.total,
        mean: mean_of(u64::from(reach.reached), reach.total),
        ra: asymmetry_of(reach.reached, reach.total),
    }
}

/// A measure of no node, of which it is true.
fn of_no_node() -> Measure
    ensures { IsMeasured result }
{
    measure_of(Reach {
        connectivity: 0,
        reached: 0,
        total: 0,
    })
}

/// What is measured at a node that reaches so much. The fractions of the measure that was remembered last for such a total
/// are taken over, if that was of as many nodes.
fn measure_by(remembered: &mut [Measure], reach: Reach) -> Measure
    ensures value { All IsMeasured remembered.old → result ≡ measured reach }
    ensures remembered { All IsMeasured remembered.old → All IsMeasured remembered.new }
{
    let at = (reach.total % REMEMBERED) as usize;
    if remembered.len() <= at {
        return measure_of(reach);
    }
    let near = remembered[at];
    if near.reached == reach.reached && near.total == reach.total {
        return Measure {
            connectivity: reach.connectivity,
            ..near
        };
    }
    let measure = measure_of(reach);
    remembered[at] = measure;
    measure
}

/// What is measured at nodes that reach so much, one after another.
pub(crate) fn measure_each(alloc: Global, reaches: &[Reach]) -> Result<Vec<Measure>, NoMemory>
    ensures { IfOk result (λ ms. ms.items ≡ map measured reaches.now) }
{
    let mut remembered = vec![in alloc; of_no_node(); REMEMBERED as usize]?;
    let mut measures = Vec::new(alloc);
    for reach in reaches {
        let measure = measure_by(&mut remembered, *reach);
        measures.push(measure)?;
    }
    Ok(measures)
}

fn is_shared<T: Send + Sync>() {}

/// Measures may be moved to another thread and shared between threads.
pub fn types_are_shared() {
    is_shared::<Measure>();
}
