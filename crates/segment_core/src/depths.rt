//! The least turns from one piece to all others.

ghost use Rattle.std.specs.Prelude.{◌≡◌, ◌≢◌, ℕ, IfOk, OnOk, ◌≤◌, ◌<◌, ◌*◌, ◌+◌, ◌/◌, ◌%◌, length, true, map, filter, replicate};
ghost use Rattle.std.specs.List.{range_with_len};
ghost use Rattle.plane_spec.specs.Vectors.{IsDirection};
ghost use Rattle.route_spec.specs.Routes.{ArePiecesOfPlan, can_follow, turn_between, turn_depths_of};
ghost use Rattle.segment_core.specs.Steps.{AreLeast, AreInRange, Eases, IsEased, cost_at, far_of, heading_at, leads_to, lesser_below, step_at};
ghost use Rattle.segment_core.specs.Nodes.{AreNodesOf};

use crate::nodes::{Nodes, nodes_of};
use crate::piece::Piece;
use crate::queue::{BUCKETS, Queue, bucket_of};
use crate::turning::turn;
use exact_geom::Point;
use std::alloc::Global;
use text_spec::NoMemory;

fn reversed_direction(d: Point) -> Point
    requires { IsDirection d }
    ensures value { result ≡ Rattle.plane_spec.specs.Vectors.reversed_direction d }
    ensures direction { IsDirection result }
{
    Point { x: -d.x, y: -d.y }
}

/// The direction in which a step leads.
fn heading_at(pieces: &[Piece], step: usize) -> Point
    requires in_range { AreInRange pieces.now }
    requires step { step < 2 * length pieces.now }
    ensures value { result ≡ heading_at pieces.now step }
    ensures direction { IsDirection result }
{
    let piece = pieces[step / 2];
    if step % 2 == 1 {
        piece.direction
    } else {
        reversed_direction(piece.direction)
    }
}

/// The turn from one step to another.
fn turn_to(pieces: &[Piece], step: usize, other: usize) -> u32
    requires in_range { AreInRange pieces.now }
    requires step { step < 2 * length pieces.now }
    requires other { other < 2 * length pieces.now }
    ensures value { result ≡ turn_between (step_at pieces.now step) (step_at pieces.now other) }
    ensures at_most { result ≤ 16 }
{
    u32::from(turn(heading_at(pieces, step), heading_at(pieces, other)))
}

/// Lowers the cost of a step that may follow another, if it costs less by way of it; then it waits.
fn ease(
    pieces: &[Piece],
    step: usize,
    other: usize,
    costs: &mut [u32],
    queue: &mut Queue,
) -> Result<(), NoMemory>
    requires in_range { AreInRange pieces.now }
    requires step { step < 2 * length pieces.now }
    requires other { other < 2 * length pieces.now }
    requires one_each { length costs.old ≡ 2 * length pieces.now }
    requires near { cost_at costs.old step < far_of pieces.now }
    requires follows { can_follow (step_at pieces.now step) (step_at pieces.now other) ≡ true }
    ensures eases { OnOk result (Eases pieces.now step costs.old costs.new queue.old queue.new) }
    ensures eased { OnOk result (cost_at costs.new other ≤ cost_at costs.new step + turn_between (step_at pieces.now step) (step_at pieces.now other)) }
{
    let raised = costs[step] + turn_to(pieces, step, other);
    if raised < costs[other] {
        costs[other] = raised;
        queue.push(bucket_of(raised), other as u32)?;
    }
    Ok(())
}

/// Lowers the costs of the steps that may follow one.
fn relax(
    pieces: &[Piece],
    nodes: &Nodes,
    step: usize,
    costs: &mut [u32],
    queue: &mut Queue,
) -> Result<(), NoMemory>
    requires in_range { AreInRange pieces.now }
    requires nodes { AreNodesOf pieces.now nodes.now.tails.items nodes.now.leaving.items }
    requires step { step < 2 * length pieces.now }
    requires one_each { length costs.old ≡ 2 * length pieces.now }
    requires near { cost_at costs.old step < far_of pieces.now }
    ensures eases { OnOk result (Eases pieces.now step costs.old costs.new queue.old queue.new) }
    ensures eased { OnOk result (IsEased pieces.now costs.new step) }
{
    for next in nodes.after(pieces, step) {
        let other = *next as usize;
        if other / 2 != step / 2 {
            ease(pieces, step, other, costs, queue)?;
        }
    }
    Ok(())
}

/// The same cost for each step.
fn filled(alloc: Global, cost: u32, count: usize) -> Result<Vec<u32>, NoMemory>
    ensures { IfOk result (λ costs. costs.items ≡ replicate count cost) }
{
    Ok(vec![in alloc; cost; count]?)
}

/// The least costs of the walks to all steps.
fn costs(alloc: Global, pieces: &[Piece], source: usize, far: u32) -> Result<Vec<u32>, NoMemory>
    requires in_range { AreInRange pieces.now }
    requires source { source < length pieces.now }
    requires far { far ≡ far_of pieces.now }
    ensures { IfOk result (λ costs. AreLeast pieces.now source costs.items) }
{
    let nodes = nodes_of(alloc, pieces)?;
    let mut costs = filled(alloc, far, 2 * pieces.len())?;
    let mut queue = Queue::new(alloc)?;
    costs[2 * source] = 0;
    queue.push(0, 2 * source as u32)?;
    costs[2 * source + 1] = 0;
    queue.push(0, 2 * source as u32 + 1)?;
    let mut bucket = 0;
    let mut idle = 0;
    'search: while idle < BUCKETS {
        match queue.pop(bucket) {
            Some(step) => {
                idle = 0;
                let step = step as usize;
                // a step that waits in the bucket of another cost has been reached at a smaller one
                if bucket_of(costs[step]) == bucket && costs[step] < far {
                    relax(pieces, &nodes, step, &mut costs, &mut queue)?;
                }
            }
            None => {
                idle += 1;
                bucket = if bucket == 16 { 0 } else { bucket + 1 };
            }
        }
    }
    Ok(costs)
}

fn lesser_below(forward: u32, back: u32, far: u32) -> Option<u32>
    ensures { result ≡ lesser_below far forward back }
{
    let least = if back < forward { back } else { forward };
    if least < far { Some(least) } else { None }
}

/// The turn depth of each piece from the source, in sixteenths of a half turn: the least sum of turns of a walk to it,
/// or `None` exactly where no walk leads to it. A walk begins on the source in either heading, and goes from the end of
/// a piece to another piece with that end, away from it.
///
/// ```text
///        2          from piece 0 straight on to piece 1 costs nothing,
///   0 ───●─── 1     and the square turn to 2 or 3 costs 8
///        3
/// ```
///
/// Cost: one sort of the ends of all pieces; then each piece is settled once in each heading, in the order of costs,
/// with a turn for each piece that can follow.
///
/// Source: angular depth of segments after Turner (2007); sixteenths of a half turn are ours.
pub fn turn_depths(
    alloc: Global,
    pieces: &[Piece],
    source: usize,
) -> Result<Vec<Option<u32>>, NoMemory>
    requires pieces { ArePiecesOfPlan pieces.now }
    requires source { source < length pieces.now }
    ensures { IfOk result (λ depths. depths.items ≡ turn_depths_of pieces.now source) }
{
    let far = 32 * pieces.len() as u32 + 1;
    let costs = costs(alloc, pieces, source, far)?;
    let mut depths = Vec::new(alloc);
    for k in 0..pieces.len() {
        depths.push(lesser_below(costs[2 * k + 1], costs[2 * k], far))?;
    }
    Ok(depths)
}
