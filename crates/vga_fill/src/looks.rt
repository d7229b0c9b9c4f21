//! What is seen from the point of a row.

ghost use Rattle.std.specs.Prelude.{◌≡◌, ◌<◌, All, IfOk, false, length, slice_index_or, if◌then◌else◌};
ghost use Rattle.plan_spec.specs.Grid.{grid_points};
ghost use Rattle.sight_spec.specs.Scene.{scene_of};
ghost use Rattle.sight_sweep.specs.Steps.{one_more};
ghost use Rattle.vga_grid.specs.Openness.{is_number_open};
ghost use Rattle.vga_looks.specs.Tables.{IsLaterIn};
ghost use Rattle.vga_fill.specs.Graphs.{is_edge_of};
ghost use Rattle.vga_fill.specs.DirtyNumbers.{AreSeen};
ghost use Rattle.vga_fill.specs.Sights.{IsLook};

use crate::sights::Sights;
use plan_check::Plan;
use sight_core::Scene;
use sight_sweep::{Steps, table_of};
use std::alloc::Global;
use std::snapshot::Snapshot;
use text_spec::NoMemory;
use vga_grid::Grid;
use vga_looks::{grid_table_of, later_in_sight, some_in_sight};

/// Makes a plan ready for the questions of all rows. The scene is the plan's.
///
/// Cost: that of `grid_table_of`, and that of `table_of`.
pub(crate) fn sights_of(alloc: Global, plan: &Plan, scene: &Scene) -> Result<Sights, NoMemory>
    requires { scene.now ≡ scene_of plan.now }
    ensures { IfOk result (λ sights. sights.plan.value ≡ plan.now) }
{
    let _grid = Grid::of(plan);
    let points = grid_table_of(alloc, plan)?;
    let table = table_of(alloc, scene)?;
    Ok(Sights {
        plan: Snapshot::of(plan),
        points,
        table,
    })
}

/// Looks from the point of the row at those of greater numbers: of each whether it is seen, and nothing where the point
/// of the row is closed. Counts a sweep exactly where it is open.
pub(crate) fn look_from(
    alloc: Global,
    plan: &Plan,
    sights: &Sights,
    row: u32,
    steps: &mut Steps,
) -> Result<Vec<bool>, NoMemory>
    requires same { plan.now ≡ sights.now.plan.value }
    requires within { row < length (grid_points plan.now.grid) }
    ensures look { IfOk result (λ seen. IsLook plan.now row seen.items) }
    ensures counted { steps.new ≡ if is_number_open plan.now row then one_more steps.old else steps.old }
{
    if !sights.points.is_open(row) {
        return Ok(Vec::new(alloc));
    }
    later_in_sight(alloc, plan, &sights.table, &sights.points, row, steps)
}

/// Looks from the point of the row at some of greater numbers: of each whether it is seen, and nothing where the point of
/// the row is closed. Counts a sweep exactly where it is open.
pub(crate) fn look_at(
    alloc: Global,
    plan: &Plan,
    sights: &Sights,
    row: u32,
    numbers: &[u32],
    steps: &mut Steps,
) -> Result<Vec<bool>, NoMemory>
    requires same { plan.now ≡ sights.now.plan.value }
    requires within { row < length (grid_points plan.now.grid) }
    requires later { All (IsLaterIn plan.now row) numbers.now }
    ensures look { IfOk result (λ seen. AreSeen plan.now row numbers.now seen.items) }
    ensures counted { steps.new ≡ if is_number_open plan.now row then one_more steps.old else steps.old }
{
    if !sights.points.is_open(row) {
        return Ok(Vec::new(alloc));
    }
    some_in_sight(
        alloc,
        plan,
        &sights.table,
        &sights.points,
        row,
        numbers,
        steps,
    )
}

/// Whether the point of the row and a later one are open and see each other, by the look from the first.
pub(crate) fn is_edge(plan: &Plan, row: u32, seen: &[bool], j: u32) -> bool
    requires order { row < j }
    requires within { j < length (grid_points plan.now.grid) }
    requires look { IsLook plan.now row seen.now }
    ensures { result ≡ is_edge_of plan.now row j }
{
    let _ = plan;
    seen_at(seen, j as usize)
}

/// What a look answered at this place, or false where it answered nothing.
pub(crate) fn seen_at(seen: &[bool], k: usize) -> bool
    ensures { result ≡ slice_index_or seen.now k false }
{
    match seen.get(k) {
        Some(is_seen) => *is_seen,
        None => false,
    }
}
