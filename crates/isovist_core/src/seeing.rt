//! The isovist of an open point.

ghost use Rattle.std.specs.Prelude.{◌≡◌, ◌↔◌, IfErr, IfOk, Some, false};
ghost use Rattle.plane_spec.specs.Vectors.{InRange};
ghost use Rattle.sight_spec.specs.Isovist.{isovist_in, isovist_of};
ghost use Rattle.sight_spec.specs.Scene.{scene_of};
ghost use Rattle.sight_spec.specs.Sight as sight;
ghost use Rattle.isovist_core.specs.Sums.{AreTotals, HasTotals, IsOfPlan};

use crate::fault::IsovistFault;
use crate::parts::IsovistParts;
use crate::runs::sighted_runs;
use crate::sums::sums_of;
use crate::totals::IsovistTotals;
use crate::triangles::triangles_of;
use plan_check::Plan;
use plane_spec::Point;
use sight_core::{Scene, is_open};
use sight_sweep::{SceneTable, table_of};
use std::alloc::Global;
use text_spec::NoMemory;

/// What is seen from a point of a scene.
fn isovist_in_scene(
    alloc: Global,
    scene: &Scene,
    table: &SceneTable,
    p: Point,
) -> Result<IsovistParts, NoMemory>
    requires p_in { InRange p }
    requires of_plan { IsOfPlan scene.now }
    requires tabled { table.now ≡ scene.now }
    ensures { IfOk result (λ parts. parts ≡ isovist_in scene.now p) }
{
    let runs = sighted_runs(alloc, scene, table, p)?;
    let triangles = triangles_of(alloc, scene, p, &runs)?;
    let sums = sums_of(scene, p, &runs);
    Ok(IsovistParts::of(triangles, sums.floor, sums.ceil))
}

/// The totals of what is seen from a point of a scene, by the scene's table, which is made once for many points. For an
/// open point they are those of its isovist.
///
/// Cost: one sort of the corners, and one look all round.
pub fn isovist_totals_by(
    alloc: Global,
    scene: &Scene,
    table: &SceneTable,
    p: Point,
) -> Result<IsovistTotals, NoMemory>
    requires p_in { InRange p }
    requires of_plan { IsOfPlan scene.now }
    requires tabled { table.now ≡ scene.now }
    ensures { IfOk result (λ totals. AreTotals (isovist_in scene.now p) totals) }
{
    let runs = sighted_runs(alloc, scene, table, p)?;
    let totals = sums_of(scene, p, &runs);
    Ok(totals)
}

/// What is seen from `p`: triangles in order, their doubled areas in lowest terms, and the sums of floors and ceilings. The
/// scene is the plan's. [`IsovistFault::Closed`] exactly where `p` isn't open.
///
/// No doubled area is above 8 * 10^10, and no number on the way above 10^36.
///
/// Cost: a table of the scene, one sort of the corners, one look all round, and five greatest common divisors for each triangle.
///
/// Source: isovists after Benedikt (1979), as exact triangles.
pub fn isovist(
    alloc: Global,
    plan: &Plan,
    scene: &Scene,
    p: Point,
) -> Result<IsovistParts, IsovistFault>
    requires p_in { InRange p }
    requires seen { scene.now ≡ scene_of plan.now }
    ensures value { IfOk result (λ parts. isovist_of plan.now p ≡ Some parts) }
    ensures closed { IfErr result (λ fault. (fault ≡ IsovistFault.Closed) ↔ (sight.is_open plan.now p ≡ false)) }
{
    if !is_open(plan, p) {
        return Err(IsovistFault::Closed);
    }
    let table = table_of(alloc, scene)?;
    let parts = isovist_in_scene(alloc, scene, &table, p)?;
    Ok(parts)
}

/// How many triangles the isovist of `p` has, and its sums, without the triangles. The scene is the plan's.
/// [`IsovistFault::Closed`] exactly where `p` isn't open.
///
/// Cost: that of [`isovist`] without its greatest common divisors for triangles. For many points call [`isovist_totals_by`].
pub fn isovist_totals(
    alloc: Global,
    plan: &Plan,
    scene: &Scene,
    p: Point,
) -> Result<IsovistTotals, IsovistFault>
    requires p_in { InRange p }
    requires seen { scene.now ≡ scene_of plan.now }
    ensures value { IfOk result (λ totals. HasTotals (isovist_of plan.now p) totals) }
    ensures closed { IfErr result (λ fault. (fault ≡ IsovistFault.Closed) ↔ (sight.is_open plan.now p ≡ false)) }
{
    if !is_open(plan, p) {
        return Err(IsovistFault::Closed);
    }
    let table = table_of(alloc, scene)?;
    let totals = isovist_totals_by(alloc, scene, &table, p)?;
    Ok(totals)
}
