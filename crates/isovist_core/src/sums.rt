//! The sums of floors and ceilings.

ghost use Rattle.std.specs.Prelude.{◌≡◌, ◌+ℤ◌, All, map};
ghost use Rattle.plane_spec.specs.Fractions as fractions;
ghost use Rattle.plane_spec.specs.Vectors.{InRange, IsWithin};
ghost use Rattle.isovist_laws.specs.Spans.{IsSpanned};
ghost use Rattle.isovist_core.specs.Sightings.{run_of};
ghost use Rattle.isovist_core.specs.Sums.{triangle_of_run, AreSums, MAX_AREA, MAX_SUM};

use crate::sighted_run::SightedRun;
use crate::totals::IsovistTotals;
use crate::triangles::area_of_run;
use plane_spec::Point;
use sight_core::Scene;

/// The floor of twice the area of a run's triangle.
fn floor_of_run(scene: &Scene, p: Point, run: &SightedRun) -> i128
    requires p_in { InRange p }
    requires spanned { IsSpanned scene.now p (run_of run.now) }
    ensures value { result ≡ fractions.floor_of (triangle_of_run scene.now p run.now).doubled_area }
    ensures bounded { IsWithin MAX_AREA result }
{
    area_of_run(scene, p, run).floor()
}

/// The ceiling of twice the area of a run's triangle.
fn ceil_of_run(scene: &Scene, p: Point, run: &SightedRun) -> i128
    requires p_in { InRange p }
    requires spanned { IsSpanned scene.now p (run_of run.now) }
    ensures value { result ≡ fractions.ceil_of (triangle_of_run scene.now p run.now).doubled_area }
    ensures bounded { IsWithin MAX_AREA result }
{
    area_of_run(scene, p, run).ceil()
}

/// A sum and one number more.
fn add(sum: i128, more: i128) -> i128
    requires sum_in { IsWithin MAX_SUM sum }
    requires more_in { IsWithin MAX_AREA more }
    ensures { result ≡ sum +ℤ more }
{
    sum + more
}

/// The number of triangles of runs, and the sums of the floors and of the ceilings of their doubled areas.
pub(crate) fn sums_of(scene: &Scene, p: Point, runs: &[SightedRun]) -> IsovistTotals
    requires p_in { InRange p }
    requires spanned { All (λ run. IsSpanned scene.now p (run_of run)) runs.now }
    ensures { AreSums (map (triangle_of_run scene.now p) runs.now) result }
{
    let mut floor = 0;
    let mut ceil = 0;
    for run in runs {
        floor = add(floor, floor_of_run(scene, p, run));
        ceil = add(ceil, ceil_of_run(scene, p, run));
    }
    IsovistTotals {
        triangles: runs.len(),
        floor,
        ceil,
    }
}
