//! The runs of sectors, from what rays into the gaps meet.

ghost use Rattle.std.specs.Prelude.{◌≡◌, IfOk, OnOk, map};
ghost use Rattle.plane_spec.specs.Vectors.{InRange};
ghost use Rattle.sight_spec.specs.Isovist.{runs_of, sectors_of};
ghost use Rattle.sight_spec.proofs.Runs.{reaching_to};
ghost use Rattle.sight_sweep.specs.Grounds.{IsGroundInRange};
ghost use Rattle.view_laws.specs.Views.{AreInOrder};
ghost use Rattle.isovist_core.specs.Gaps.{pair_of};
ghost use Rattle.isovist_core.specs.Shown.{sector_shown};
ghost use Rattle.isovist_core.specs.Sightings.{is_wall, put_sector, run_of};

use crate::directions::corner_directions;
use crate::gap::Gap;
use crate::gaps::gaps_between;
use crate::heading::Heading;
use crate::sighted_run::SightedRun;
use crate::sights::wall_in;
use plane_spec::Point;
use sight_core::Scene;
use sight_sweep::{Arc, SceneTable, Steps, View, look};
use std::alloc::Global;
use text_spec::NoMemory;

/// Whether the sector before has this wall.
fn is_wall(before: Option<u32>, wall: u32) -> bool
    ensures { result ≡ is_wall before wall }
{
    match before {
        None => false,
        Some(last) => last == wall,
    }
}

/// Lets the last run reach on to a direction.
fn reach_on(runs: &mut Vec<SightedRun>, to: Heading)
    ensures { map run_of runs.new.items ≡ reaching_to to.step (map run_of runs.old.items) }
{
    let count = runs.len();
    if 0 < count {
        runs[count - 1].to = to;
    }
}

/// Takes up a sector: it goes on with the last run where the sector before has the same wall, and otherwise is a run of its
/// own; without a wall it is none.
fn put_sector(
    runs: &mut Vec<SightedRun>,
    before: Option<u32>,
    gap: &Gap,
    wall: Option<u32>,
) -> Result<(), NoMemory>
    ensures { OnOk result (map run_of runs.new.items ≡ put_sector before (pair_of gap.now) wall
        (map run_of runs.old.items)) }
{
    let Some(wall) = wall else {
        return Ok(());
    };
    if is_wall(before, wall) {
        reach_on(runs, gap.to);
    } else {
        runs.push(SightedRun {
            from: gap.from,
            to: gap.to,
            wall,
        })?;
    }
    Ok(())
}

/// The runs of the sectors in gaps, by the view from the point that they lie round.
fn runs_by(alloc: Global, view: &View, gaps: &[Gap]) -> Result<Vec<SightedRun>, NoMemory>
    requires order { AreInOrder view.now.sectors.items }
    requires ground_in { IsGroundInRange view.now.ground }
    ensures { IfOk result (λ runs. map run_of runs.items ≡ runs_of (map (sector_shown view.now) gaps.now)) }
{
    let mut runs = Vec::new(alloc);
    let mut near = 0;
    let mut before = None;
    for k in 0..gaps.len() {
        let gap = gaps[k];
        let wall = wall_in(view, &mut near, &gap);
        put_sector(&mut runs, before, &gap, wall)?;
        before = wall;
    }
    Ok(runs)
}

/// The runs round `p`, counterclockwise from (1,0): the last and the first aren't joined. The table is the scene's.
///
/// Cost: one sort of the corners, and one look.
pub(crate) fn sighted_runs(
    alloc: Global,
    scene: &Scene,
    table: &SceneTable,
    p: Point,
) -> Result<Vec<SightedRun>, NoMemory>
    requires p_in { InRange p }
    requires tabled { table.now ≡ scene.now }
    ensures { IfOk result (λ runs. map run_of runs.items ≡ runs_of (sectors_of scene.now p)) }
{
    let headings = corner_directions(alloc, scene, p)?;
    let gaps = gaps_between(alloc, &headings)?;
    let mut steps = Steps::new();
    let view = look(alloc, table, p, Arc::All, &mut steps)?;
    let runs = runs_by(alloc, &view, &gaps)?;
    Ok(runs)
}
