//! A plan, made ready for the questions of all rows.

ghost use Rattle.std.specs.Prelude.{◌≡◌, IsTrue};
ghost use Rattle.plan_spec.specs.Accepted.{is_sound};
ghost use Rattle.sight_spec.specs.Scene.{scene_of};
ghost use Rattle.vga_looks.specs.Tables as tables;

use plan_check::Plan;
use sight_sweep::SceneTable;
use std::snapshot::Snapshot;
use vga_looks::GridTable;

/// A plan with the points of its grid, and its scene as a look goes through it. Workers share it.
#[derive(Drop)]
pub(crate) struct Sights {
    pub(crate) plan: Snapshot<Plan>,
    pub(crate) points: GridTable,
    pub(crate) table: SceneTable,
    ghost sound: { IsTrue (is_sound plan.value) },
    ghost points_are: { points ≡ tables.grid_table_of plan.value },
    ghost table_is: { table ≡ scene_of plan.value },
}
