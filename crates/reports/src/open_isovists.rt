//! The open points of a plan that are left, of which the isovists are to be told.

ghost use Rattle.std.specs.Prelude.{◌≡◌};
ghost use Rattle.sight_spec.specs.Scene.{scene_of};

use plan_check::Plan;
use sight_core::Scene;
use sight_sweep::SceneTable;
use std::alloc::Global;

/// The open points of a plan from a number on, with the plan's scene and its table.
#[derive(Drop)]
pub struct OpenIsovists<'a> {
    pub alloc: Global,
    pub plan: &'a Plan,
    pub scene: &'a Scene,
    pub table: &'a SceneTable,
    pub number: u32,
    ghost seen: { scene.now ≡ scene_of plan.now },
    ghost tabled: { table.now ≡ scene.now },
}
