//! The type of accepted plans, and what can be read from one.

ghost use Rattle.std.specs.Prelude.{◌≡◌, ◌<◌, ◌+◌, ◌∷◌, IfErr, IfOk, IsTrue, None, Ok, OnOk, Some, drop, length, position};
ghost use Rattle.plan_spec.specs.Accepted.{is_sound};
ghost use Rattle.plan_spec.specs.Plan.{is_route_named, items_of};
ghost use Rattle.plan_spec.specs.Refusals.{check_of};
ghost use Rattle.plan_spec.specs.Edits.{HasShift, changed_boxes, plan_after_edit, why_not_edit};
ghost use Rattle.plan_spec.specs.Ranges.{AreBoxesInRange};
ghost use Rattle.plan_check.specs.Faults.{IfRefused};
ghost use Rattle.plan_check.specs.Kept.{obstacle_at};

use crate::boxes::changed_boxes;
use crate::draft::Draft;
use crate::editing::{EditFault, plan_after_edit, why_not_edit};
use crate::plan_parts::listed;
use plan_spec::{Changed, Edit, GridSpec, PlanData, Route, Screen};
use plane_spec::Point;
use std::alloc::Global;
use std::marker::Model;
use text_spec::{Name, NoMemory};

/// A plan that is accepted. Contracts see its outer polygon, its grid, and its obstacles, screens and routes in order.
#[derive(Drop)]
pub struct Plan {
    draft: Draft,
}

impl Model for Plan {
    ghost use Rattle.std.specs.Prelude.{IsTrue};
    ghost use Rattle.plan_spec.specs.Plan.{Plan as PlanParts};
    ghost use Rattle.plan_spec.specs.Accepted.{is_sound};

    ghost Value = { PlanParts };

    ghost view = { λ a. a.draft };

    ghost invariant = { λ a. IsTrue (is_sound a.draft) };
}

impl Plan {
    /// The plan of sound parts.
    pub(crate) fn of_sound(draft: Draft) -> Plan
        requires { IsTrue (is_sound draft) }
        ensures { result ≡ draft }
    {
        Plan { draft }
    }

    /// The points of the outer polygon, as they were given.
    pub fn outer(&self) -> &[Point]
        ensures points { result.now ≡ self.now.outer }
        ensures sound { IsTrue (is_sound self.now) }
    {
        self.draft.outer()
    }

    /// The grid, or `None` exactly where there is none.
    pub fn grid(&self) -> Option<GridSpec>
        ensures grid { result ≡ self.now.grid }
        ensures sound { IsTrue (is_sound self.now) }
    {
        self.draft.grid()
    }

    /// The number of obstacles.
    pub fn obstacles(&self) -> usize
        ensures count { result ≡ length self.now.obstacles }
        ensures sound { IsTrue (is_sound self.now) }
    {
        self.draft.obstacles()
    }

    /// The name of the `k`-th obstacle, counted from 0.
    pub fn obstacle_name(&self, k: usize) -> Name
        requires { k < length self.now.obstacles }
        ensures { result ≡ (obstacle_at self.now k).name }
    {
        self.draft.obstacle_name(k).copy()
    }

    /// The points of the `k`-th obstacle, counted from 0, as they were given.
    pub fn obstacle(&self, k: usize) -> &[Point]
        requires { k < length self.now.obstacles }
        ensures points { result.now ≡ (obstacle_at self.now k).points }
        ensures next { drop k self.now.obstacles ≡ obstacle_at self.now k ∷ drop (k + 1) self.now.obstacles }
    {
        self.draft.obstacle(k)
    }

    /// The number of screens.
    pub fn screens(&self) -> usize
        ensures count { result ≡ length self.now.screens }
        ensures sound { IsTrue (is_sound self.now) }
    {
        self.draft.screens()
    }

    /// The `k`-th screen, counted from 0.
    pub fn screen(&self, k: usize) -> Screen
        requires { k < length self.now.screens }
        ensures { drop k self.now.screens ≡ result ∷ drop (k + 1) self.now.screens }
    {
        self.draft.screen(k)
    }

    /// The number of routes.
    pub fn routes(&self) -> usize
        ensures count { result ≡ length self.now.routes }
        ensures sound { IsTrue (is_sound self.now) }
    {
        self.draft.routes()
    }

    /// The `k`-th route, counted from 0.
    pub fn route(&self, k: usize) -> Route
        requires { k < length self.now.routes }
        ensures { drop k self.now.routes ≡ result ∷ drop (k + 1) self.now.routes }
    {
        self.draft.route(k)
    }

    /// The number of the route of this name, or `None` exactly where there is none.
    pub fn route_named(&self, name: &Name) -> Option<usize>
        ensures { result ≡ position (is_route_named name.now) self.now.routes }
    {
        self.draft.route_named(name)
    }

    /// The items of the plan: the outer polygon, the grid if there is one, the obstacles, the screens, the routes.
    /// Checking them gives the plan again.
    pub fn items(&self, alloc: Global) -> Result<PlanData, NoMemory>
        ensures items { IfOk result (λ listed. listed.items ≡ items_of self.now) }
        ensures again { IfOk result (λ listed. check_of listed.items ≡ Ok self.now) }
    {
        let items = listed(alloc, &self.draft)?;
        Ok(PlanData { items })
    }

    /// The plan after the edit; this one is untouched. A new obstacle, screen or route goes last, a removal closes up,
    /// a move keeps the place.
    ///
    /// `Err(Refused)` names the first cause for which the edit is refused. The shift of a move is at most `MAX_SHIFT`.
    ///
    /// Cost: a copy of the plan, and the tests of what is new against each part.
    pub fn with(&self, alloc: Global, edit: &Edit) -> Result<Plan, EditFault>
        requires shift { HasShift edit.now }
        ensures plan { IfOk result (λ plan. plan ≡ plan_after_edit self.now edit.now) }
        ensures valid { OnOk result (why_not_edit self.now edit.now ≡ None) }
        ensures refused { IfErr result (λ fault. IfRefused fault (λ why. why_not_edit self.now edit.now ≡ Some why)) }
    {
        if let Some(why) = why_not_edit(alloc, &self.draft, edit)? {
            return Err(EditFault::Refused(why));
        }
        let parts = plan_after_edit(alloc, &self.draft, edit)?;
        Ok(Plan::of_sound(parts))
    }

    /// The boxes of the obstacle, or of the screen's ends, before and after the edit, where there is one; a route has
    /// none. Where nothing refuses the edit they are in range. The shift of a move is at most `MAX_SHIFT`.
    pub fn changed(&self, edit: &Edit) -> Changed
        requires shift { HasShift edit.now }
        ensures boxes { result ≡ changed_boxes self.now edit.now }
        ensures in_range { why_not_edit self.now edit.now ≡ None → AreBoxesInRange result }
    {
        changed_boxes(&self.draft, edit)
    }
}
