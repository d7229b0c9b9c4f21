//! An edit as a change that names places, and the change that takes one back.

ghost use Rattle.std.specs.Prelude.{◌≡◌, IfOk, IsTrue, None};
ghost use Rattle.plan_spec.specs.Accepted.{is_sound};
ghost use Rattle.plan_spec.specs.Edits.{HasShift};
ghost use Rattle.plan_back.specs.Backs.{HasPlace, TakesBack, back_of, inverse_of, like_edit, why_not_back};

use crate::back::Back;
use plan_check::{Plan, copied_points};
use plan_spec::Edit;
use std::alloc::Global;
use text_spec::{Name, NoMemory};

/// The edit as a change that names places: what it adds stands last.
pub fn back_of(alloc: Global, plan: &Plan, edit: &Edit) -> Result<Back, NoMemory>
    ensures back { IfOk result (λ back. back ≡ back_of plan.now edit.now) }
    ensures place { IfOk result (λ back. HasPlace plan.now back) }
    ensures like { IfOk result (λ back. like_edit back ≡ edit.now) }
{
    Ok(match edit {
        Edit::Add(name, points) => {
            let points = copied_points(alloc, points.as_slice())?;
            Back::Put(plan.obstacles() as u32, name.copy(), points)
        }
        Edit::Remove(name) => Back::Take(name.copy()),
        Edit::Move(name, dx, dy) => Back::Shift(name.copy(), *dx, *dy),
        Edit::AddScreen(name, from, to) => {
            Back::PutScreen(plan.screens() as u32, name.copy(), *from, *to)
        }
        Edit::RemoveScreen(name) => Back::TakeScreen(name.copy()),
        Edit::AddRoute(name, from, to) => {
            Back::PutRoute(plan.routes() as u32, name.copy(), *from, *to)
        }
        Edit::RemoveRoute(name) => Back::TakeRoute(name.copy()),
    })
}

// ---- what is removed, put in where it stood

/// The obstacle of this name, put in where it stands; where there is none, its removal.
#[tactic(auto, unfolding(crate::specs::Backs::inverse_of))]
fn put_obstacle(alloc: Global, plan: &Plan, name: &Name) -> Result<Back, NoMemory>
    ensures { IfOk result (λ back. back ≡ inverse_of plan.now (Back.Take name.now)) }
{
    for k in 0..plan.obstacles() {
        let found = plan.obstacle_name(k);
        if found == *name {
            let points = copied_points(alloc, plan.obstacle(k))?;
            return Ok(Back::Put(k as u32, found, points));
        }
    }
    Ok(Back::Take(name.copy()))
}

/// The screen of this name, put in where it stands; where there is none, its removal.
#[tactic(auto, unfolding(crate::specs::Backs::inverse_of))]
fn put_screen(plan: &Plan, name: &Name) -> Back
    ensures { result ≡ inverse_of plan.now (Back.TakeScreen name.now) }
{
    for k in 0..plan.screens() {
        let found = plan.screen(k);
        if found.name == *name {
            return Back::PutScreen(k as u32, found.name, found.from, found.to);
        }
    }
    Back::TakeScreen(name.copy())
}

/// The route of this name, put in where it stands; where there is none, its removal.
#[tactic(auto, unfolding(crate::specs::Backs::inverse_of))]
fn put_route(plan: &Plan, name: &Name) -> Back
    ensures { result ≡ inverse_of plan.now (Back.TakeRoute name.now) }
{
    for k in 0..plan.routes() {
        let found = plan.route(k);
        if found.name == *name {
            return Back::PutRoute(k as u32, found.name, found.from, found.to);
        }
    }
    Back::TakeRoute(name.copy())
}

/// The change the other way: of what is added, its removal; of what is removed, that it is put in where it stood.
#[tactic(auto, unfolding(crate::specs::Backs::inverse_of))]
fn other_way(alloc: Global, plan: &Plan, back: &Back) -> Result<Back, NoMemory>
    requires shift { HasShift (like_edit back.now) }
    ensures { IfOk result (λ other. other ≡ inverse_of plan.now back.now) }
{
    match back {
        Back::Take(name) => put_obstacle(alloc, plan, name),
        Back::Put(_place, name, _points) => Ok(Back::Take(name.copy())),
        Back::Shift(name, dx, dy) => Ok(Back::Shift(name.copy(), -*dx, -*dy)),
        Back::TakeScreen(name) => Ok(put_screen(plan, name)),
        Back::PutScreen(_place, name, _from, _to) => Ok(Back::TakeScreen(name.copy())),
        Back::TakeRoute(name) => Ok(put_route(plan, name)),
        Back::PutRoute(_place, name, _from, _to) => Ok(Back::TakeRoute(name.copy())),
    }
}

/// A plan is sound, by its type.
fn plan_is_sound(plan: &Plan)
    ensures { IsTrue (is_sound plan.now) }
{
    let _ = plan.outer();
}

/// The change that leads from the plan after `back` to this one, with all places.
///
/// Where `back` isn't refused on the plan, its inverse isn't refused on the plan after it. Where it is refused because
/// what it would remove isn't there, the inverse is itself. The shift of a move is at most `MAX_SHIFT`.
///
/// Cost: one search by name, and a copy of what is removed.
pub fn inverse(alloc: Global, plan: &Plan, back: &Back) -> Result<Back, NoMemory>
    requires shift { HasShift (like_edit back.now) }
    ensures inverse { IfOk result (λ other. other ≡ inverse_of plan.now back.now) }
    ensures takes_back { why_not_back plan.now back.now ≡ None → IfOk result (λ other. TakesBack plan.now back.now other) }
{
    plan_is_sound(plan);
    other_way(alloc, plan, back)
}
