//! The plan after a change that names a place.

ghost use Rattle.std.specs.Prelude.{◌≡◌, IfErr, IfOk, None, OnOk, Some};
ghost use Rattle.plan_spec.specs.Edits.{HasShift};
ghost use Rattle.plan_check.specs.Faults.{IfRefused};
ghost use Rattle.plan_back.specs.Backs.{HasPlace, like_edit, plan_after_back, why_not_back};

use crate::back::Back;
use crate::placing::{with_obstacle_at, with_route_at, with_screen_at};
use plan_check::{EditFault, Plan, copied_points};
use plan_spec::Edit;
use std::alloc::Global;
use text_spec::NoMemory;

/// The edit that is like the change, but adds at the end.
fn like_edit(alloc: Global, back: &Back) -> Result<Edit, NoMemory>
    ensures { IfOk result (λ edit. edit ≡ like_edit back.now) }
{
    Ok(match back {
        Back::Take(name) => Edit::Remove(name.copy()),
        Back::Put(_place, name, points) => {
            let points = copied_points(alloc, points.as_slice())?;
            Edit::Add(name.copy(), points)
        }
        Back::Shift(name, dx, dy) => Edit::Move(name.copy(), *dx, *dy),
        Back::TakeScreen(name) => Edit::RemoveScreen(name.copy()),
        Back::PutScreen(_place, name, from, to) => Edit::AddScreen(name.copy(), *from, *to),
        Back::TakeRoute(name) => Edit::RemoveRoute(name.copy()),
        Back::PutRoute(_place, name, from, to) => Edit::AddRoute(name.copy(), *from, *to),
    })
}

/// The plan after the change; this one is untouched. What is new stands at its place, and what stood there and after it
/// moves up by one; a removal closes up, a move keeps the place.
///
/// `Err(Refused)` names the first cause for which the like edit is refused. A place is at most the number of items of
/// its kind, the shift of a move at most `MAX_SHIFT`.
///
/// Cost: that of the like edit and, where something is added, of a check of all items, since these come in a new order.
#[tactic(auto, unfolding(crate::specs::Backs::plan_after_back))]
pub fn with_back(alloc: Global, plan: &Plan, back: &Back) -> Result<Plan, EditFault>
    requires place { HasPlace plan.now back.now }
    requires shift { HasShift (like_edit back.now) }
    ensures plan { IfOk result (λ new. new ≡ plan_after_back plan.now back.now) }
    ensures valid { OnOk result (why_not_back plan.now back.now ≡ None) }
    ensures refused { IfErr result (λ fault. IfRefused fault (λ why. why_not_back plan.now back.now ≡ Some why)) }
{
    let edit = like_edit(alloc, back)?;
    let edited = plan.with(alloc, &edit)?;
    match back {
        Back::Put(place, name, points) => {
            Ok(with_obstacle_at(alloc, plan, *place, name, points.as_slice())?)
        }
        Back::PutScreen(place, name, from, to) => {
            Ok(with_screen_at(alloc, plan, *place, name, *from, *to)?)
        }
        Back::PutRoute(place, name, from, to) => {
            Ok(with_route_at(alloc, plan, *place, name, *from, *to)?)
        }
        Back::Take(_name) => Ok(edited),
        Back::Shift(_name, _dx, _dy) => Ok(edited),
        Back::TakeScreen(_name) => Ok(edited),
        Back::TakeRoute(_name) => Ok(edited),
    }
}
