//! Edits of a plan: why one is refused, and what it makes.

ghost use Rattle.std.specs.Prelude.{◌≡◌, IsTrue, None, not, IfOk};
ghost use Rattle.plan_spec.specs.Accepted.{is_sound};
ghost use Rattle.plan_spec.specs.Edits as edits;
ghost use Rattle.plan_spec.specs.Refusals as refusals;
ghost use Rattle.plan_spec.specs.Edits.{HasShift, IsShift};

use crate::draft::Draft;
use crate::place_refusals::why_not_polygon_in;
use crate::plan_parts::copied_points;
use crate::refusals::{why_not_obstacle, why_not_route, why_not_screen};
use crate::shape_refusals::all_in_range;
use crate::shifts::shifted_points;
use plan_spec::{Edit, Why};
use plane_spec::Point;
use std::alloc::Global;
use text_spec::{Name, NoMemory};

/// Why an edit makes no plan.
#[derive(Drop)]
pub enum EditFault {
    /// The edit is refused for this cause.
    Refused(Why),
    /// There is no memory.
    NoMemory,
}

impl From<NoMemory> for EditFault {
    ghost use Rattle.std.specs.Prelude.{◌≡◌};
    ghost use Rattle.plan_check.specs.declared.editing.EditFault.TheVariants.{NoMemory as OutOfMemory};

    ghost from_gives = { λ _ fault. fault ≡ OutOfMemory };

    fn from(_fault: NoMemory) -> EditFault {
        EditFault::NoMemory
    }
}

// ---- refusals

/// What the moved polygon is refused for in the plan of the others.
#[tactic(auto, unfolding(plan_spec::specs::Edits::why_not_moved))]
fn why_not_moved(others: &Draft, points: &[Point]) -> Option<Why>
    requires { IsTrue (is_sound others.now) }
    ensures { result ≡ edits.why_not_moved others.now points.now }
{
    if !all_in_range(points) {
        return Some(Why::Range);
    }
    why_not_polygon_in(others, points)
}

/// Why a move is refused. The moved polygon is tested in the plan without the obstacle, as a new one would be.
#[tactic(auto, unfolding(plan_spec::specs::Edits::why_not_edit))]
fn why_not_move(
    alloc: Global,
    draft: &Draft,
    name: &Name,
    dx: i64,
    dy: i64,
) -> Result<Option<Why>, NoMemory>
    requires sound { IsTrue (is_sound draft.now) }
    requires shift { IsShift dx dy }
    ensures { IfOk result (λ why. why ≡ edits.why_not_edit draft.now (Edit.Move name.now dx dy)) }
{
    let Some(points) = draft.polygon_named(name) else {
        return Ok(Some(Why::Missing));
    };
    let moved = shifted_points(alloc, points, dx, dy)?;
    let mut others = draft.copied(alloc)?;
    others.remove_obstacle(name);
    Ok(why_not_moved(&others, moved.as_slice()))
}

/// The cause where what is to be removed isn't there.
fn missing_unless(is_there: bool) -> Option<Why>
    ensures { result ≡ refusals.when (not is_there) Why.Missing }
{
    if is_there { None } else { Some(Why::Missing) }
}

/// The first cause for which the edit is refused, or `None` where nothing refuses it. A move takes memory for the moved
/// points and for a copy of the plan.
#[tactic(auto, unfolding(plan_spec::specs::Edits::why_not_edit))]
pub(crate) fn why_not_edit(
    alloc: Global,
    draft: &Draft,
    edit: &Edit,
) -> Result<Option<Why>, NoMemory>
    requires sound { IsTrue (is_sound draft.now) }
    requires shift { HasShift edit.now }
    ensures { IfOk result (λ why. why ≡ edits.why_not_edit draft.now edit.now) }
{
    match edit {
        Edit::Add(name, points) => Ok(why_not_obstacle(draft, name, points.as_slice())),
        Edit::Remove(name) => Ok(missing_unless(draft.has_obstacle(name))),
        Edit::Move(name, dx, dy) => why_not_move(alloc, draft, name, *dx, *dy),
        Edit::AddScreen(name, from, to) => Ok(why_not_screen(draft, name, *from, *to)),
        Edit::RemoveScreen(name) => Ok(missing_unless(draft.has_screen(name))),
        Edit::AddRoute(name, from, to) => Ok(why_not_route(draft, name, *from, *to)),
        Edit::RemoveRoute(name) => Ok(missing_unless(draft.has_route(name))),
    }
}

// ---- what an edit makes

/// The parts after an edit that isn't refused: what is new stands last, what is removed closes up, what is moved keeps
/// its place.
#[tactic(auto, unfolding(plan_spec::specs::Edits::plan_after_edit, plan_spec::specs::Plan::with_item))]
pub(crate) fn plan_after_edit(alloc: Global, draft: &Draft, edit: &Edit) -> Result<Draft, NoMemory>
    requires sound { IsTrue (is_sound draft.now) }
    requires shift { HasShift edit.now }
    requires valid { edits.why_not_edit draft.now edit.now ≡ None }
    ensures { IfOk result (λ new. new ≡ edits.plan_after_edit draft.now edit.now) }
{
    let mut new = draft.copied(alloc)?;
    match edit {
        Edit::Add(name, points) => {
            let points = copied_points(alloc, points.as_slice())?;
            new.add_obstacle(name.copy(), points)?;
        }
        Edit::Remove(name) => new.remove_obstacle(name),
        Edit::Move(name, dx, dy) => new.move_obstacle(alloc, name, *dx, *dy)?,
        Edit::AddScreen(name, from, to) => new.add_screen(name.copy(), *from, *to)?,
        Edit::RemoveScreen(name) => new.remove_screen(name),
        Edit::AddRoute(name, from, to) => new.add_route(name.copy(), *from, *to)?,
        Edit::RemoveRoute(name) => new.remove_route(name),
    }
    Ok(new)
}
