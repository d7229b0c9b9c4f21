//! Plans with one more item at a place.

ghost use Rattle.std.specs.Prelude.{◌≡◌, ◌≤◌, ◌+◌, IfOk, IsTrue, None, Ok, length};
ghost use Rattle.plan_spec.specs.Accepted.{is_accepted, is_sound};
ghost use Rattle.plan_spec.specs.Plan.{items_of};
ghost use Rattle.plan_spec.specs.Edits.{why_not_edit};
ghost use Rattle.plan_spec.specs.Refusals.{check_of};
ghost use Rattle.plan_back.specs.Backs.{plan_after_back};
ghost use Rattle.plan_back.specs.Items.{items_before_obstacles, items_before_routes, items_before_screens};
ghost use Rattle.plan_back.specs.Places.{put_at};

use crate::back::Back;
use crate::copies::push_copies;
use plan_check::{CheckFault, Plan, check, copied_points};
use plan_spec::{Edit, Item, Items, PlanData};
use plane_spec::Point;
use std::alloc::Global;
use text_spec::{Name, NoMemory};

/// The items with one more at the place.
fn with_item_at(alloc: Global, items: &[Item], place: usize, item: Item) -> Result<Items, NoMemory>
    requires { place ≤ length items.now }
    ensures { IfOk result (λ list. list ≡ put_at place item items.now) }
{
    let mut list = Items::new(alloc);
    push_copies(alloc, &mut list, &items[..place])?;
    list.push(item)?;
    push_copies(alloc, &mut list, &items[place..])?;
    Ok(list)
}

/// The plan of the items with one more at the place, which are accepted.
fn plan_with_item_at(alloc: Global, plan: &Plan, place: usize, item: Item) -> Result<Plan, NoMemory>
    requires within { place ≤ length (items_of plan.now) }
    requires accepted { IsTrue (is_accepted (put_at place item (items_of plan.now))) }
    ensures { IfOk result (λ new. check_of (put_at place item (items_of plan.now)) ≡ Ok new) }
{
    let given = plan.items(alloc)?;
    let items = with_item_at(alloc, given.items.as_slice(), place, item)?;
    match check(alloc, &PlanData { items }) {
        Ok(new) => Ok(new),
        Err(CheckFault::NoMemory) => Err(NoMemory),
        Err(CheckFault::Bad { item: _, why: _ }) => unreachable!(),
    }
}

/// How many items of a plan stand before its obstacles: the outer polygon, and the grid if there is one.
fn items_before_obstacles(plan: &Plan) -> usize
    ensures count { result ≡ items_before_obstacles plan.now }
    ensures sound { IsTrue (is_sound plan.now) }
{
    match plan.grid() {
        Some(_) => 2,
        None => 1,
    }
}

/// How many stand before its screens: these, and the obstacles.
fn items_before_screens(plan: &Plan) -> usize
    ensures count { result ≡ items_before_screens plan.now }
    ensures sound { IsTrue (is_sound plan.now) }
{
    items_before_obstacles(plan) + plan.obstacles()
}

/// How many stand before its routes: these, and the screens.
fn items_before_routes(plan: &Plan) -> usize
    ensures count { result ≡ items_before_routes plan.now }
    ensures sound { IsTrue (is_sound plan.now) }
{
    items_before_screens(plan) + plan.screens()
}

/// The plan with a new obstacle at the place, which isn't refused.
pub(crate) fn with_obstacle_at(
    alloc: Global,
    plan: &Plan,
    place: u32,
    name: &Name,
    points: &[Point],
) -> Result<Plan, NoMemory>
    requires place { place ≤ length plan.now.obstacles }
    requires valid { why_not_edit plan.now (Edit.Add name.now points.now) ≡ None }
    ensures { IfOk result (λ new. new ≡ plan_after_back plan.now (Back.Put place name.now points.now)) }
{
    let item = Item::Obstacle(name.copy(), copied_points(alloc, points)?);
    plan_with_item_at(
        alloc,
        plan,
        items_before_obstacles(plan) + place as usize,
        item,
    )
}

/// The plan with a new screen at the place, which isn't refused.
pub(crate) fn with_screen_at(
    alloc: Global,
    plan: &Plan,
    place: u32,
    name: &Name,
    from: Point,
    to: Point,
) -> Result<Plan, NoMemory>
    requires place { place ≤ length plan.now.screens }
    requires valid { why_not_edit plan.now (Edit.AddScreen name.now from to) ≡ None }
    ensures { IfOk result (λ new. new ≡ plan_after_back plan.now (Back.PutScreen place name.now from to)) }
{
    let item = Item::Screen(name.copy(), from, to);
    plan_with_item_at(
        alloc,
        plan,
        items_before_screens(plan) + place as usize,
        item,
    )
}

/// The plan with a new route at the place, which isn't refused.
pub(crate) fn with_route_at(
    alloc: Global,
    plan: &Plan,
    place: u32,
    name: &Name,
    from: Point,
    to: Point,
) -> Result<Plan, NoMemory>
    requires place { place ≤ length plan.now.routes }
    requires valid { why_not_edit plan.now (Edit.AddRoute name.now from to) ≡ None }
    ensures { IfOk result (λ new. new ≡ plan_after_back plan.now (Back.PutRoute place name.now from to)) }
{
    let item = Item::Route(name.copy(), from, to);
    plan_with_item_at(
        alloc,
        plan,
        items_before_routes(plan) + place as usize,
        item,
    )
}
