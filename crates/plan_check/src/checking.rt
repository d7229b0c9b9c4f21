//! Which items make a plan.

ghost use Rattle.std.specs.Prelude.{◌≡◌, IsTrue, None, Ok, Err, IfOk, IfErr, OnErr, OnOk, false};
ghost use Rattle.plan_spec.specs.Accepted.{is_accepted, is_sound};
ghost use Rattle.plan_spec.specs.Plan.{with_item};
ghost use Rattle.plan_spec.specs.Refusals.{check_of, why_not_item};
ghost use Rattle.plan_check.specs.Faults.{IfBad};

use crate::draft::Draft;
use crate::plan::Plan;
use crate::plan_parts::copied_points;
use crate::refusals::why_not_item;
use plan_spec::{Item, PlanData, Why};
use std::alloc::Global;
use text_spec::NoMemory;

/// Why items make no plan.
#[derive(Drop)]
pub enum CheckFault {
    /// The item of this number, counted from 0, is the first that is refused, for this cause. Without items it is
    /// 0, and the cause [`Why::Order`].
    Bad { item: u32, why: Why },
    /// There is no memory.
    NoMemory,
}

impl From<NoMemory> for CheckFault {
    ghost use Rattle.std.specs.Prelude.{◌≡◌};
    ghost use Rattle.plan_check.specs.declared.checking.CheckFault.TheVariants.{NoMemory as OutOfMemory};

    ghost from_gives = { λ _ fault. fault ≡ OutOfMemory };

    fn from(_fault: NoMemory) -> CheckFault {
        CheckFault::NoMemory
    }
}

/// Adds an item that isn't refused. Without memory the draft stays as it was.
#[tactic(auto, unfolding(plan_spec::specs::Plan::with_item))]
fn add_item(alloc: Global, draft: &mut Draft, item: &Item) -> Result<(), NoMemory>
    requires { why_not_item draft.old item.now ≡ None }
    ensures ok { OnOk result (draft.new ≡ with_item draft.old item.now) }
    ensures unchanged { OnErr result (draft.new ≡ draft.old) }
{
    match item {
        Item::Grid(grid) => {
            draft.set_grid(Some(*grid));
            Ok(())
        }
        Item::Outer(points) => {
            let points = copied_points(alloc, points.as_slice())?;
            draft.set_outer(points);
            Ok(())
        }
        Item::Obstacle(name, points) => {
            let points = copied_points(alloc, points.as_slice())?;
            draft.add_obstacle(name.copy(), points)
        }
        Item::Screen(name, from, to) => draft.add_screen(name.copy(), *from, *to),
        Item::Route(name, from, to) => draft.add_route(name.copy(), *from, *to),
    }
}

/// The plan that the items make, which are added one after the other.
///
/// `Err(Bad)` names the first item that is refused on the plan of the items before it, and its first cause. The answer
/// is `Ok` exactly where the items are accepted and there is memory.
///
/// Cost: each new part is tested against those that are there, at most one touching test for each two edges.
pub fn check(alloc: Global, given: &PlanData) -> Result<Plan, CheckFault>
    ensures plan { IfOk result (λ plan. check_of given.now.items ≡ Ok plan) }
    ensures bad { IfErr result (λ fault. IfBad fault (λ item why. check_of given.now.items ≡ Err (item, why))) }
    ensures accepted { OnOk result (IsTrue (is_accepted given.now.items)) }
    ensures not_accepted { IfErr result (λ fault. IfBad fault (λ _ _. is_accepted given.now.items ≡ false)) }
{
    let items = given.items.as_slice();
    let mut draft = Draft::new(alloc);
    for (number, item) in items.iter().enumerate() {
        if let Some(why) = why_not_item(&draft, item) {
            return Err(CheckFault::Bad {
                item: number as u32,
                why,
            });
        }
        add_item(alloc, &mut draft, item)?;
    }
    if !draft.has_outer() {
        return Err(CheckFault::Bad {
            item: items.len() as u32,
            why: Why::Order,
        });
    }
    Ok(Plan::of_sound(draft))
}
