//! Items, copied, which takes memory.

ghost use Rattle.std.specs.Prelude.{◌≡◌, ◌++◌, IfOk, OnOk};

use plan_check::copied_points;
use plan_spec::{Item, Items};
use std::alloc::Global;
use text_spec::NoMemory;

/// The same item again.
fn copied_item(alloc: Global, item: &Item) -> Result<Item, NoMemory>
    ensures { IfOk result (λ copy. copy ≡ item.now) }
{
    Ok(match item {
        Item::Grid(grid) => Item::Grid(*grid),
        Item::Outer(points) => Item::Outer(copied_points(alloc, points.as_slice())?),
        Item::Obstacle(name, points) => {
            let points = copied_points(alloc, points.as_slice())?;
            Item::Obstacle(name.copy(), points)
        }
        Item::Screen(name, from, to) => Item::Screen(name.copy(), *from, *to),
        Item::Route(name, from, to) => Item::Route(name.copy(), *from, *to),
    })
}

/// Appends copies of the items.
pub(crate) fn push_copies(alloc: Global, list: &mut Items, items: &[Item]) -> Result<(), NoMemory>
    ensures { OnOk result (list.new ≡ list.old ++ items.now) }
{
    for item in items {
        list.push(copied_item(alloc, item)?)?;
    }
    Ok(())
}
