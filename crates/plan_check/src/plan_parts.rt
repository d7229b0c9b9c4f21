//! The parts of a plan, copied and listed, which takes memory.

ghost use Rattle.std.specs.Prelude.{◌≡◌, ◌++◌, IfOk, OnOk, map};
ghost use Rattle.plan_spec.specs.Plan.{items_of, grid_items, obstacle_item, route_item, screen_item};

use crate::draft::Draft;
use indexmap::IndexMap;
use plan_spec::{Item, Items, Points};
use plane_spec::{Point, Segment};
use std::alloc::Global;
use text_spec::{Name, NoMemory};

// ---- copies

/// The same points again. `NoMemory` where there is no memory for them.
pub fn copied_points(alloc: Global, points: &[Point]) -> Result<Points, NoMemory>
    ensures { IfOk result (λ copy. copy ≡ points.now) }
{
    let mut copy = Points::new(alloc);
    for p in points {
        copy.push(*p)?;
    }
    Ok(copy)
}

/// The same polygons under the same names, in the same order.
pub(crate) fn copied_polygons(
    alloc: Global,
    polygons: &IndexMap<Name, Points>,
) -> Result<IndexMap<Name, Points>, NoMemory>
    ensures { IfOk result (λ copy. copy.entries ≡ polygons.now.entries) }
{
    let mut copy = IndexMap::new(alloc);
    for (name, points) in polygons {
        let points = copied_points(alloc, points.as_slice())?;
        match copy.insert(name.copy(), points) {
            Ok(_) => {}
            Err(_) => return Err(NoMemory),
        }
    }
    Ok(copy)
}

/// The same lines under the same names, in the same order.
pub(crate) fn copied_lines(
    alloc: Global,
    lines: &IndexMap<Name, Segment>,
) -> Result<IndexMap<Name, Segment>, NoMemory>
    ensures { IfOk result (λ copy. copy.entries ≡ lines.now.entries) }
{
    let mut copy = IndexMap::new(alloc);
    for (name, line) in lines {
        match copy.insert(name.copy(), *line) {
            Ok(_) => {}
            Err(_) => return Err(NoMemory),
        }
    }
    Ok(copy)
}

// ---- the items, as they are listed: the outer polygon, the grid, the obstacles, the screens, the routes

/// Appends the grid, where there is one.
fn push_grid(draft: &Draft, items: &mut Items) -> Result<(), NoMemory>
    ensures { OnOk result (items.new ≡ items.old ++ grid_items draft.now.grid) }
{
    if let Some(grid) = draft.grid() {
        items.push(Item::Grid(grid))?;
    }
    Ok(())
}

/// Appends the obstacles, copied.
fn push_obstacles(alloc: Global, draft: &Draft, items: &mut Items) -> Result<(), NoMemory>
    ensures { OnOk result (items.new ≡ items.old ++ map obstacle_item draft.now.obstacles) }
{
    for k in 0..draft.obstacles() {
        let points = copied_points(alloc, draft.obstacle(k))?;
        items.push(Item::Obstacle(draft.obstacle_name(k).copy(), points))?;
    }
    Ok(())
}

/// Appends the screens.
fn push_screens(draft: &Draft, items: &mut Items) -> Result<(), NoMemory>
    ensures { OnOk result (items.new ≡ items.old ++ map screen_item draft.now.screens) }
{
    for k in 0..draft.screens() {
        let screen = draft.screen(k);
        items.push(Item::Screen(screen.name, screen.from, screen.to))?;
    }
    Ok(())
}

/// Appends the routes.
fn push_routes(draft: &Draft, items: &mut Items) -> Result<(), NoMemory>
    ensures { OnOk result (items.new ≡ items.old ++ map route_item draft.now.routes) }
{
    for k in 0..draft.routes() {
        let route = draft.route(k);
        items.push(Item::Route(route.name, route.from, route.to))?;
    }
    Ok(())
}

/// The items of the plan, copied.
pub(crate) fn listed(alloc: Global, draft: &Draft) -> Result<Items, NoMemory>
    ensures { IfOk result (λ items. items ≡ items_of draft.now) }
{
    let mut items = Items::new(alloc);
    items.push(Item::Outer(copied_points(alloc, draft.outer())?))?;
    push_grid(draft, &mut items)?;
    push_obstacles(alloc, draft, &mut items)?;
    push_screens(draft, &mut items)?;
    push_routes(draft, &mut items)?;
    Ok(items)
}
