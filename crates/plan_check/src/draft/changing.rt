//! Changes of a draft. One that finds no memory leaves the draft as it was.

ghost use Rattle.std.specs.Prelude.{◌≡◌, ◌∷◌, ◌++◌, [], IsTrue, OnErr, OnOk, false, filter, if◌then◌else◌, map, not};
ghost use Rattle.std.specs.List.{list_any};
ghost use Rattle.plan_spec.specs.Plan.{is_obstacle_named, is_route_named, is_screen_named, obstacle, route, screen, with_grid, with_obstacles, with_outer, with_routes, with_screens};
ghost use Rattle.plan_spec.specs.Accepted.{is_sound};
ghost use Rattle.plan_spec.specs.Edits.{IsShift, shifted_obstacle, without_obstacle};

use crate::draft::Draft;
use crate::shifts::shifted_points;
use plan_spec::{GridSpec, Points};
use plane_spec::{Point, Segment};
use std::alloc::Global;
use text_spec::{Name, NoMemory};

impl Draft {
    /// Sets the outer polygon.
    pub(crate) fn set_outer(&mut self, points: Points)
        ensures { self.new ≡ with_outer self.old points }
    {
        self.outer = points;
    }

    /// Sets the grid.
    pub(crate) fn set_grid(&mut self, grid: Option<GridSpec>)
        ensures { self.new ≡ with_grid self.old grid }
    {
        self.grid = grid;
    }

    /// Adds an obstacle of a new name after the others. Without memory nothing changes.
    pub(crate) fn add_obstacle(&mut self, name: Name, points: Points) -> Result<(), NoMemory>
        requires { list_any (is_obstacle_named name) self.old.obstacles ≡ false }
        ensures ok { OnOk result (self.new ≡ with_obstacles self.old (self.old.obstacles ++ obstacle name points ∷ [])) }
        ensures unchanged { OnErr result (self.new ≡ self.old) }
    {
        match self.obstacles.insert(name, points) {
            Ok(_) => Ok(()),
            Err(_) => Err(NoMemory),
        }
    }

    /// Adds a screen of a new name after the others. Without memory nothing changes.
    pub(crate) fn add_screen(&mut self, name: Name, from: Point, to: Point) -> Result<(), NoMemory>
        requires { list_any (is_screen_named name) self.old.screens ≡ false }
        ensures ok { OnOk result (self.new ≡ with_screens self.old (self.old.screens ++ screen name from to ∷ [])) }
        ensures unchanged { OnErr result (self.new ≡ self.old) }
    {
        match self.screens.insert(name, Segment { a: from, b: to }) {
            Ok(_) => Ok(()),
            Err(_) => Err(NoMemory),
        }
    }

    /// Adds a route of a new name after the others. Without memory nothing changes.
    pub(crate) fn add_route(&mut self, name: Name, from: Point, to: Point) -> Result<(), NoMemory>
        requires { list_any (is_route_named name) self.old.routes ≡ false }
        ensures ok { OnOk result (self.new ≡ with_routes self.old (self.old.routes ++ route name from to ∷ [])) }
        ensures unchanged { OnErr result (self.new ≡ self.old) }
    {
        match self.routes.insert(name, Segment { a: from, b: to }) {
            Ok(_) => Ok(()),
            Err(_) => Err(NoMemory),
        }
    }

    /// Takes out the obstacle of this name. The others close up.
    pub(crate) fn remove_obstacle(&mut self, name: &Name)
        ensures { self.new ≡ with_obstacles self.old (without_obstacle name.now self.old.obstacles) }
    {
        self.obstacles.retain(|other, _| other != name);
    }

    /// Takes out the screen of this name. The others close up.
    pub(crate) fn remove_screen(&mut self, name: &Name)
        ensures { self.new ≡ with_screens self.old (filter (λ s. not (is_screen_named name.now s)) self.old.screens) }
    {
        self.screens.retain(|other, _| other != name);
    }

    /// Takes out the route of this name. The others close up.
    pub(crate) fn remove_route(&mut self, name: &Name)
        ensures { self.new ≡ with_routes self.old (filter (λ r. not (is_route_named name.now r)) self.old.routes) }
    {
        self.routes.retain(|other, _| other != name);
    }

    /// Moves the obstacle of this name, which keeps its place among the others. Without memory nothing changes.
    pub(crate) fn move_obstacle(
        &mut self,
        alloc: Global,
        name: &Name,
        dx: i64,
        dy: i64,
    ) -> Result<(), NoMemory>
        requires sound { IsTrue (is_sound self.old) }
        requires shift { IsShift dx dy }
        ensures ok { OnOk result (self.new ≡ with_obstacles self.old (map (λ o. if is_obstacle_named name.now o then shifted_obstacle dx dy o else o) self.old.obstacles)) }
        ensures unchanged { OnErr result (self.new ≡ self.old) }
    {
        let Some(points) = self.obstacles.get(name) else {
            return Ok(());
        };
        let moved = shifted_points(alloc, points.as_slice(), dx, dy)?;
        match self.obstacles.insert(name.copy(), moved) {
            Ok(_) => Ok(()),
            Err(_) => Err(NoMemory),
        }
    }
}
