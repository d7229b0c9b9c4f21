//! The parts of a plan, which need not be sound yet, and what can be read from them.

ghost use Rattle.std.specs.Prelude.{◌≡◌, ◌<◌, ◌≤◌, ◌+◌, ◌∷◌, [], IfOk, IfSome, drop, is_some, length, position};
ghost use Rattle.std.specs.List.{list_any};
ghost use Rattle.plan_spec.specs.declared.limits.TheConstants.{MAX_CORNERS};
ghost use Rattle.plan_spec.specs.Plan.{corner_count, empty_plan, has_outer, is_obstacle_named, is_route_named, is_screen_named};
ghost use Rattle.plan_spec.specs.Edits.{ends_named, points_named};
ghost use Rattle.plan_check.specs.Kept.{route_of_entry, screen_of_entry, obstacle_at};

mod changing;

use crate::plan_parts::{copied_lines, copied_points, copied_polygons};
use indexmap::IndexMap;
use plan_spec::{GridSpec, Points, Route, Screen};
use plane_spec::{Point, Segment};
use std::alloc::Global;
use std::marker::Model;
use text_spec::{Name, NoMemory};

/// The parts of a plan, each kind in plan order. Contracts see the plan that they make.
#[derive(Drop)]
pub(crate) struct Draft {
    outer: Points,
    grid: Option<GridSpec>,
    obstacles: IndexMap<Name, Points>,
    screens: IndexMap<Name, Segment>,
    routes: IndexMap<Name, Segment>,
}

impl Model for Draft {
    ghost use Rattle.plan_spec.specs.Plan.{Plan};
    ghost use Rattle.plan_check.specs.Kept.{plan_of_tables};

    ghost Value = { Plan };

    ghost view = { λ a. plan_of_tables a.outer a.grid a.obstacles.entries a.screens.entries a.routes.entries };
}

fn make_screen(name: &Name, line: &Segment) -> Screen
    ensures { result ≡ screen_of_entry (name.now, line.now) }
{
    Screen {
        name: name.copy(),
        from: line.a,
        to: line.b,
    }
}

fn make_route(name: &Name, line: &Segment) -> Route
    ensures { result ≡ route_of_entry (name.now, line.now) }
{
    Route {
        name: name.copy(),
        from: line.a,
        to: line.b,
    }
}

impl Draft {
    /// No parts, which take no memory.
    pub(crate) fn new(alloc: Global) -> Draft
        ensures { result ≡ empty_plan }
    {
        Draft {
            outer: Points::new(alloc),
            grid: None,
            obstacles: IndexMap::new(alloc),
            screens: IndexMap::new(alloc),
            routes: IndexMap::new(alloc),
        }
    }

    pub(crate) fn has_outer(&self) -> bool
        ensures { result ≡ has_outer self.now }
    {
        !self.outer.as_slice().is_empty()
    }

    pub(crate) fn outer(&self) -> &[Point]
        ensures { result.now ≡ self.now.outer }
    {
        self.outer.as_slice()
    }

    pub(crate) fn grid(&self) -> Option<GridSpec>
        ensures { result ≡ self.now.grid }
    {
        self.grid
    }

    pub(crate) fn obstacles(&self) -> usize
        ensures { result ≡ length self.now.obstacles }
    {
        self.obstacles.len()
    }

    pub(crate) fn obstacle_name(&self, k: usize) -> &Name
        requires { k < length self.now.obstacles }
        ensures { result.now ≡ (obstacle_at self.now k).name }
    {
        match self.obstacles.get_index(k) {
            Some((name, _)) => name,
            None => unreachable!(),
        }
    }

    pub(crate) fn obstacle(&self, k: usize) -> &[Point]
        requires { k < length self.now.obstacles }
        ensures points { result.now ≡ (obstacle_at self.now k).points }
        ensures next { drop k self.now.obstacles ≡ obstacle_at self.now k ∷ drop (k + 1) self.now.obstacles }
    {
        match self.obstacles.get_index(k) {
            Some((_, points)) => points.as_slice(),
            None => unreachable!(),
        }
    }

    pub(crate) fn screens(&self) -> usize
        ensures { result ≡ length self.now.screens }
    {
        self.screens.len()
    }

    pub(crate) fn screen(&self, k: usize) -> Screen
        requires { k < length self.now.screens }
        ensures { drop k self.now.screens ≡ result ∷ drop (k + 1) self.now.screens }
    {
        match self.screens.get_index(k) {
            Some((name, line)) => make_screen(name, line),
            None => unreachable!(),
        }
    }

    pub(crate) fn routes(&self) -> usize
        ensures { result ≡ length self.now.routes }
    {
        self.routes.len()
    }

    pub(crate) fn route(&self, k: usize) -> Route
        requires { k < length self.now.routes }
        ensures { drop k self.now.routes ≡ result ∷ drop (k + 1) self.now.routes }
    {
        match self.routes.get_index(k) {
            Some((name, line)) => make_route(name, line),
            None => unreachable!(),
        }
    }

    pub(crate) fn has_obstacle(&self, name: &Name) -> bool
        ensures { result ≡ list_any (is_obstacle_named name.now) self.now.obstacles }
    {
        self.obstacles.contains_key(name)
    }

    pub(crate) fn has_screen(&self, name: &Name) -> bool
        ensures { result ≡ list_any (is_screen_named name.now) self.now.screens }
    {
        self.screens.contains_key(name)
    }

    pub(crate) fn has_route(&self, name: &Name) -> bool
        ensures { result ≡ list_any (is_route_named name.now) self.now.routes }
    {
        self.routes.contains_key(name)
    }

    /// The corners of the outer polygon and of all obstacles, and the two ends of each screen.
    pub(crate) fn corners(&self) -> usize
        requires { corner_count self.now ≤ MAX_CORNERS }
        ensures { result ≡ corner_count self.now }
    {
        let mut corners = self.outer().len() + 2 * self.screens();
        for k in 0..self.obstacles() {
            corners += self.obstacle(k).len();
        }
        corners
    }

    pub(crate) fn route_named(&self, name: &Name) -> Option<usize>
        ensures { result ≡ position (is_route_named name.now) self.now.routes }
    {
        self.routes.get_index_of(name)
    }

    /// The points of the obstacle of this name, or `None` where there is none.
    pub(crate) fn polygon_named(&self, name: &Name) -> Option<&[Point]>
        ensures found { is_some result ≡ list_any (is_obstacle_named name.now) self.now.obstacles }
        ensures points { IfSome result (λ points. points.now ≡ points_named name.now self.now.obstacles) }
    {
        let Some(k) = self.obstacles.get_index_of(name) else {
            return None;
        };
        match self.obstacles.get_index(k) {
            Some((_, points)) => Some(points.as_slice()),
            None => unreachable!(),
        }
    }

    /// The screen of this name as a segment, or `None` where there is none.
    pub(crate) fn line_named(&self, name: &Name) -> Option<&Segment>
        ensures found { is_some result ≡ list_any (is_screen_named name.now) self.now.screens }
        ensures ends { IfSome result (λ line. line.now.a ∷ line.now.b ∷ [] ≡ ends_named name.now self.now.screens) }
    {
        let Some(k) = self.screens.get_index_of(name) else {
            return None;
        };
        match self.screens.get_index(k) {
            Some((_, line)) => Some(line),
            None => unreachable!(),
        }
    }

    /// The same parts again.
    pub(crate) fn copied(&self, alloc: Global) -> Result<Draft, NoMemory>
        ensures { IfOk result (λ copy. copy ≡ self.now) }
    {
        Ok(Draft {
            outer: copied_points(alloc, self.outer.as_slice())?,
            grid: self.grid,
            obstacles: copied_polygons(alloc, &self.obstacles)?,
            screens: copied_lines(alloc, &self.screens)?,
            routes: copied_lines(alloc, &self.routes)?,
        })
    }
}
