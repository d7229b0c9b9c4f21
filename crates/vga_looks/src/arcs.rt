//! The directions between which some points of a grid are.

ghost use Rattle.std.specs.Prelude.{◌≡◌, ◌<◌, ◌≤◌, All, false, length, true};
ghost use Rattle.plan_spec.specs.Accepted.{is_sound};
ghost use Rattle.plan_spec.specs.Grid.{grid_points};
ghost use Rattle.sight_sweep.specs.Arcs.{IsArc, IsLater};
ghost use Rattle.turn_laws.specs.Places.{place_of};
ghost use Rattle.view_laws.specs.Views.{is_in_arc};
ghost use Rattle.vga_looks.specs.Tables as tables;
ghost use Rattle.vga_looks.specs.Tables.{IsLaterIn, way_between};

use crate::grid_table::GridTable;
use exact_geom::{turns_left, vector};
use plan_check::Plan;
use plane_spec::Point;
use sight_sweep::Arc;

/// The direction from a point of the grid to a later one.
fn way_to(plan: &Plan, grid: &GridTable, i: u32, j: u32) -> Point
    requires grid { grid.now ≡ tables.grid_table_of plan.now }
    requires sound { is_sound plan.now ≡ true }
    requires later { IsLaterIn plan.now i j }
    ensures way { result ≡ way_between plan.now i j }
    ensures later { IsLater result }
{
    let _ = plan;
    vector(grid.point(i), grid.point(j))
}

/// Whether one of two directions of the half turn comes before the other.
fn is_before(d: Point, e: Point) -> bool
    requires d_later { IsLater d }
    requires e_later { IsLater e }
    ensures yes { result ≡ true → place_of d ≤ place_of e }
    ensures no { result ≡ false → place_of e ≤ place_of d }
{
    turns_left(d, e)
}

/// The first of two directions of the half turn.
fn first_of(d: Point, e: Point) -> Point
    requires d_later { IsLater d }
    requires e_later { IsLater e }
    ensures later { IsLater result }
    ensures one { place_of result ≤ place_of d }
    ensures other { place_of result ≤ place_of e }
{
    if is_before(d, e) { d } else { e }
}

/// The last of two directions of the half turn.
fn last_of(d: Point, e: Point) -> Point
    requires d_later { IsLater d }
    requires e_later { IsLater e }
    ensures later { IsLater result }
    ensures one { place_of d ≤ place_of result }
    ensures other { place_of e ≤ place_of result }
{
    if is_before(d, e) { e } else { d }
}

/// From the first to the last of the directions from a point of the grid to some later ones.
pub(crate) fn arc_to(plan: &Plan, grid: &GridTable, i: u32, numbers: &[u32]) -> Arc
    requires grid { grid.now ≡ tables.grid_table_of plan.now }
    requires sound { is_sound plan.now ≡ true }
    requires later { All (IsLaterIn plan.now i) numbers.now }
    ensures arc { IsArc result }
    ensures all { All (λ j. is_in_arc result (way_between plan.now i j) ≡ true) numbers.now }
{
    if numbers.is_empty() {
        return Arc::Later;
    }
    let mut first = way_to(plan, grid, i, numbers[0]);
    let mut last = first;
    for k in 0..numbers.len() {
        let way = way_to(plan, grid, i, numbers[k]);
        first = first_of(way, first);
        last = last_of(way, last);
    }
    Arc::Between(first, last)
}
