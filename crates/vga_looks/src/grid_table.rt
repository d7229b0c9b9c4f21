//! The points of a grid, with what looks at many of them need.

ghost use Rattle.std.specs.Prelude.{◌≡◌, ◌<◌, All, IfOk, false, length, slice_index_or};
ghost use Rattle.std.proofs.Common.{get_or};
ghost use Rattle.plane_spec.specs.Vectors.{InRange};
ghost use Rattle.plan_spec.specs.Grid.{grid_points};
ghost use Rattle.vga_looks.specs.Tables as tables;
ghost use Rattle.vga_looks.specs.Tables.{nowhere};

use exact_geom::same_point;
use plan_check::Plan;
use plane_spec::Point;
use sight_sweep::{Bearing, bearing_between};
use std::alloc::Global;
use std::marker::Model;
use text_spec::NoMemory;
use vga_grid::{Grid, openness};

/// The points of a plan's grid, which of them are open, and the directions between them. Contracts see the first two.
///
/// The direction from one point to a later one is that from the grid's first point to the one that is as many numbers
/// on, or, where it leads to the left, that from the last point of the first row.
#[derive(Drop)]
pub struct GridTable {
    points: Vec<Point>,
    are_open: Vec<bool>,
    from_first: Vec<Bearing>,
    from_last: Vec<Bearing>,
    last: usize,
}

impl Model for GridTable {
    ghost use Rattle.std.specs.Prelude.{All};
    ghost use Rattle.plane_spec.specs.Vectors.{InRange};
    ghost use Rattle.vga_looks.specs.Tables.{OpenPoints};

    ghost Value = { OpenPoints };

    ghost view = { λ a. record { points = a.points.items; are_open = a.are_open.items } };

    ghost invariant = { λ a. All InRange a.points.items };
}

impl GridTable {
    /// The point of the number.
    pub fn point(&self, i: u32) -> Point
        requires { i < length self.now.points }
        ensures point { result ≡ get_or self.now.points i nowhere }
        ensures in_range { InRange result }
    {
        self.points[i as usize]
    }

    /// Whether the point of the number is open.
    pub fn is_open(&self, i: u32) -> bool
        requires { i < length self.now.are_open }
        ensures { result ≡ slice_index_or self.now.are_open i false }
    {
        self.are_open[i as usize]
    }

    /// The direction from the point of one number to that of a later one, or another.
    pub(crate) fn bearing(&self, i: u32, j: u32, is_leftward: bool) -> Option<Bearing> {
        let steps = j.wrapping_sub(i) as usize;
        if is_leftward {
            self.from_last.get(steps.wrapping_add(self.last)).copied()
        } else {
            self.from_first.get(steps).copied()
        }
    }
}

/// The points of the grid, by their numbers.
fn points_of(alloc: Global, grid: &Grid) -> Result<Vec<Point>, NoMemory>
    ensures points { IfOk result (λ points. points.items ≡ grid_points grid.now) }
    ensures in_range { IfOk result (λ points. All InRange points.items) }
{
    let mut points = Vec::new(alloc);
    for i in 0..grid.count() {
        points.push(grid.place(i))?;
    }
    Ok(points)
}

/// The direction from one point to another; any, where both are one.
fn bearing_of(p: Point, q: Point) -> Bearing
    requires p_in { InRange p }
    requires q_in { InRange q }
{
    if same_point(p, q) {
        return bearing_between(Point { x: 0, y: 0 }, Point { x: 1, y: 0 });
    }
    bearing_between(p, q)
}

/// The directions from a point to all of the points.
fn bearings_from(alloc: Global, p: Point, points: &[Point]) -> Result<Vec<Bearing>, NoMemory>
    requires p_in { InRange p }
    requires points_in { All InRange points.now }
{
    let mut bearings = Vec::new(alloc);
    for k in 0..points.len() {
        bearings.push(bearing_of(p, points[k]))?;
    }
    Ok(bearings)
}

/// The number of the last point of the grid's first row.
fn last_of_row(plan: &Plan) -> usize {
    match plan.grid() {
        Some(spec) => (spec.cols.unsigned_abs() as usize).saturating_sub(1),
        None => 0,
    }
}

/// The point of the number, or (0,0) where there is none.
fn point_or_zero(points: &[Point], number: usize) -> Point
    requires { All InRange points.now }
    ensures { InRange result }
{
    match points.get(number) {
        Some(point) => *point,
        None => Point { x: 0, y: 0 },
    }
}

/// What looks at the points of a plan's grid need. Make it once for all looks.
///
/// Cost: a test of openness and two divisions for each point.
pub fn grid_table_of(alloc: Global, plan: &Plan) -> Result<GridTable, NoMemory>
    ensures { IfOk result (λ table. table ≡ tables.grid_table_of plan.now) }
{
    let grid = Grid::of(plan);
    let points = points_of(alloc, &grid)?;
    let are_open = openness(alloc, plan, &grid)?;
    let last = last_of_row(plan);
    let first_point = point_or_zero(&points, 0);
    let last_point = point_or_zero(&points, last);
    let from_first = bearings_from(alloc, first_point, &points)?;
    let from_last = bearings_from(alloc, last_point, &points)?;
    Ok(GridTable {
        points,
        are_open,
        from_first,
        from_last,
        last,
    })
}
