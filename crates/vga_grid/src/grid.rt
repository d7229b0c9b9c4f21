//! The points of a plan's grid, numbered row by row.

ghost use Rattle.std.specs.Prelude.{◌≡◌, ◌≢◌, ℕ, ◌*◌, ◌<◌, ◌≤◌, ℤ, pos, ◌+ℤ◌, ◌*ℤ◌, ◌≤ℤ◌, unsigned_abs, length, IfOk, IfSome, IfNone, IsTrue, Some};
ghost use Rattle.plane_spec.specs.Vectors.{InRange, IsWithin};
ghost use Rattle.plane_spec.specs.declared.TheConstants.{MAX_COORDINATE};
ghost use Rattle.plan_spec.specs.declared.limits.TheConstants.{MAX_GRID_POINTS, MAX_STEP};
ghost use Rattle.plan_spec.specs.Accepted.{is_sound};
ghost use Rattle.plan_spec.specs.Grid as grid;
ghost use Rattle.plan_spec.specs.Ranges.{IsFromTo, IsGridInRange};
ghost use Rattle.sight_spec.specs.Visibility as visibility;

use crate::obstacles::{is_open_by, obstacle_boxes};
use plan_check::Plan;
use plan_spec::GridSpec;
use plane_spec::Point;
use std::alloc::Global;
use std::marker::Model;
use text_spec::NoMemory;

/// The grid of a plan. Contracts see what the plan says of it, which is nothing where it has none.
#[derive(Drop)]
pub struct Grid {
    spec: Option<GridSpec>,
}

impl Model for Grid {
    ghost use Rattle.std.specs.Prelude.{Option, IfSome};
    ghost use Rattle.plan_spec.specs.declared.item.GridSpec.{GridSpec as Given};
    ghost use Rattle.plan_spec.specs.Ranges.{IsGridInRange};

    ghost Value = { Option Given };

    ghost view = { λ a. a.spec };

    ghost invariant = { λ a. IfSome a.spec IsGridInRange };
}

/// A number of columns or rows.
fn count(z: i64) -> u32
    requires { IsFromTo (pos 1) (pos MAX_GRID_POINTS) z }
    ensures value { result ≡ unsigned_abs z }
    ensures at_most { result ≤ MAX_GRID_POINTS }
{
    z as u32
}

/// How many points a grid has: its columns times its rows.
fn count_of(g: GridSpec) -> u32
    requires { IsGridInRange g }
    ensures count { result ≡ length (grid.grid_points (Some g)) }
    ensures at_most { result ≤ MAX_GRID_POINTS }
{
    count(g.cols) * count(g.rows)
}

/// A coordinate of the points in column or row `k`.
fn coordinate(first: i64, step: i64, k: u32) -> i64
    requires first_in { IsWithin MAX_COORDINATE first }
    requires step_in { IsFromTo (pos 1) MAX_STEP step }
    requires k_in { k < MAX_GRID_POINTS }
    ensures { result ≡ first +ℤ step *ℤ pos k }
{
    first + step * i64::from(k)
}

/// The point in a row and a column.
fn point_at(g: GridSpec, row: u32, col: u32) -> Point
    requires grid { IsGridInRange g }
    requires row_in { row < MAX_GRID_POINTS }
    requires col_in { col < MAX_GRID_POINTS }
    ensures { result ≡ grid.point_at g row col }
{
    Point {
        x: coordinate(g.x0, g.step, col),
        y: coordinate(g.y0, g.step, row),
    }
}

/// The point of a number.
fn place_in(g: GridSpec, i: u32) -> Point
    requires grid { IsGridInRange g }
    requires i_in { i < length (grid.grid_points (Some g)) }
    ensures { result ≡ grid.point_of_number (Some g) i }
{
    let cols = count(g.cols);
    point_at(g, i / cols, i % cols)
}

/// How far `z` lies past `first`, or `None` exactly where it lies before it.
fn distance(first: i64, z: i64) -> Option<u64>
    ensures some { IfSome result (λ d. first +ℤ pos d ≡ z) }
    ensures none { IfNone result ((d : ℕ) → first +ℤ pos d ≢ z) }
{
    if z < first {
        return None;
    }
    Some((i128::from(z) - i128::from(first)) as u64)
}

/// How far columns and rows lie apart.
fn step_of(step: i64) -> u64
    requires { IsFromTo (pos 1) MAX_STEP step }
    ensures value { pos result ≡ step }
    ensures nonzero { 0 < result }
{
    step as u64
}

/// The number of the column or row at coordinate `z`, of `count`, or `None` exactly where there is none.
fn number_along(first: i64, step: i64, count: u32, z: i64) -> Option<u32>
    requires step_in { IsFromTo (pos 1) MAX_STEP step }
    ensures some { IfSome result (λ k. (k < count) × (first +ℤ step *ℤ pos k ≡ z)) }
    ensures none { IfNone result ((k : ℕ) → k < count → first +ℤ step *ℤ pos k ≢ z) }
{
    let distance = distance(first, z)?;
    let step = step_of(step);
    if distance % step != 0 {
        return None;
    }
    let k = distance / step;
    if k >= u64::from(count) {
        return None;
    }
    Some(k as u32)
}

/// The number of the grid point at `x`, or `None` exactly where none stands there.
fn number_in(g: GridSpec, x: Point) -> Option<u32>
    requires { IsGridInRange g }
    ensures { result ≡ grid.number_of_point (Some g) x }
{
    let cols = count(g.cols);
    let col = number_along(g.x0, g.step, cols, x.x)?;
    let row = number_along(g.y0, g.step, count(g.rows), x.y)?;
    Some(row * cols + col)
}

impl Grid {
    /// The grid of a plan.
    pub fn of(plan: &Plan) -> Grid
        ensures grid { result ≡ plan.now.grid }
        ensures sound { IsTrue (is_sound plan.now) }
    {
        Grid { spec: plan.grid() }
    }

    /// How many points the grid has: its columns times its rows, and 0 where the plan has no grid.
    pub fn count(&self) -> u32
        ensures count { result ≡ length (grid.grid_points self.now) }
        ensures at_most { result ≤ MAX_GRID_POINTS }
    {
        match self.spec {
            Some(g) => count_of(g),
            None => 0,
        }
    }

    /// The point of number `i`: number `row * cols + col` stands at `(x0 + step * col, y0 + step * row)`.
    pub fn place(&self, i: u32) -> Point
        requires { i < length (grid.grid_points self.now) }
        ensures place { result ≡ grid.point_of_number self.now i }
        ensures in_range { InRange result }
    {
        match self.spec {
            Some(g) => place_in(g, i),
            None => Point { x: 0, y: 0 },
        }
    }

    /// The number of the grid point at `x`, or `None` exactly where none stands there. `x` may be any point.
    pub fn number_at(&self, x: Point) -> Option<u32>
        ensures { result ≡ grid.number_of_point self.now x }
    {
        match self.spec {
            Some(g) => number_in(g, x),
            None => None,
        }
    }
}

/// The open points of a plan's grid in order, each beside its number.
///
/// Cost: for each point of the grid a pass over the outer polygon, a comparison with the box of each obstacle, and a
/// pass over those whose box it is in.
pub fn open_points(alloc: Global, plan: &Plan) -> Result<Vec<(u32, Point)>, NoMemory>
    ensures points { IfOk result (λ points. points.items ≡ visibility.open_points plan.now) }
    ensures sound { IsTrue (is_sound plan.now) }
{
    let grid = Grid::of(plan);
    let boxes = obstacle_boxes(alloc, plan)?;
    let mut open = Vec::new(alloc);
    for number in 0..grid.count() {
        let point = grid.place(number);
        if is_open_by(plan, &boxes, point) {
            open.push((number, point))?;
        }
    }
    Ok(open)
}
