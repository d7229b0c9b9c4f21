//! Tests of a grid, whose numbers may be any.

ghost use Rattle.std.specs.Prelude.{◌≡◌, ◌^◌, ◌&&◌, pos, ◌≤ℤ◌, ◌+ℤ◌, ◌-ℤ◌, ◌*ℤ◌, int_le};
ghost use Rattle.std.specs.Bool.{OnTrue};
ghost use Rattle.plane_spec.specs.Vectors as vectors;
ghost use Rattle.plan_spec.specs.declared.limits.TheConstants.{MAX_STEP};
ghost use Rattle.plan_spec.specs.Accepted as accepted;

use plan_spec::{GridSpec, MAX_GRID_POINTS, MAX_STEP};
use plane_spec::MAX_COORDINATE;

/// Coordinates of a grid are computed, and may pass 64 bits before they are tested.
const LARGEST: i128 = MAX_COORDINATE as i128;

/// The product, which always fits twice as many bits.
fn product(a: i64, b: i64) -> i128
    ensures value { result ≡ a *ℤ b }
    ensures within { vectors.IsWithin (pos (2 ^ 126)) result }
{
    i128::from(a) * i128::from(b)
}

/// The number of steps to the last of `count` coordinates.
fn steps(count: i64) -> i64
    requires { pos 1 ≤ℤ count }
    ensures { result ≡ count -ℤ pos 1 }
{
    count - 1
}

/// A coordinate moved by a product.
fn moved(first: i64, by: i128) -> i128
    requires { vectors.IsWithin (pos (2 ^ 126)) by }
    ensures { result ≡ first +ℤ by }
{
    i128::from(first) + by
}

/// The last of `count` coordinates that begin at `first` and are `step` apart.
fn last_coordinate(first: i64, step: i64, count: i64) -> i128
    requires { pos 1 ≤ℤ count }
    ensures { result ≡ (first +ℤ (step *ℤ (count -ℤ pos 1))) }
{
    moved(first, product(step, steps(count)))
}

fn is_coordinate(z: i128) -> bool
    ensures { result ≡ vectors.is_coordinate z }
{
    -LARGEST <= z && z <= LARGEST
}

/// Whether the first and the last of `count` coordinates are in range.
fn is_row_in_range(first: i64, step: i64, count: i64) -> bool
    requires { pos 1 ≤ℤ count }
    ensures { result ≡ accepted.is_row_in_range first step count }
{
    is_coordinate(i128::from(first)) && is_coordinate(last_coordinate(first, step, count))
}

fn is_from_one(most: i64, z: i64) -> bool
    ensures { result ≡ accepted.is_from_one most z }
{
    1 <= z && z <= most
}

/// Whether the step is at least 1 and not too long, and there is at least one column and one row.
fn has_points(grid: GridSpec) -> bool
    ensures value { result ≡ (accepted.is_from_one MAX_STEP grid.step && (int_le (pos 1) grid.cols && int_le (pos 1) grid.rows)) }
    ensures cols { OnTrue result (pos 1 ≤ℤ grid.cols) }
    ensures rows { OnTrue result (pos 1 ≤ℤ grid.rows) }
{
    is_from_one(MAX_STEP, grid.step) && 1 <= grid.cols && 1 <= grid.rows
}

/// Whether the step is at least 1 and not too long, there is at least one column and one row, and all points are in
/// range.
#[tactic(auto, unfolding(plan_spec::specs::Accepted::is_grid_in_range))]
pub(crate) fn is_grid_in_range(grid: GridSpec) -> bool
    ensures { result ≡ accepted.is_grid_in_range grid }
{
    if !has_points(grid) {
        return false;
    }
    is_row_in_range(grid.x0, grid.step, grid.cols) && is_row_in_range(grid.y0, grid.step, grid.rows)
}

/// Whether there are no more points than a grid may have.
pub(crate) fn is_grid_small(grid: GridSpec) -> bool
    ensures { result ≡ accepted.is_grid_small grid }
{
    product(grid.cols, grid.rows) <= MAX_GRID_POINTS as i128
}
