//! The boxes of a trial plan.

ghost use Rattle.std.specs.Prelude.{◌≡◌, ◌<◌, ◌≤◌, ◌≤ℤ◌, ◌++◌, IfOk, codes, pos};
ghost use Rattle.std.specs.Fmt.{decimal};
ghost use Rattle.options_spec.specs.declared.options.TheConstants.{MAX_TRIAL_BOXES};
ghost use Rattle.plane_spec.specs.declared.TheConstants.{MAX_COORDINATE};
ghost use Rattle.report_spec.specs.Trial.{square_at, trial_box};

use arrayvec::ArrayVec;
use itoa::Buffer;
use plan_spec::{Item, Points};
use plane_spec::Point;
use std::alloc::Global;
use text_spec::{Name, NoMemory};

/// A corner.
fn corner(x: u32, y: u32) -> Point
    ensures { result ≡ record { x = pos x; y = pos y } }
{
    Point {
        x: i64::from(x),
        y: i64::from(y),
    }
}

/// The square with sides of `side` from its lower left corner, counterclockwise.
pub fn square_at(alloc: Global, x: u32, y: u32, side: u32) -> Result<Points, NoMemory>
    requires x_in { pos x ≤ℤ MAX_COORDINATE }
    requires y_in { pos y ≤ℤ MAX_COORDINATE }
    requires side_in { pos side ≤ℤ MAX_COORDINATE }
    ensures { IfOk result (λ points. points ≡ square_at x y side) }
{
    let mut points = Points::new(alloc);
    points.push(corner(x, y))?;
    points.push(corner(x + side, y))?;
    points.push(corner(x + side, y + side))?;
    points.push(corner(x, y + side))?;
    Ok(points)
}

/// The name of box `i`: `b` and its number.
fn name_of_box(i: u32) -> Name
    requires { i < MAX_TRIAL_BOXES }
    ensures { result ≡ codes "b" ++ decimal i }
{
    let mut digits = Buffer::new();
    let mut bytes: ArrayVec<u8, 11> = ArrayVec::new();
    bytes.push(b'b');
    bytes
        .try_extend_from_slice(digits.format(i).as_bytes())
        .unwrap();
    Name::of(&bytes).unwrap()
}

/// Box `i` of a plan of `c` by `c` cells.
pub fn trial_box(alloc: Global, c: u32, i: u32) -> Result<Item, NoMemory>
    requires some { 0 < c }
    requires few { c ≤ 16 }
    requires i_in { i < MAX_TRIAL_BOXES }
    ensures { IfOk result (λ item. item ≡ trial_box c i) }
{
    let x = 100 * (i % c) + 10 + (17 * i) % 41;
    let y = 100 * (i / c) + 10 + (29 * i) % 41;
    Ok(Item::Obstacle(name_of_box(i), square_at(alloc, x, y, 40)?))
}
