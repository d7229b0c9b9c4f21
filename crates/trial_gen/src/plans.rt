//! Trial plans.

ghost use Rattle.std.specs.Prelude.{◌≡◌, ◌<◌, ◌≤◌, ◌*◌, IfOk, IsTrue, pos};
ghost use Rattle.options_spec.specs.declared.options.TheConstants.{MAX_TRIAL_BOXES};
ghost use Rattle.plan_spec.specs.Accepted.{is_accepted};
ghost use Rattle.report_spec.specs.Trial.{root_above, trial_items};

use crate::boxes::{square_at, trial_box};
use options_spec::MAX_TRIAL_BOXES;
use plan_spec::{GridSpec, Item, Items, PlanData};
use std::alloc::Global;
use text_spec::NoMemory;

/// The least whole number whose square is at least `n`: 1 for 1, 2 for 2 to 4, 3 for 5 to 9, .., 16 for 226 to 256.
fn root_above(n: u32) -> u32
    requires { n ≤ MAX_TRIAL_BOXES }
    ensures value { result ≡ root_above n }
    ensures few { result ≤ 16 }
    ensures some { 0 < n → 0 < result }
{
    let mut root = 0;
    while root * root < n {
        root += 1;
    }
    root
}

/// The grid of `c` by `c` cells, with four points a cell.
fn grid(c: u32) -> GridSpec
    requires { c ≤ 16 }
    ensures { result ≡ record { step = pos 50; x0 = pos 25; y0 = pos 25; cols = pos (2 * c); rows = pos (2 * c) } }
{
    GridSpec {
        step: 50,
        x0: 25,
        y0: 25,
        cols: i64::from(2 * c),
        rows: i64::from(2 * c),
    }
}

/// The items of the trial plan of `n` boxes: a square room, a grid of four points a cell, and the boxes. They are
/// accepted.
///
/// Cost: one pass over the boxes, and memory for the items.
pub fn trial(alloc: Global, n: u32) -> Result<PlanData, NoMemory>
    requires some { 1 ≤ n }
    requires few { n ≤ MAX_TRIAL_BOXES }
    ensures items { IfOk result (λ plan. plan.items ≡ trial_items n) }
    ensures accepted { IfOk result (λ plan. IsTrue (is_accepted plan.items)) }
{
    let c = root_above(n);
    let mut items = Items::new(alloc);
    items.push(Item::Outer(square_at(alloc, 0, 0, 100 * c)?))?;
    items.push(Item::Grid(grid(c)))?;
    for i in 0..n {
        items.push(trial_box(alloc, c, i)?)?;
    }
    Ok(PlanData { items })
}
