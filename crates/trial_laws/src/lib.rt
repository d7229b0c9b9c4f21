//! Laws of the trial plan: it is accepted for each number of boxes that may be asked for.
//!
//! ```text
//!   ┌─────────┬─────────┐
//!   │  ┌────┐ │ ┌────┐  │      c by c cells of 100 by 100. Each box has sides of 40 and stands 10 to 50 from the
//!   │  └────┘ │ │    │  │      corner of its own cell, so it is strictly inside it, and 10 from the next one.
//!   │         │ └────┘  │
//!   └─────────┴─────────┘
//! ```
//!
//! A law is a function without parameters and with an empty body, whose contract states it.
//!
//! | law | what it says | breaks if .. changes |
//! |---|---|---|
//! | [`there_are_no_more_cells_than_needed`] | c is the least whole number whose square is at least the number of boxes | `root_above` |
//! | [`each_box_is_inside_its_cell`] | strictly, whichever the number of cells | `trial_box` |
//! | [`trial_plans_are_accepted`] | from 1 to 250 boxes | `trial_items`, `is_accepted` |
//!
//! Definitions: `Cells`. Proofs: `Root` (how many cells there are), `Cells` (boxes are apart) and `Accepted`.
#![tactic(auto)]

ghost use Rattle.std.specs.Prelude.{List, true, ℕ, ◌*◌, ◌≡◌, ◌≤◌};
ghost use Rattle.std.specs.List.{All};
ghost use Rattle.plane_spec.specs.declared.Point.{Point};
ghost use Rattle.plan_spec.specs.declared.item.Item.TheVariants.{Obstacle};
ghost use Rattle.plan_spec.specs.Accepted.{is_accepted};
ghost use Rattle.report_spec.specs.Trial.{root_above, trial_box, trial_items};
ghost use Rattle.rectangle_laws.specs.Rectangles.{IsStrictlyBetween};
ghost use Rattle.trial_laws.specs.Cells.{cell_high, cell_low};

/// There are c by c cells for the least whole number c whose square is at least the number of boxes.
pub fn there_are_no_more_cells_than_needed()
    ensures enough { (n : ℕ) → n ≤ root_above n * root_above n }
    ensures least { (n most : ℕ) → n ≤ most * most → root_above n ≤ most }
{}

/// The points of box `i` are strictly between two opposite corners of cell `i`.
pub fn each_box_is_inside_its_cell()
    ensures { (c i : ℕ) (name : List ℕ) (points : List Point) → trial_box c i ≡ Obstacle name points
        → All (IsStrictlyBetween (cell_low c i) (cell_high c i)) points }
{}

/// The items of a trial plan of 1 to 250 boxes are accepted.
pub fn trial_plans_are_accepted()
    ensures { (n : ℕ) → 1 ≤ n → n ≤ 250 → is_accepted (trial_items n) ≡ true }
{}
