//! The trial plan of a number of boxes: a plan of any size to try the program with, from a formula alone.
//!
//! | item | what it is |
//! |---|---|
//! | [`trial`] | the items of the plan, which are accepted |
//! | [`GridSpec`], [`Item`], [`Items`], [`PlanData`], [`Point`], [`Points`], [`Name`] | what it is made of |
//! | [`NoMemory`] | what is answered where there is no memory |
//! | [`MAX_TRIAL_BOXES`] | how many boxes it may have |
//!
//! ```text
//!   ┌─────────┬─────────┐
//!   │  ┌────┐ │ ┌────┐  │      c by c cells of 100 by 100 for the least c that gives each box a cell of its own. Box i
//!   │  └────┘ │ │    │  │      has sides of 40, and 10 + (17 i mod 41) and 10 + (29 i mod 41) are left of it and below
//!   │  · · ·  │ └────┘  │      it in its cell. The grid has four points a cell.
//!   └─────────┴─────────┘
//! ```
//!
//! The formula is that of `report_spec`: `specs/Trial.antt`.
#![tactic(auto)]

mod boxes;
mod plans;
#[cfg(test)]
mod tests;

pub use options_spec::MAX_TRIAL_BOXES;
pub use plan_spec::{GridSpec, Item, Items, PlanData, Points};
pub use plane_spec::Point;
pub use plans::trial;
pub use text_spec::{Name, NoMemory};
