//! Accepted floor plans and their edits.
//!
//! | item | what it is |
//! |---|---|
//! | [`Plan`] | a plan that is accepted, and what can be read from one |
//! | [`check`], [`CheckFault`] | the plan that items make, or the first item that is refused and why |
//! | [`Item`], [`Items`], [`PlanData`], [`Points`] | a plan as it is given, item by item |
//! | [`GridSpec`], [`Screen`], [`Route`] | the parts of a plan that aren't polygons |
//! | [`Edit`], [`EditFault`], [`Changed`] | a change of a plan, why it is refused, and the boxes in which something changes |
//! | [`Why`], [`Limit`] | why an item or an edit is refused |
//! | [`MAX_OBSTACLES`], [`MAX_CORNERS`], .. | how much a plan may have |
//! | [`copied_points`] | a second list of the same points |
//! | [`Point`], [`PlanBox`] | a point, or a direction; a box with sides along the axes |
//! | [`Name`], [`NoMemory`] | a name; the answer for out of memory |
#![tactic(auto)]

mod boxes;
mod checking;
mod draft;
mod editing;
mod grid;
mod place_refusals;
mod plan;
mod plan_parts;
mod polygons;
mod refusals;
mod shape_refusals;
mod sharing;
mod shifts;

pub use checking::{CheckFault, check};
pub use editing::EditFault;
pub use plan::Plan;
pub use plan_parts::copied_points;
pub use plan_spec::{
    Changed, Edit, GridSpec, Item, Items, Limit, MAX_CORNERS, MAX_GRID_POINTS, MAX_OBSTACLES,
    MAX_ROUTES, MAX_SCREENS, MAX_SHIFT, MAX_STEP, PlanData, Points, Route, Screen, Why,
};
pub use plane_spec::{PlanBox, Point};
pub use sharing::types_are_shared;
pub use text_spec::{Name, NoMemory};
