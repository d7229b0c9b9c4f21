//! The angular sweep: what is seen from one point all round, and answers for many targets at once.
//!
//! | item | what it is |
//! |---|---|
//! | [`SceneTable`], [`table_of`] | a scene with what a look finds in it: made once, used by each look |
//! | [`Arc`], [`View`], [`Sector`], [`Front`], [`Ground`] | the directions that are looked in, and what is seen there |
//! | [`look`] | the view from a station |
//! | [`Target`], [`Answer`] | a point or a ray that is asked for, and what is answered |
//! | [`sweep`] | answers all targets from one point |
//! | [`sight_by`], [`Sighting`] | whether a view sees a point |
//! | [`sight_near`], [`Gap`], [`first_gap`] | the same, asked of many points in turn |
//! | [`Bearing`], [`bearing_between`] | the direction to such a point with its place, made beforehand |
//! | [`is_led_into`] | whether a direction leads from what the station stands on into what is blocked |
//! | [`place_of`] | the place of a direction on the circle, as a number |
//! | [`Steps`] | how many sweeps were made |
//! | [`types_are_shared`] | all of these may be shared between threads |
//!
//! The directions of the corners are gone through once, counterclockwise from (1,0). On the way those walls and screens
//! are kept that the direction spans strictly, in their order from the station outwards, so that the nearest one is the
//! first:
//!
//! ```text
//!        \   begins      \ d
//!         \ +-------------\------------+ ends
//!          \               \
//!           \  +------------\---+
//!            \               \
//!             p ------------- p
//! ```
//!
//! What near walls hide is left out before, so that few corners are gone past. A wall or screen may go where one kept
//! wall, its cover, has both of its ends between the directions to the cover's ends and behind the cover's line: each
//! direction that meets it meets the cover first. A corner may go where a cover hides it and nothing ends there that is
//! kept. What only several covers hide together stays:
//!
//! ```text
//!        +--+      +--+
//!        |A |      |B |        A is hidden whole by the cover. Of B the left wall is hidden and goes; its right wall
//!        +--+      +--+        stays, and so do that wall's two corners.
//!      ==============   cover
//!
//!             p
//! ```
#![tactic(auto)]

mod active;
mod answering;
mod answers;
mod arcs;
mod around;
mod bearing;
mod bins;
mod blocker;
mod corners;
mod count;
mod covers;
mod events;
mod flags;
mod grounds;
mod hiding;
mod hits;
mod left_out;
mod looking;
mod nearest;
mod places;
mod products;
mod push;
mod range;
mod reach;
mod round;
mod row;
mod shared;
mod sides;
mod table;
mod told;

pub use answering::{answer_by, sweep};
pub use answers::Answer;
pub use bearing::{Bearing, bearing_between};
pub use count::Steps;
pub use looking::look;
pub use places::place_of;
pub use reach::is_led_into;
pub use row::{Gap, Sighting, first_gap, sight_by, sight_near};
pub use shared::types_are_shared;
pub use sight_spec::Target;
pub use table::{SceneTable, table_of};
pub use view_laws::{Arc, Front, Ground, Sector, View};
