//! What is seen in a plan: its walls, screens and corners, which points see each other, how far a ray reaches, and
//! which points are open.
//!
//! | item | what it is |
//! |---|---|
//! | [`Wall`], [`Corner`] | a wall or a screen; a corner between two walls, or the end of a screen |
//! | [`Scene`], [`scene_of`] | the walls, screens and corners of an accepted plan, in order |
//! | [`in_cone`] | whether a direction leads from a corner into what is blocked |
//! | [`free`] | whether two points see each other |
//! | [`sight_is_mutual`] | sight goes both ways |
//! | [`Hit`] | a `t` at which a ray is stopped, not reduced |
//! | [`blocker_hit`], [`corner_hit`], [`start_hit`] | where a ray meets a wall or screen, runs into a corner, or begins in a wall |
//! | [`wall_parameter`] | where a line meets the line of a wall or screen |
//! | [`nearer`] | the hit that comes first |
//! | [`stop`], [`near_wall`] | how far a ray reaches, and which wall or screen it meets first |
//! | [`stops_are_small`] | a stop has small parts and is never behind |
//! | [`stops_go_on`] | the stop from a later point of a ray, by the stop from its beginning |
//! | [`near_walls_are_numbered`] | the number of a nearest wall is below that of walls and screens |
//! | [`is_open`] | whether a point is open: in the outer polygon, and inside no obstacle |
//! | [`types_are_shared`] | a scene may be moved to a thread and shared between threads |
//!
//! What is blocked lies left of each wall: the outer polygon's walls are directed clockwise, those of obstacles
//! counterclockwise, whichever way their points were given. A segment between two points is free where it crosses no
//! wall and no screen properly, has no wall on whose left it begins or ends, and passes through no corner into what is
//! blocked:
//!
//! ```text
//!   p-----+---q    grazes a corner: free        p             passes through two corners: blocked
//!         |####                                   \
//!         |####                                     +-------.
//!                                                   |#######|
//!                                                   '-------+
//!                                                             \
//!                                                               q
//! ```
#![tactic(auto)]

mod cone;
mod hits;
mod openness;
mod orientation;
mod scene;
mod sight;
mod stops;

pub use cone::in_cone;
pub use hits::{Hit, blocker_hit, corner_hit, nearer, start_hit, wall_parameter};
pub use openness::is_open;
pub use plane_spec::{Corner, Segment as Wall};
pub use scene::{Scene, scene_of, types_are_shared};
pub use sight::{free, sight_is_mutual};
pub use stops::{near_wall, near_walls_are_numbered, stop, stops_are_small, stops_go_on};
