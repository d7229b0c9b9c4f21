//! Laws of convex polygons: what is inside one is what is strictly left of all its walls, and so sight in a plan of
//! convex polygons is told by what a segment passes through.
//!
//! ```text
//!   p ──────4━━━━━━━3──── r   p sees r along the upper wall and past both its corners: no point of the way is strictly
//!       ╲   ┃       ┃         left of all four walls. It doesn't see s, since the way there passes through the box:
//!          ╲┃       ┃         between the walls it is strictly left of all of them.
//!           ┃  ╲    ┃
//!           1━━━━━╲━2
//!                     ╲ s
//! ```
//!
//! A polygon's walls, directed as an obstacle's, have its inside on their left. It is convex where each corner is on
//! or left of each wall. A point that is strictly left of all walls sees the beginning of a wall over such points
//! alone; the winding near that wall's left is 1, and no wall is touched on the way, so it is 1 at the point too, and
//! the point is inside. A point on the line of a wall or right of it, and on no wall, sees far away from the polygon
//! on that side, where the winding is 0, so it isn't inside. The laws of simple polygons then say the rest: a convex
//! obstacle blocks what passes through its inside, a convex outer polygon blocks nothing, and in a sound plan the
//! open points of a segment are those that are strictly inside no obstacle.
//!
//! A law is a function without parameters and with an empty body, whose contract states it. Polygons may have
//! straight corners, and their points may go round either way; coordinates are any whole numbers.
//!
//! | law | what it says | breaks if .. changes |
//! |---|---|---|
//! | [`strictly_inside_is_inside`] | what is strictly left of all walls of a simple convex polygon is inside it | `is_inside`, `oriented_walls`, `is_simple` |
//! | [`inside_is_strictly_inside`] | what is inside a convex polygon is strictly left of all its walls | `is_inside`, `oriented_walls` |
//! | [`no_sight_through_a_convex_obstacle`] | a segment that passes through a simple convex obstacle is blocked | `is_blocked`, `is_in_cone`, `is_inside` |
//! | [`a_convex_obstacle_blocks_no_more`] | a segment that such an obstacle blocks passes through it | the same |
//! | [`a_convex_outer_polygon_blocks_nothing`] | between points on or inside it, a convex outer polygon is never in the way | `is_blocked`, `is_in_cone`, `is_inside` |
//! | [`sight_among_convex_polygons`] | in a plan of convex polygons, sound or not, two points see each other exactly where they differ, no screen is crossed properly and no obstacle passed through | `are_in_sight`, `scene_of` |
//! | [`what_is_seen_among_convex_polygons`] | the same of open points of a sound plan | `are_in_sight`, `is_sound`, `is_open` |
//! | [`seeing_past_is_seeing_over_open_points`] | there, that is what plane geometry says of the whole segment | `is_open`, `is_inside` |
//! | [`no_sight_between_open_points_through_a_convex_obstacle`] | an open point sees nothing through a convex obstacle of a sound plan | `are_in_sight`, `is_sound` |
#![tactic(auto)]

mod inside;
mod obstacles;
mod plans;

pub use inside::{inside_is_strictly_inside, strictly_inside_is_inside};
pub use obstacles::{
    a_convex_obstacle_blocks_no_more, a_convex_outer_polygon_blocks_nothing,
    no_sight_through_a_convex_obstacle,
};
pub use plans::{
    no_sight_between_open_points_through_a_convex_obstacle, seeing_past_is_seeing_over_open_points,
    sight_among_convex_polygons, what_is_seen_among_convex_polygons,
};
