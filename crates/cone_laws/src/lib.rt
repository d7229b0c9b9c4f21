//! Laws of cones: what the rule looks at in one corner, the cone of directions that lead into what is blocked, tells
//! on which side of the polygon a direction leads.
//!
//! ```text
//!       z             At v the walls u v and v z turn left, so the cone is what lies left of both, as d. Turned round,
//!        ╲            the corner is z v u and turns right, so its cone is what lies left of one of the turned walls,
//!      d  ╲           as e. Each direction but those along the walls is in one of the two cones.
//!   u ─────v     e
//! ```
//!
//! Into the cone, the edges go round as often as on the left of the walls: once for an obstacle, not at all for the
//! outer polygon, whose walls go the other way. Out of it, and along neither wall, a direction is in the cone of the
//! corner turned round, where the number is that of the right. So the local rule is a statement on windings; with it,
//! the rule of a whole segment becomes a walk along which the winding is watched.
//!
//! A law is a function without parameters and with an empty body, whose contract states it.
//!
//! | law | what it says | breaks if .. changes |
//! |---|---|---|
//! | [`the_cone_of_a_corner_leads_to_the_left`] | into the cone of an obstacle's corner the walls go round once, out of it not at all; of the outer polygon's, not at all | `is_in_cone`, `oriented_corners`, `oriented_walls`, `is_simple` |
//!
//! Proofs cite `proofs/Rounds`, a simple polygon's walls and corners, and `proofs/Beside`, both sides of a wall and a
//! cone.
#![tactic(auto)]

ghost use Rattle.std.specs.Prelude.{Contains, List, false, pos, true, ◌≡◌};
ghost use Rattle.plane_spec.specs.declared.Corner.{Corner};
ghost use Rattle.plane_spec.specs.declared.Point.{Point};
ghost use Rattle.plane_spec.specs.declared.Orientation.TheVariants.{Counterclockwise, Clockwise};
ghost use Rattle.plane_spec.specs.Cones.{is_in_cone};
ghost use Rattle.plane_spec.specs.Polygons.{is_simple};
ghost use Rattle.plane_spec.specs.Vectors.{vector};
ghost use Rattle.sight_spec.specs.Scene.{oriented_corners, oriented_walls};
ghost use Rattle.winding_laws.specs.Windings.{GoesRoundNear};
ghost use Rattle.cone_laws.specs.Off.{LeadsOff};

/// Close to a corner of a simple obstacle, in a direction of its cone, the obstacle's walls go round once; in a
/// direction that isn't in the cone and leads along neither wall, not at all. Close to a corner of a simple outer
/// polygon, in a direction of its cone, the outer polygon's walls don't go round: there is what is outside.
pub fn the_cone_of_a_corner_leads_to_the_left()
    ensures into { (points : List Point) (c : Corner) (d : Point) → is_simple points ≡ true
        → Contains (oriented_corners Counterclockwise points) c → is_in_cone c d ≡ true
        → GoesRoundNear (oriented_walls Counterclockwise points) c.here d (pos 1) }
    ensures out_of { (points : List Point) (c : Corner) (d : Point) → is_simple points ≡ true
        → Contains (oriented_corners Counterclockwise points) c → LeadsOff (vector c.prev c.here) (vector c.here c.next) d
        → is_in_cone c d ≡ false → GoesRoundNear (oriented_walls Counterclockwise points) c.here d (pos 0) }
    ensures into_outer { (points : List Point) (c : Corner) (d : Point) → is_simple points ≡ true
        → Contains (oriented_corners Clockwise points) c → is_in_cone c d ≡ true
        → GoesRoundNear (oriented_walls Clockwise points) c.here d (pos 0) }
{}
