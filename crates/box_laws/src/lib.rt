//! Laws of boxes: what they hold, and which segments meet them.
//!
//! A law is a function without parameters and with an empty body, whose contract states it. Boxes, points and
//! polygons may be any, and coordinates are any whole numbers.
//!
//! | law | what it says |
//! |---|---|
//! | [`the_box_of_points_holds_them`] | the least box of a list of points holds each of them |
//! | [`what_is_inside_a_polygon_is_in_its_box`] | a box that holds all points of a polygon holds each point inside it |
//! | [`a_segment_that_ends_in_a_box_meets_it`] | a segment with an end in a box meets the box |
//! | [`what_blocks_a_segment_in_a_box_makes_it_meet_the_box`] | a segment that a wall, a screen or a corner in a box blocks meets the box |
//!
//! The first rests on the box of points, the others on when a segment meets a box (`plane_spec`, `Boxes`). Besides,
//! the second breaks if a point is inside a polygon otherwise (`plane_spec`, `Polygons`), and the last if a wall, a
//! screen or a corner blocks a segment otherwise (`sight_spec`, `Sight`).
//!
//! Proofs cite the laws by the lemmas in `proofs/`: `Held`, `Within`, `Touching`, `Crossing` and `Blocking`. `Parts`
//! says that what holds of all points of a polygon holds of the ends of its walls and of its corners.
#![tactic(auto)]

ghost use Rattle.std.specs.Prelude.{◌≡◌, List, Some, true};
ghost use Rattle.std.specs.List.{All};
ghost use Rattle.plane_spec.specs.declared.Corner.{Corner};
ghost use Rattle.plane_spec.specs.declared.PlanBox.{PlanBox};
ghost use Rattle.plane_spec.specs.declared.Point.{Point};
ghost use Rattle.plane_spec.specs.declared.Segment.{Segment};
ghost use Rattle.plane_spec.specs.Boxes.{box_of_points, does_meet_box};
ghost use Rattle.plane_spec.specs.Polygons.{is_inside};
ghost use Rattle.sight_spec.specs.Sight.{corner_blocks, crosses, starts_or_ends_in_wall};
ghost use Rattle.box_laws.specs.Boxes.{IsIn, OfCorner, OfEnds};

/// The least box of a list of points holds each of them.
pub fn the_box_of_points_holds_them()
    ensures { (points : List Point) (area : PlanBox) → box_of_points points ≡ Some area → All (IsIn area) points }
{}

/// A box that holds all points of a polygon holds each point inside it. The polygon may be any list of points.
pub fn what_is_inside_a_polygon_is_in_its_box()
    ensures { (x : Point) (points : List Point) (area : PlanBox) → All (IsIn area) points → is_inside x points ≡ true
        → IsIn area x }
{}

/// A segment that begins or ends in a box meets the box. With one point taken twice, it says so of a point.
pub fn a_segment_that_ends_in_a_box_meets_it()
    ensures first { (p q : Point) (area : PlanBox) → IsIn area p → does_meet_box p q area ≡ true }
    ensures second { (p q : Point) (area : PlanBox) → IsIn area q → does_meet_box p q area ≡ true }
{}

/// A segment meets the box of whatever blocks it: a wall or screen that it crosses, a wall that it enters, a corner
/// that it would pass through.
pub fn what_blocks_a_segment_in_a_box_makes_it_meet_the_box()
    ensures crossed { (p q : Point) (w : Segment) (area : PlanBox) → OfEnds (IsIn area) w → crosses p q w ≡ true
        → does_meet_box p q area ≡ true }
    ensures entered { (p q : Point) (w : Segment) (area : PlanBox) → OfEnds (IsIn area) w → starts_or_ends_in_wall p q w ≡ true
        → does_meet_box p q area ≡ true }
    ensures corner { (p q : Point) (c : Corner) (area : PlanBox) → OfCorner (IsIn area) c → corner_blocks p q c ≡ true
        → does_meet_box p q area ≡ true }
{}
