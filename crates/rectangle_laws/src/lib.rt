//! Laws of boxes as polygons: they are simple, those apart don't meet, and what is strictly between two corners of one
//! lies within it.
//!
//! ```text
//!   ┌───────────────┐ q
//!   │  ┌────┐ ┌───┐ │      The inner boxes are strictly between p and q, so they lie within the outer one, and each
//!   │  └────┘ └───┘ │      of them ends before the other begins, so they don't meet.
//! p └───────────────┘
//! ```
//!
//! A law is a function without parameters and with an empty body, whose contract states it. Coordinates are any whole
//! numbers.
//!
//! | law | what it says | breaks if .. changes |
//! |---|---|---|
//! | [`a_box_is_a_simple_polygon`] | a box with sides longer than 0 is a simple polygon | `is_simple` |
//! | [`segments_in_boxes_apart_dont_touch`] | segments between points of boxes that are apart don't touch | `do_touch` |
//! | [`polygons_in_boxes_apart_dont_meet`] | polygons whose least boxes are apart don't meet | `polygons_meet`, `box_of_points` |
//! | [`what_is_strictly_in_a_box_lies_within_it`] | a polygon whose points are strictly between two corners of a box lies within it | `lies_within` |
//!
//! Proofs cite the laws by the lemmas in `proofs/`: `Apart`, `Simple` and `Within`.
#![tactic(auto)]

ghost use Rattle.std.specs.Prelude.{false, true, List, Some, ◌≡◌, ◌≢◌};
ghost use Rattle.std.specs.List.{All};
ghost use Rattle.plane_spec.specs.declared.PlanBox.{PlanBox};
ghost use Rattle.plane_spec.specs.declared.Point.{Point};
ghost use Rattle.plane_spec.specs.Boxes.{box_of_points};
ghost use Rattle.plane_spec.specs.Polygons.{is_simple};
ghost use Rattle.plane_spec.specs.Segments.{do_touch};
ghost use Rattle.plan_spec.specs.Accepted.{lies_within, polygons_meet};
ghost use Rattle.box_laws.specs.Boxes.{IsIn};
ghost use Rattle.rectangle_laws.specs.Rectangles.{are_boxes_apart, IsStrictlyBetween, rectangle};

/// A box with sides longer than 0 is a simple polygon, whichever of its opposite corners comes first.
pub fn a_box_is_a_simple_polygon()
    ensures { (p q : Point) → p.x ≢ q.x → p.y ≢ q.y → is_simple (rectangle p q) ≡ true }
{}

/// Segments between points of two boxes that are apart don't touch.
pub fn segments_in_boxes_apart_dont_touch()
    ensures { (a b c d : Point) (area other : PlanBox) → IsIn area a → IsIn area b → IsIn other c → IsIn other d
        → are_boxes_apart area other ≡ true → do_touch a b c d ≡ false }
{}

/// Polygons whose least boxes are apart don't meet; nor do those whose points are in any boxes that are apart.
pub fn polygons_in_boxes_apart_dont_meet()
    ensures least { (points others : List Point) (area other : PlanBox) → box_of_points points ≡ Some area
        → box_of_points others ≡ Some other → are_boxes_apart area other ≡ true → polygons_meet points others ≡ false }
    ensures any { (points others : List Point) (area other : PlanBox) → are_boxes_apart area other ≡ true
        → All (IsIn area) points → All (IsIn other) others → polygons_meet points others ≡ false }
{}

/// A polygon whose points are strictly between two opposite corners of a box, as are those of a box inside it, lies
/// within the box.
pub fn what_is_strictly_in_a_box_lies_within_it()
    ensures { (p q : Point) (points : List Point) → All (IsStrictlyBetween p q) points
        → lies_within (rectangle p q) points ≡ true }
{}
