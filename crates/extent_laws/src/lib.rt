//! Laws of the extents of axial lines: which boxes they meet, and which points lie on them.
//!
//! A line ends at points whose coordinates are fractions in lowest terms. Many pairs of corners may have one line, each
//! pair with ends of other fractions on the way. The laws say that what is asked of a line depends on its ends alone.
//!
//! A law is a function without parameters and with an empty body, whose contract states it. Scenes may be any, and
//! coordinates are any whole numbers.
//!
//! | law | what it says |
//! |---|---|
//! | [`the_line_of_a_dirty_pair_is_dirty`] | a box that the segment between two corners meets, their line meets |
//! | [`lines_with_the_same_ends_are_dirty_alike`] | lines with the same ends, in either order, meet the same boxes |
//! | [`lines_with_the_same_ends_have_the_same_points`] | the same points lie on them |
//! | [`both_corners_lie_on_their_line`] | both corners of a pair lie on the extent of its line |
//!
//! All rest on how a line is made of its stops (`sight_spec`, `Axial` and `Stops`), and on what lies on its extent or
//! meets it (`sight_spec`, `Dirty`; `plane_spec`, `Boxes` and `Fractions`). They break if a stop is another multiple of
//! the direction than one of at least 0, or if an extent meets a box by more than its ends and its line.
//!
//! Proofs cite the laws by the lemmas in `proofs/SameLines`; `Hits` and `Reaches` have what is known of stops, and
//! `Places` how the ends of lines are told as spots.
#![tactic(auto)]

ghost use Rattle.std.specs.Prelude.{◌≡◌, true};
ghost use Rattle.plane_spec.specs.declared.Point.{Point};
ghost use Rattle.plan_spec.specs.declared.edit.Changed.{Changed};
ghost use Rattle.sight_spec.specs.Axial.{line_through, same_ends};
ghost use Rattle.sight_spec.specs.Dirty.{is_dirty_line, is_dirty_pair, is_on_axial_line};
ghost use Rattle.sight_spec.specs.Scene.{Scene};
ghost use Rattle.extent_laws.specs.Corners.{IsPairOfCorners, Pair};

/// Where the segment between two corners meets one of the boxes, the line through them does.
pub fn the_line_of_a_dirty_pair_is_dirty()
    ensures { (scene : Scene) (boxes : Changed) (e : Pair) → IsPairOfCorners scene e
        → is_dirty_pair boxes e.0.1 e.1.1 ≡ true
        → is_dirty_line boxes scene (line_through scene e) ≡ true }
{}

/// Lines of two pairs of corners that have the same ends, in either order, meet the same boxes.
pub fn lines_with_the_same_ends_are_dirty_alike()
    ensures { (scene : Scene) (boxes : Changed) (e f : Pair) → IsPairOfCorners scene e → IsPairOfCorners scene f
        → same_ends (line_through scene e) (line_through scene f) ≡ true
        → is_dirty_line boxes scene (line_through scene f) ≡ is_dirty_line boxes scene (line_through scene e) }
{}

/// Lines of two pairs of corners that have the same ends, in either order, have the same points on their extents.
pub fn lines_with_the_same_ends_have_the_same_points()
    ensures { (scene : Scene) (x : Point) (e f : Pair) → IsPairOfCorners scene e → IsPairOfCorners scene f
        → same_ends (line_through scene e) (line_through scene f) ≡ true
        → is_on_axial_line scene x (line_through scene f) ≡ is_on_axial_line scene x (line_through scene e) }
{}

/// Both corners of a pair lie on the extent of its line.
pub fn both_corners_lie_on_their_line()
    ensures first { (scene : Scene) (e : Pair) → IsPairOfCorners scene e
        → is_on_axial_line scene e.0.1 (line_through scene e) ≡ true }
    ensures second { (scene : Scene) (e : Pair) → IsPairOfCorners scene e
        → is_on_axial_line scene e.1.1 (line_through scene e) ≡ true }
{}
