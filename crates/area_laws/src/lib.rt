//! Laws of areas: the doubled area, which tells which way a polygon's points go round, is a sum of windings, and so
//! it tells how often a simple polygon's edges go round what lies left of them.
//!
//! ```text
//!    ┌─┬─┬─┬─┬─┐      a polygon, made so wide and tall that each edge meets the middle of each row of cells at a whole
//!    ├─┼─╱─┼─╲─┤      place. For each edge, the cells to whose right it passes are as many as it is far from the left;
//!    ├╱┼─┼─┼─┼╲┤      summed over the rows, with the sign, that is its part of the area. So four times the sum of the
//!    └─┴─┴─┴─┴─┘      windings of all cells is the doubled area.
//! ```
//!
//! Along a row, from right to left, the winding is 0 at first, and at each edge it steps between the number k on the
//! left of all edges and k - 1 on their right, or back. Since it is 0 somewhere beside an edge, k is 0 or 1, and all
//! windings lie between k - 1 and k. So where k is 1, all are at least 0, and the area is positive; where k is 0,
//! none is positive, and the area is negative.
//!
//! A law is a function without parameters and with an empty body, whose contract states it.
//!
//! | law | what it says | breaks if .. changes |
//! |---|---|---|
//! | [`sides_of_a_simple_polygon`] | a simple polygon's edges go round once on one side of each edge, and not at all on the other, and its area tells on which | `is_simple`, `doubled_area`, `is_counterclockwise` |
#![tactic(auto)]

ghost use Rattle.std.specs.Prelude.{List, false, map, pos, true, ◌≡◌};
ghost use Rattle.plane_spec.specs.declared.Point.{Point};
ghost use Rattle.plane_spec.specs.Polygons.{edges_of, is_counterclockwise, is_simple};
ghost use Rattle.sight_spec.specs.Scene.{turned_edge};
ghost use Rattle.side_laws.specs.Sides.{GoesRoundOnLeft};

/// Of a simple polygon whose doubled area is positive, the edges go round once on the left of each edge and not at
/// all on the right; of another simple polygon, not at all on the left and once backwards on the right (turned round:
/// once).
pub fn sides_of_a_simple_polygon()
    ensures left { (points : List Point) → is_simple points ≡ true → is_counterclockwise points ≡ true
        → GoesRoundOnLeft (edges_of points) (pos 1) }
    ensures right { (points : List Point) → is_simple points ≡ true → is_counterclockwise points ≡ true
        → GoesRoundOnLeft (map turned_edge (edges_of points)) (pos 0) }
    ensures left_of_clockwise { (points : List Point) → is_simple points ≡ true → is_counterclockwise points ≡ false
        → GoesRoundOnLeft (edges_of points) (pos 0) }
    ensures right_of_clockwise { (points : List Point) → is_simple points ≡ true → is_counterclockwise points ≡ false
        → GoesRoundOnLeft (map turned_edge (edges_of points)) (pos 1) }
{}
