//! What is inside a convex polygon is strictly left of all its walls.

ghost use Rattle.std.specs.Prelude.{List, false, true, ◌≡◌};
ghost use Rattle.plane_spec.specs.declared.Point.{Point};
ghost use Rattle.plane_spec.specs.Polygons.{has_repeat, is_inside, is_simple};
ghost use Rattle.sight_laws.specs.Convex.{is_convex, is_strictly_inside};

/// What lies strictly left of all walls of a simple convex polygon is inside it, as whether a point is inside is
/// counted: it lies on no edge, and the edges that pass to its right are odd in number. Of a polygon that isn't
/// simple and goes round twice, they are even in number.
pub fn strictly_inside_is_inside()
    ensures { (points : List Point) (x : Point) → is_simple points ≡ true → is_convex points ≡ true
        → is_strictly_inside x points ≡ true → is_inside x points ≡ true }
{}

/// A point that is inside a convex polygon, on no edge and with an odd number of edges that pass to its right, is
/// strictly left of each wall. Neighbouring points must differ, since nothing is left of a wall without length. The
/// polygon need not be simple.
pub fn inside_is_strictly_inside()
    ensures { (points : List Point) (x : Point) → has_repeat points ≡ false → is_convex points ≡ true
        → is_inside x points ≡ true → is_strictly_inside x points ≡ true }
{}
