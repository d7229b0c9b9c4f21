//! Laws of segments between points with fractions, as axial lines and pieces of routes are: which of them meet.
//!
//! ```text
//!              ╱ b
//!             ╱                 Each segment lies on a line through a whole point in a whole direction, and its ends
//!   c ───────●──────▶ f         are at parameters n / m: at p + (n / m) d. The lines cross at t / k on the one and
//!           ╱                   u / k on the other, with k the cross product of the directions. The segments meet
//!     p ───╱ a                  where t / k and u / k lie between their parameters.
//! ```
//!
//! `do_rsegments_touch` looks at the signs of orientations of points with fractions, whose parts have some hundred
//! digits where those of the points have eighteen. These laws say the same by cross products of whole points and by
//! comparing fractions, whose products have thirty. They hold for any points and directions. The proofs are identities
//! of cross products: an orientation has the sign of how far the third point lies before the line of the other two,
//! which is a whole number of degree 3.
//!
//! A law is a function without parameters and with an empty body, whose contract states it.
//!
//! | law | what it says | breaks if .. changes |
//! |---|---|---|
//! | [`segments_that_cross_reach_the_crossing`] | segments of lines that aren't parallel meet where the crossing lies between the parameters of both | `do_rsegments_touch` |
//! | [`parallel_segments_meet_in_line`] | segments of parallel lines meet if the lines are one and the extents meet | the same |
//! | [`segments_apart_in_a_coordinate_dont_meet`] | a segment that lies before another in x or in y doesn't meet it | the same |
//! | [`along_is_on_its_line`] | p + t d lies on the line through p in direction d at the parameter t, and so beyond one of two points | `along` |
//!
//! Definitions: `Stretches` (values of fractions, points at parameters, stretches of lines, and the tests that the laws
//! name). Proofs cite `proofs/`: `Values` (what fractions are worth, and signs of their differences), `Turning` (the
//! sign of an orientation), `Meeting`, `Parallel`, `Within`, `Extents` and `Stretches` (the tests), `Parameters`
//! (which points they lead to, and in which order) and `Along`.
#![tactic(auto)]

ghost use Rattle.std.specs.Prelude.{false, neg_ℤ, pos, ◌+ℤ◌, ◌<ℤ◌, ◌≡◌, ◌≢◌, ◌≤ℤ◌};
ghost use Rattle.plane_spec.specs.declared.Point.{Point};
ghost use Rattle.plane_spec.specs.Fractions.{along, Fraction, RPoint, whole_point};
ghost use Rattle.plane_spec.specs.RPoints.{do_rsegments_touch};
ghost use Rattle.plane_spec.specs.Vectors.{cross_of, vector};
ghost use Rattle.meet_laws.specs.Stretches.{
  AreAllBefore,
  do_extents_meet,
  do_reach_crossing,
  do_reach_crossing_turned,
  IsAt,
  IsStretchOf,
  Stretch,
};

/// Segments of two lines that aren't parallel meet where the point in which the lines cross lies on both, told by
/// comparing its parameters with those of the ends.
pub fn segments_that_cross_reach_the_crossing()
    ensures left { (s r : Stretch) (a b c f : RPoint) → IsStretchOf s a b → IsStretchOf r c f
        → pos 0 <ℤ cross_of s.d r.d → do_rsegments_touch a b c f ≡ do_reach_crossing s r }
    ensures right { (s r : Stretch) (a b c f : RPoint) → IsStretchOf s a b → IsStretchOf r c f
        → cross_of s.d r.d <ℤ pos 0 → do_rsegments_touch a b c f ≡ do_reach_crossing_turned s r }
{}

/// Segments of two parallel lines don't meet where the lines are two; on one line they meet where an end of the one
/// lies in the extents of the other.
pub fn parallel_segments_meet_in_line()
    ensures aside { (s r : Stretch) (a b c f : RPoint) → IsStretchOf s a b → IsStretchOf r c f
        → cross_of s.d r.d ≡ pos 0 → cross_of (vector s.p r.p) s.d ≢ pos 0 → do_rsegments_touch a b c f ≡ false }
    ensures in_line { (s r : Stretch) (a b c f : RPoint) → IsStretchOf s a b → IsStretchOf r c f
        → cross_of s.d r.d ≡ pos 0 → cross_of (vector s.p r.p) s.d ≡ pos 0
        → do_rsegments_touch a b c f ≡ do_extents_meet a b c f }
{}

/// Two segments of which one lies before the other in a coordinate don't meet.
pub fn segments_apart_in_a_coordinate_dont_meet()
    ensures x { (s r : Stretch) (a b c f : RPoint) → IsStretchOf s a b → IsStretchOf r c f
        → AreAllBefore a.x b.x c.x f.x → do_rsegments_touch a b c f ≡ false }
    ensures y { (s r : Stretch) (a b c f : RPoint) → IsStretchOf s a b → IsStretchOf r c f
        → AreAllBefore a.y b.y c.y f.y → do_rsegments_touch a b c f ≡ false }
{}

/// The point p + t d lies on the line through p in direction d, at the parameter t. On the line from p to q, p is at
/// 0 and q at 1; away from q at p by t is at -t, and away from p at q by t is at t + 1.
pub fn along_is_on_its_line()
    ensures along { (p d : Point) (t : Fraction) → pos 1 ≤ℤ t.den → IsAt (along p d t) p d t.num t.den }
    ensures before { (p q : Point) (t : Fraction) → pos 1 ≤ℤ t.den
        → IsAt (along p (vector q p) t) p (vector p q) (neg_ℤ t.num) t.den }
    ensures beyond { (p q : Point) (t : Fraction) → pos 1 ≤ℤ t.den
        → IsAt (along q (vector p q) t) p (vector p q) (t.num +ℤ t.den) t.den }
    ensures first { (p d : Point) → IsAt (whole_point p) p d (pos 0) (pos 1) }
    ensures second { (p q : Point) → IsAt (whole_point q) p (vector p q) (pos 1) (pos 1) }
{}
