//! Laws of points and segments in the plane: which segments touch.
//!
//! ```text
//!       ╱
//!      ╱ f                    w has f on its left or on its line, q strictly on its right, and p not on its left. So f
//!   ──╱────p─────────▶ w      and the segment from p to q have no point in common but p, if p is on f.
//!           ╲
//!            q
//! ```
//!
//! `do_touch` looks at signs: the ends of each segment lie strictly on different sides of the other, or an end of one
//! lies on the other. That this is to have a point in common is not said by the definition. Here it is said of whole
//! points, and so, in planes that are n times as large, of points with fractions. The proofs are identities of cross
//! products: from one point to another the height over a line changes by the cross product of the directions, and the
//! point where two lines cross has, times one number, the mean of the heights of the ends of either.
//!
//! A law is a function without parameters and with an empty body, whose contract states it.
//!
//! | law | what it says | breaks if .. changes |
//! |---|---|---|
//! | [`segments_with_a_common_point_touch`] | segments that have a whole point in common touch | `do_touch`, `is_on_segment` |
//! | [`a_line_keeps_segments_apart`] | a line that has one segment on its left and the other, but for an end, on its right keeps them apart | the same |
//! | [`touching_is_kept_in_an_enlarged_plane`] | in a plane n times as large the same segments touch | the same |
//!
//! Definitions: `enlarged`, `part_way` (points with fractions, as whole points of an enlarged plane). Proofs cite
//! `proofs/`: `Lists` (elements, and their numbers), `Points` (directions, heights, what lies between) and
//! `Segments`.
#![tactic(auto)]

ghost use Rattle.std.specs.Prelude.{false, pos, true, ℕ, ◌<◌, ◌<ℤ◌, ◌≡◌, ◌≤ℤ◌};
ghost use Rattle.plane_spec.specs.declared.Point.{Point};
ghost use Rattle.plane_spec.specs.Segments.{do_touch, is_on_segment};
ghost use Rattle.plane_spec.specs.Vectors.{orient_of, same_point};
ghost use Rattle.plane_laws.specs.Enlarged.{enlarged};

/// Two closed segments that have a whole point in common touch: they cross properly, or an end of one lies on the
/// other.
pub fn segments_with_a_common_point_touch()
    ensures { (a b c d x : Point) → is_on_segment x a b ≡ true → is_on_segment x c d ≡ true → do_touch a b c d ≡ true }
{}

/// Where the line through a and b has c and d on it or on its left, q strictly on its right and p not on its left,
/// and p isn't on the segment from c to d, that segment and the one from p to q don't touch.
pub fn a_line_keeps_segments_apart()
    ensures { (a b c d p q : Point) → same_point c d ≡ false → pos 0 ≤ℤ orient_of a b c → pos 0 ≤ℤ orient_of a b d
        → orient_of a b p ≤ℤ pos 0 → orient_of a b q <ℤ pos 0 → is_on_segment p c d ≡ false → do_touch c d p q ≡ false }
{}

/// In a plane that is n times as large the same segments touch as here.
pub fn touching_is_kept_in_an_enlarged_plane()
    ensures { (n : ℕ) (a b c d : Point) → 0 < n
        → do_touch (enlarged n a) (enlarged n b) (enlarged n c) (enlarged n d) ≡ do_touch a b c d }
{}
