//! Laws of sides: a simple polygon's edges go round the points close to the left of each edge equally often, and
//! round those close to its right once less.
//!
//! ```text
//!    u ╲               ╱ w   d is left of both edges at v. A strip along v z, from near v to near z, touches no edge:
//!       ╲ d · · · · · ╱      not those at v and z, since it is left of them, and no other, since all others are away
//!        v───────────z       from v z, and the strip is as thin as is wanted. So the number at v is that at z.
//! ```
//!
//! "Close" is said without distances: a point near x is n times x and then d, in a plane that is n times as large,
//! and what holds near x holds in all such planes from some n on. A strip between near points touches an edge there
//! or not as the first sign says that isn't 0 in a value of the form n n a + n b + c. Near each point, in each
//! direction, the winding settles. At the corner between two edges there is a direction left of both, whichever way
//! it turns; strips carry its winding to all directions left of both, along each edge, and into the cone of each
//! corner. What is_simple tests of the edges by their numbers says that the strips exist. On the way through the
//! middle of an edge the winding falls by 1; so turned round, the edges are sound too.
//!
//! A law is a function without parameters and with an empty body, whose contract states it.
//!
//! | law | what it says | breaks if .. changes |
//! |---|---|---|
//! | [`each_side_of_a_simple_polygon_has_one_winding`] | there is one number for the left of all edges, and the right has one less | `is_simple`, `edges_of`, `do_touch` |
//!
//! Proofs cite `proofs/Sound`: `IsSound`, what is known of a simple polygon's edges, with the number on their left.
#![tactic(auto)]

ghost use Rattle.std.specs.Prelude.{List, map, pos, true, ℤ, ◌-ℤ◌, ◌≡◌};
ghost use Rattle.plane_spec.specs.declared.Point.{Point};
ghost use Rattle.plane_spec.specs.Polygons.{edges_of, is_simple};
ghost use Rattle.sight_spec.specs.Scene.{turned_edge};
ghost use Rattle.side_laws.specs.Sides.{GoesRoundOnLeft};

/// Of a simple polygon there is one number k: close to the middle of each edge, the edges go round k times on its
/// left. Turned round they go round 1 - k times on the left, which is the other side: so on the right it is k - 1
/// times.
pub fn each_side_of_a_simple_polygon_has_one_winding()
    ensures { (points : List Point) → is_simple points ≡ true → (k : ℤ) × GoesRoundOnLeft (edges_of points) k
        × GoesRoundOnLeft (map turned_edge (edges_of points)) (pos 1 -ℤ k) }
{}
