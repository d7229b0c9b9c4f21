//! Laws of windings: how often, and which way, a polygon's edges go round a point, and where that changes.
//!
//! ```text
//!           ╱ b           right of the segment from p to q, between its heights, lies its strip. An edge that doesn't
//!          ╱              touch the segment passes right of p and not of q, or the other way round, only by an end
//!    q ● ─╱· · · · ·      in the strip: it counts at p as it does at q, but for what its ends are in the strip.
//!      │ a · strip ·      Along edges that close, each corner ends one edge and begins the next, so these differences
//!    p ● · · · · · ·      cancel out, whatever the polygon's shape.
//! ```
//!
//! The rule of `is_inside` counts the edges that pass to the right of a point. Here they are counted with a sign:
//! `wind` is 1 for an edge that passes upwards and -1 for one that passes downwards, and the winding is the sum over
//! all edges. Its parity is that of the count. With the sign the sums telescope: no edges are sorted, and no polygon
//! is cut into parts. Where a segment crosses an edge properly, and touches no other, the winding on the edge's left
//! is greater by 1. What is "close" to a point is said in planes that are n times as large, from some n on; there
//! each winding settles, since the signs of n n a + n b + c do.
//!
//! A law is a function without parameters and with an empty body, whose contract states it.
//!
//! | law | what it says | breaks if .. changes |
//! |---|---|---|
//! | [`windings_agree_off_the_edges`] | the edges go round both ends of a segment equally often, where it touches none of them | `do_touch`, `edges_of` |
//! | [`what_is_gone_round_once_is_inside`] | what the edges don't go round isn't inside; what is on no edge and what they go round once, one way or the other, is | `is_inside`, `passes_right` |
//!
//! Definitions: `wind`, `winding`, `near`, `GoesRoundNear`. Proofs cite `proofs/`: `OneEdge` and `Crossed` (one
//! edge), `Closed`, `Parity`, `Turned`, `Scaled` (all edges), `Near`, `Strips`, `Settles` (close to a point).
#![tactic(auto)]

ghost use Rattle.std.specs.Prelude.{List, false, neg_ℤ, pos, true, ◌||◌, ◌≡◌, ◌⊎◌};
ghost use Rattle.std.specs.List.{list_any};
ghost use Rattle.plane_spec.specs.declared.Point.{Point};
ghost use Rattle.plane_spec.specs.Segments.{do_touch};
ghost use Rattle.plane_spec.specs.Polygons.{edges_of, is_inside, is_on_border};
ghost use Rattle.winding_laws.specs.Windings.{winding};

/// The edges of a polygon, simple or not, go round the two ends of a segment equally often, where it touches none of
/// them.
pub fn windings_agree_off_the_edges()
    ensures { (points : List Point) (p q : Point) → list_any (λ e. do_touch e.a e.b p q) (edges_of points) ≡ false
        → winding p (edges_of points) ≡ winding q (edges_of points) }
{}

/// A point that a polygon's edges don't go round isn't inside it; a point on no edge that they go round once, one way
/// or the other, is.
pub fn what_is_gone_round_once_is_inside()
    ensures none { (points : List Point) (x : Point) → winding x (edges_of points) ≡ pos 0
        → is_inside x points ≡ false }
    ensures once { (points : List Point) (x : Point) → is_on_border x points ≡ false
        → (winding x (edges_of points) ≡ pos 1) ⊎ (winding x (edges_of points) ≡ neg_ℤ (pos 1))
        → is_inside x points ≡ true }
{}
