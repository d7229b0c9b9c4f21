//! Laws of walks: from a point of a segment that the edges don't go round as they do its start, a walk back in fine
//! steps comes to a wall or a corner that the rule says is in the way.
//!
//! ```text
//!   p ───·───·───●───·───·─── q    In a plane n times as large the segment has n whole steps. If n is a multiple of
//!               ╱ G j    G i       enough numbers, an edge that touches a step has one of its ends on it. Between
//!      ────────                    points off all edges the winding is kept. On the way back from a bad point G i the
//!                                  first point on an edge is G j: up to there the winding is that of G i.
//! ```
//!
//! The bad point's winding isn't that of the walls' right side, which is one less than that of their left, and p, if
//! it is off the edges, hasn't the bad point's winding. So the walk back ends at an edge, before p or at p itself.
//! There the next step leads to the winding of the bad point, which isn't the right's; so it leads to the left of the
//! edge, if G j is in its middle, or into the cone, if it is a corner: a hit. Which of the two sides it is needs no
//! proof beyond parity.
//!
//! A law is a function without parameters and with an empty body, whose contract states it.
//!
//! | law | what it says | breaks if .. changes |
//! |---|---|---|
//! | [`fine_steps_meet_edges_at_their_ends`] | a segment can be cut into steps so fine that each edge that touches a step has an end of the step on it | `do_touch`, `is_on_segment`, `part_way` |
//!
//! Proofs cite `proofs/BadPoints`, `hit_before`: the hit before a bad point.
#![tactic(auto)]

ghost use Rattle.std.specs.Prelude.{Contains, List, false, ℕ, ◌<◌, ◌≡◌};
ghost use Rattle.plane_spec.specs.declared.Point.{Point};
ghost use Rattle.plane_spec.specs.declared.Segment.{Segment};
ghost use Rattle.plane_spec.specs.Vectors.{same_point};
ghost use Rattle.walk_laws.specs.Steps.{MeetsAtEnds};

/// A segment can be cut into so many equal steps that, of any given edges, each that touches a step has one of the
/// step's ends on it: it crosses no step between its ends. The steps are whole in a plane so many times as large.
pub fn fine_steps_meet_edges_at_their_ends()
    ensures { (edges : List Segment) (p q : Point) → same_point p q ≡ false
        → (n : ℕ) × (0 < n) × ((i : ℕ) (e : Segment) → Contains edges e → MeetsAtEnds n i p q e) }
{}
