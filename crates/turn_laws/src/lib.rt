//! Laws of directions as they turn round a station: their order as whole numbers, and what they span.
//!
//! ```text
//!            e    d               The place of a direction is a whole number: its quarter turns, and the part of its
//!             ╲   │   s           own quarter in which it lies, of 2^40 parts. Two directions of a plan differ by more
//!              ╲  │  ╱            than one part, so places keep both their order and which of them are one.
//!               ╲ │ ╱             A blocker from s to e is spanned by what comes strictly between them, round the
//!                ╲│╱              circle; and there is a direction just after s that spans all that begins at s or
//!   (1,0) is 0    p               goes on there, since no direction of a plan lies between s and it.
//! ```
//!
//! So a sweep sorts numbers, and what is spanned at a place is found by comparing numbers.
//!
//! A law is a function without parameters and with an empty body, whose contract states it.
//!
//! | law | what it says | breaks if .. changes |
//! |---|---|---|
//! | [`places_keep_the_order_of_directions`] | one direction turns before another exactly where its place is less | `turns_before`, `place_of`, `IsDirection` |
//! | [`places_go_round_once`] | half a turn and a whole one by places | `is_upper`, `place_of` |
//! | [`a_blocker_is_spanned_between_its_ends`] | a direction spans a blocker exactly where it comes between its ends | `turns_before` |
//! | [`one_direction_spans_what_goes_on`] | the direction just after s spans what begins at s or goes on there | `IsDirection` |
//!
//! Definitions: `Turns` and `Places`. Proofs cite `proofs/`: `Among`, `Places`, `After` (directions that are one, what
//! they keep, and what is spanned just after), `Together` and `Start` (what wraps round (1,0)).
#![tactic(auto)]

ghost use Rattle.std.specs.Prelude.{nat_lt, pos, true, ◌<◌, ◌<ℤ◌, ◌≡◌};
ghost use Rattle.plane_spec.specs.declared.Point.{Point};
ghost use Rattle.plane_spec.specs.Vectors.{cross_of, is_upper, IsDirected, IsDirection, turns_before};
ghost use Rattle.front_laws.specs.Seen.{Seen, spans};
ghost use Rattle.turn_laws.specs.Places.{place_of};
ghost use Rattle.turn_laws.specs.Turns.{GoesOnFrom, is_among, just_after};

/// Of two directions whose components are at most `MAX_COMPONENT` in size, one turns before the other exactly where its
/// place is less.
pub fn places_keep_the_order_of_directions()
    ensures { (d e : Point) → IsDirection d → IsDirected d → IsDirection e → IsDirected e
        → turns_before d e ≡ nat_lt (place_of d) (place_of e) }
{}

/// A direction is in the half turn from (1,0) up to, not with, (-1,0) exactly where its place is below two quarter
/// turns; and each place is below four.
pub fn places_go_round_once()
    ensures half { (d : Point) → IsDirection d → IsDirected d → is_upper d ≡ nat_lt (place_of d) 2199023255552 }
    ensures whole { (d : Point) → IsDirection d → IsDirected d → place_of d < 4398046511104 }
{}

/// A direction spans a blocker exactly where it comes strictly between the blocker's ends, counterclockwise round the
/// circle.
pub fn a_blocker_is_spanned_between_its_ends()
    ensures { (d : Point) (w : Seen) → IsDirected w.from → IsDirected d → IsDirected w.to
        → pos 0 <ℤ cross_of w.from w.to → spans d w ≡ is_among w.from d w.to }
{}

/// The direction just after s spans each blocker that begins at s or before it and ends after it.
pub fn one_direction_spans_what_goes_on()
    ensures { (s : Point) (w : Seen) → IsDirection s → IsDirection w.from → IsDirection w.to → GoesOnFrom s w
        → spans (just_after s) w ≡ true }
{}
