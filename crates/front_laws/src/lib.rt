//! Laws of blockers as they are seen from a station: where a ray meets them, and which of two is in front.
//!
//! ```text
//!      w.to ●──────────────● w.from     A blocker is a wall or a screen, seen by the vectors from the station p to its
//!                                       ends, the second left of the first. Direction d spans it where its ends are
//!        v.to ●──────● v.from           strictly on both sides of the ray. A ray hits what it spans. Of two blockers
//!               ╲                       that d spans and that are apart, v is in front of w by the sides on which the
//!              d ╲                      ends of each lie from the other: eight cross products, no division, and no d.
//!                 p
//! ```
//!
//! So a sweep keeps what is spanned in one order while it turns, and a blocker is put in or taken out by sides alone.
//!
//! A law is a function without parameters and with an empty body, whose contract states it.
//!
//! | law | what it says | breaks if .. changes |
//! |---|---|---|
//! | [`what_is_spanned_is_hit`] | a ray hits a wall or screen exactly where it spans it, and a segment crosses it where its end is behind it, too | `blocker_hit`, `crosses` |
//! | [`the_one_in_front_is_hit_first`] | of two apart blockers that one direction spans, the one in front is hit first | `is_before` |
//! | [`being_in_front_is_an_order`] | of such blockers either one is in front of the other, and it passes on | the same |
//!
//! Definitions: `Seen`. Proofs cite `proofs/`: `InFront`, `InOrder` (the order, and a list in it), `Hits`, `Lists`
//! (pairs after an edit, elements that pass a test), `Weights` (signs of weighted sums) and `Tests`, which all laws of
//! the sweep share.
#![tactic(auto)]

ghost use Rattle.std.specs.Prelude.{◌≡◌, false, true};
ghost use Rattle.plane_spec.specs.declared.Point.{Point};
ghost use Rattle.plane_spec.specs.declared.Segment.{Segment};
ghost use Rattle.plane_spec.specs.Fractions.{is_before};
ghost use Rattle.plane_spec.specs.Vectors.{vector};
ghost use Rattle.sight_spec.specs.Sight.{crosses};
ghost use Rattle.sight_spec.specs.Stops.{blocker_hit};
ghost use Rattle.front_laws.specs.Seen.{are_apart, AreTogether, crossed_where, hit_of, hit_where, is_in_front, Seen};
ghost use Rattle.front_laws.specs.Seen.{seen_of, spans};

/// A ray from p hits a wall or screen exactly where it is seen from p and spanned, there where the definition of hits
/// says; and a segment from p crosses it where, besides, its end lies strictly behind it.
pub fn what_is_spanned_is_hit()
    ensures hit { (p d : Point) (w : Segment) → blocker_hit p d w ≡ hit_where d (seen_of p w) }
    ensures crossed { (p q : Point) (w : Segment) → crosses p q w ≡ crossed_where (vector p q) (seen_of p w) }
{}

/// Of two blockers that one direction spans and that are apart, the first is in front exactly where its hit comes
/// first.
pub fn the_one_in_front_is_hit_first()
    ensures { (d : Point) (v w : Seen) → spans d v ≡ true → spans d w ≡ true → are_apart v w ≡ true
        → is_in_front v w ≡ is_before (hit_of d v) (hit_of d w) }
{}

/// Of two apart blockers that one direction spans, at least one is in front of the other (by the law above not both,
/// since its hit comes first); and what is in front of a blocker that is in front of a third is in front of the third.
pub fn being_in_front_is_an_order()
    ensures total { (d : Point) (v w : Seen) → AreTogether d v w → is_in_front v w ≡ false → is_in_front w v ≡ true }
    ensures passes_on { (d : Point) (u v w : Seen) → AreTogether d u v → AreTogether d v w → AreTogether d u w
        → is_in_front u v ≡ true → is_in_front v w ≡ true → is_in_front u w ≡ true }
{}
