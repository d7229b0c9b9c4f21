//! Laws of the walls and screens of a sound plan as they are seen from a station: wherever one direction spans two of
//! them they are apart, and none is in line with an end of another that the station isn't in line with.
//!
//! ```text
//!        ●                 Of a sound plan no two edges touch, but for those that follow each other round a polygon,
//!       ╱ ╲ f              which share a corner and no more. So where a ray meets both of two edges, it meets them in
//!    e ╱   ╲               different points, and each has an end that isn't on the other: of two on one line, the
//!     ╱  ▲  ●              nearer last end or the farther first end would lie on the other.
//!    ●   │ d
//! ```
//!
//! That is what the laws of `front_laws` ask: what a direction spans is in one order, whatever plan was accepted and
//! wherever the station is.
//!
//! A law is a function without parameters and with an empty body, whose contract states it.
//!
//! | law | what it says | breaks if .. changes |
//! |---|---|---|
//! | [`blockers_of_a_sound_plan_are_apart`] | two of its walls and screens are apart wherever one direction spans both | `is_sound`, `may_be_edges`, `scene_of` |
//! | [`no_blocker_passes_through_an_end_of_another`] | a corner isn't on the line of a wall or screen that its direction spans, but for its own | the same |
//!
//! Definitions: `Standing` (which edges stand beside each other). Proofs cite `proofs/`: `Plans` (all edges of a sound
//! plan stand beside each other, and look the same from either end), `Standing` (edges that do are apart), `Apart`,
//! `Between` and `Ends` (points of a line by the vectors to them), `Beside` (lists of edges) and `Through`.
#![tactic(auto)]

ghost use Rattle.std.specs.Prelude.{false, length, Some, true, ◌<◌, ◌≡◌, ◌≢◌, ℕ};
ghost use Rattle.plane_spec.specs.declared.Point.{Point};
ghost use Rattle.plan_spec.specs.Accepted.{is_sound};
ghost use Rattle.plan_spec.specs.Plan.{Plan};
ghost use Rattle.sight_spec.specs.Scene.{blockers_of_scene, scene_of};
ghost use Rattle.front_laws.specs.Seen.{BothApart, Seen, seen_at, spans};
ghost use Rattle.sight_spec.specs.Isovist.{no_segment};
ghost use Rattle.apart_laws.specs.Standing.{PassesThrough};

/// Two walls or screens of a sound plan that are seen from p, and that one direction spans, are apart.
pub fn blockers_of_a_sound_plan_are_apart()
    ensures { (plan : Plan) (p d : Point) (i j : ℕ) (s t : Seen) → is_sound plan ≡ true → i < j
        → j < length (blockers_of_scene (scene_of plan)) → seen_at p (blockers_of_scene (scene_of plan)) i ≡ Some s
        → seen_at p (blockers_of_scene (scene_of plan)) j ≡ Some t → spans d s ≡ true → spans d t ≡ true
        → BothApart s t }
{}

/// Of two walls or screens of a sound plan the first doesn't pass through an end of the second whose direction spans
/// it.
pub fn no_blocker_passes_through_an_end_of_another()
    ensures from { (plan : Plan) (p : Point) (i j : ℕ) (s t : Seen) → is_sound plan ≡ true → i ≢ j
        → i < length (blockers_of_scene (scene_of plan)) → j < length (blockers_of_scene (scene_of plan))
        → seen_at p (blockers_of_scene (scene_of plan)) i ≡ Some s
        → seen_at p (blockers_of_scene (scene_of plan)) j ≡ Some t → PassesThrough s t.from → false ≡ true }
    ensures to { (plan : Plan) (p : Point) (i j : ℕ) (s t : Seen) → is_sound plan ≡ true → i ≢ j
        → i < length (blockers_of_scene (scene_of plan)) → j < length (blockers_of_scene (scene_of plan))
        → seen_at p (blockers_of_scene (scene_of plan)) i ≡ Some s
        → seen_at p (blockers_of_scene (scene_of plan)) j ≡ Some t → PassesThrough s t.to → false ≡ true }
{}
