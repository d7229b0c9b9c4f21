//! Laws of the round of a sweep: how a list of walls and screens, changed at each corner on the way round, makes a
//! view.
//!
//! ```text
//!        begins ╲      ╱ ends       The list holds, from the station outwards, what is open: what began before a place
//!           ●────●────●             and ends at it or later. Between two corners nothing changes, so its first is what
//!                │   ╱              is seen first there. At a corner what ends is taken out, then a sector says what
//!                │  ╱               is first in the corner's direction and how far the corner is, then what begins is
//!                │ ╱                put in. A corner behind the first changes nothing that is seen.
//!                p
//! ```
//!
//! Some walls, screens and corners may be left out of the round (those that aren't *kept*): a blocker where each
//! direction that spans it spans a kept one before it, and a corner behind a spanned one.
//!
//! A law is a function without parameters and with an empty body, whose contract states it.
//!
//! | law | what it says | breaks if .. changes |
//! |---|---|---|
//! | [`the_round_begins`] | without sectors, at a place that no direction of the arc comes before | `IsRound`, `is_open_at` |
//! | [`the_round_goes_on_to_the_next_corner`] | with no end on the way and all corners hidden, nothing need be said | the same |
//! | [`a_corner_with_a_sector`] | one more sector, if it says what is first and the nearest corners of its direction | the same |
//! | [`a_corner_without_a_sector`] | none, if the first stays and has all corners of the direction behind it | the same |
//! | [`the_round_ends_with_a_view`] | once the arc is below the place, the sectors are a view | `IsViewOf` |
//! | [`the_first_of_the_kept_is_the_first`] | a blocker may be left out where each direction that spans it spans a kept one before it | `IsFirst` |
//! | [`a_corner_behind_a_blocker_is_behind_the_first`] | a corner may be left out where a kept blocker spans its direction before it | the same |
//! | [`a_hidden_body_may_be_left_out`] | bodies behind covers in all of their bins | `place_of` |
//!
//! Definitions: `Rounds` and `Kept`. Proofs cite `proofs/`: `Sectors` and `Endings` (the steps), `Steps` (what the list
//! holds), `Edits`, `Begun` (put in and taken out), `Corners`, `Placing` (where), `Without`, `Bodies`, `HiddenBodies`
//! (left out).
#![tactic(auto)]

ghost use Rattle.std.specs.Option.{option_map};
ghost use Rattle.std.specs.Prelude.{All, Bool, false, int_lt, length, List, Option, pos, Some, true};
ghost use Rattle.std.specs.Prelude.{[], ◌∷◌, ◌++◌, ◌+◌, ◌<◌, ◌≡◌, ◌≤◌, ℕ};
ghost use Rattle.std.proofs.Common.{get_or};
ghost use Rattle.plane_spec.specs.declared.Point.{Point};
ghost use Rattle.plane_spec.specs.Vectors.{IsDirected, IsDirection, vector};
ghost use Rattle.sight_spec.specs.Scene.{blockers_of_scene, Scene};
ghost use Rattle.front_laws.specs.Seen.{Seen, seen_at, side_of, spans};
ghost use Rattle.turn_laws.specs.Places.{place_of};
ghost use Rattle.sweep_laws.specs.First.{IsFirst};
ghost use Rattle.sweep_laws.specs.Groups.{is_ahead, is_behind, no_corner};
ghost use Rattle.sweep_laws.specs.Parts.{begins_blocked};
ghost use Rattle.view_laws.specs.declared.view.Arc.{Arc};
ghost use Rattle.view_laws.specs.declared.view.Front.{Front};
ghost use Rattle.view_laws.specs.declared.view.Sector.{Sector};
ghost use Rattle.view_laws.specs.declared.view.View.{View};
ghost use Rattle.view_laws.specs.Views.{front_of, is_in_arc, is_led_into, is_past_first, IsAlong, IsReached, IsViewOf};
ghost use Rattle.round_laws.specs.Kept.{AreCovered, ArePast, IsHiddenPoint, IsHiddenWall, IsKeptFirst};
ghost use Rattle.round_laws.specs.Rounds.{AreBlockers, AreCoveredIn, AreHidden, AreWalls, EndNowhere, first_held, HoldsAt};
ghost use Rattle.round_laws.specs.Rounds.{HoldsBefore, IsRound, Numbered};

/// At a place that no direction of the arc comes before, a list that holds what is open there begins a round, and what
/// is first before all sectors is its first.
pub fn the_round_begins()
    ensures { (scene : Scene) (p : Point) (arc : Arc) (kept : ℕ → Bool) (before : Option Front) (place : ℕ)
        (active : List Numbered) → HoldsBefore p (blockers_of_scene scene) kept place active
        → before ≡ option_map (front_of scene p) (first_held active)
        → ((d : Point) → is_in_arc arc d ≡ true → place ≤ place_of d)
        → IsRound scene p arc kept before [] place active }
{}

/// From one place to a later one, where no kept wall or screen has an end at a place between and each corner between is
/// behind the first of the list.
pub fn the_round_goes_on_to_the_next_corner()
    ensures { (scene : Scene) (p : Point) (arc : Arc) (kept : ℕ → Bool) (before : Option Front)
        (sectors : List Sector) (low high : ℕ) (active : List Numbered) → AreWalls scene p
        → AreCoveredIn scene p arc kept → IsRound scene p arc kept before sectors low active → low ≤ high
        → EndNowhere p (blockers_of_scene scene) kept low high
        → ((d : Point) → IsDirection d → IsDirected d → is_in_arc arc d ≡ true → low ≤ place_of d
        → place_of d < high → AreHidden scene p d (first_held active))
        → IsRound scene p arc kept before sectors high active }
{}

/// Past the corners of one place with a sector: `at` is the list without what ends there, `after` the list with what
/// begins there, and the sector says their first and the nearest corners.
pub fn a_corner_with_a_sector()
    ensures { (scene : Scene) (p : Point) (arc : Arc) (kept : ℕ → Bool) (before : Option Front)
        (sectors : List Sector) (s : Sector) (active at after : List Numbered) → AreWalls scene p
        → AreCoveredIn scene p arc kept → IsRound scene p arc kept before sectors s.place active
        → HoldsAt p (blockers_of_scene scene) kept s.place at
        → HoldsBefore p (blockers_of_scene scene) kept (s.place + 1) after
        → s.on ≡ option_map (front_of scene p) (first_held at)
        → s.after ≡ option_map (front_of scene p) (first_held after)
        → ((d : Point) → IsDirection d → IsDirected d → is_in_arc arc d ≡ true → place_of d ≡ s.place
        → IsReached p (is_ahead p d) scene.corners (first_held at) s.ahead)
        → ((d : Point) → IsDirection d → IsDirected d → is_in_arc arc d ≡ true → place_of d ≡ s.place
        → IsReached p (is_behind p d) scene.corners (first_held at) s.behind)
        → IsRound scene p arc kept before (sectors ++ s ∷ []) (s.place + 1) after }
{}

/// Past the corners of one place without a sector, where the first of the list is the same before, at and after it, and
/// has all corners of the direction behind it.
pub fn a_corner_without_a_sector()
    ensures { (scene : Scene) (p : Point) (arc : Arc) (kept : ℕ → Bool) (before : Option Front)
        (sectors : List Sector) (place : ℕ) (active at after : List Numbered) → AreWalls scene p
        → AreCoveredIn scene p arc kept → IsRound scene p arc kept before sectors place active
        → HoldsAt p (blockers_of_scene scene) kept place at
        → HoldsBefore p (blockers_of_scene scene) kept (place + 1) after
        → first_held at ≡ first_held active → first_held after ≡ first_held active
        → ((d : Point) → IsDirection d → IsDirected d → is_in_arc arc d ≡ true → place_of d ≡ place
        → AreHidden scene p d (first_held at))
        → IsRound scene p arc kept before sectors (place + 1) after }
{}

/// Once each direction of the arc is below the round's place, its sectors are a view.
pub fn the_round_ends_with_a_view()
    ensures { (scene : Scene) (p : Point) (arc : Arc) (kept : ℕ → Bool) (view : View) (place : ℕ)
        (active : List Numbered) → IsRound scene p arc kept view.before view.sectors.items place active
        → ((d : Point) → IsDirection d → IsDirected d → is_in_arc arc d ≡ true → place_of d < place)
        → ((d : Point) → IsDirection d → IsDirected d → begins_blocked scene p d ≡ is_led_into view.ground d)
        → All (λ s. place_of s.way ≡ s.place) view.sectors.items → IsViewOf scene p arc view }
{}

/// The first of the walls and screens that are kept is the first of all, where each one that is left out and that the
/// direction spans has a kept one before it.
pub fn the_first_of_the_kept_is_the_first()
    ensures { (scene : Scene) (p d : Point) (kept : ℕ → Bool) (first : Option (ℕ × Seen))
        → IsKeptFirst p d (blockers_of_scene scene) kept first → AreCovered p d (blockers_of_scene scene) kept
        → IsFirst scene p d first }
{}

/// What is behind a wall or screen that its direction spans is behind the first.
pub fn a_corner_behind_a_blocker_is_behind_the_first()
    ensures { (scene : Scene) (p d v : Point) (first : Option (ℕ × Seen)) (k : ℕ) (cover : Seen)
        → IsFirst scene p d first → IsDirected d → IsAlong d v → k < length (blockers_of_scene scene)
        → seen_at p (blockers_of_scene scene) k ≡ Some cover → spans d cover ≡ true
        → int_lt (side_of cover v) (pos 0) ≡ true → is_past_first first v ≡ true }
{}

/// Where each wall that is left out joins points of a hidden body, each of them has a kept one before it in every
/// direction that spans it; and where each corner that is left out is a point of one, it is behind a wall that its
/// direction spans.
pub fn a_hidden_body_may_be_left_out()
    ensures walls { (scene : Scene) (p : Point) (arc : Arc) (kept : ℕ → Bool) → AreBlockers p (blockers_of_scene scene)
        → ((j : ℕ) (t : Seen) → j < length (blockers_of_scene scene) → kept j ≡ false
        → seen_at p (blockers_of_scene scene) j ≡ Some t → IsHiddenWall p (blockers_of_scene scene) kept j t)
        → AreCoveredIn scene p arc kept }
    ensures corners { (scene : Scene) (p d : Point) (kept corners_kept : ℕ → Bool) → IsDirection d → IsDirected d
        → AreBlockers p (blockers_of_scene scene)
        → ((j : ℕ) → j < length scene.corners → IsDirection (vector p (get_or scene.corners j no_corner).here))
        → ((j : ℕ) → j < length scene.corners → corners_kept j ≡ false
        → IsHiddenPoint p (blockers_of_scene scene) kept (get_or scene.corners j no_corner).here)
        → ArePast scene p d corners_kept }
{}
