//! Laws of axial lines after a removal: which stay, and between which corners the others are.
//!
//! The old lines whose extent misses the box of what is gone stay, and the new ones are found among the pairs of
//! dirty corners. After an addition or a move every corner is dirty, as `dirty_laws` says, so that nothing is saved
//! by asking.
//!
//! A law is a function without parameters and with an empty body, whose contract states it. The scenes may be any two
//! of which the new one is the old one without some walls, screens and corners of a box; those before and after a
//! removal are such.
//!
//! | law | what it says |
//! |---|---|
//! | [`an_old_line_that_misses_the_box_stays`] | it keeps its pair's sight and its stops |
//! | [`a_new_line_that_misses_the_box_was_there`] | so did it, where something stops it at both ends |
//! | [`the_axial_lines_after_a_removal`] | they are the old ones whose extent misses the box, renumbered, merged with those of pairs of dirty corners whose extent meets it |
//!
//! All break if sight, stops or axial lines change (`sight_spec`, `Sight`, `Stops`, `Axial`), or what makes a line or a
//! corner dirty (`Dirty`). The last breaks, too, if axial lines come in another order than that of their numbers.
//!
//! Proofs cite the laws by the lemmas in `proofs/Laws`; `Without` and `Updated` have their parts.
#![tactic(auto)]

ghost use Rattle.std.specs.Prelude.{◌≡◌, false, length, true};
ghost use Rattle.plane_spec.specs.declared.PlanBox.{PlanBox};
ghost use Rattle.sight_spec.specs.Axial.{axial_lines, line_through};
ghost use Rattle.sight_spec.specs.Dirty.{is_dirty_line};
ghost use Rattle.sight_spec.specs.Scene.{Scene};
ghost use Rattle.list_laws.specs.Merged.{merged};
ghost use Rattle.dirty_laws.specs.Scenes.{ClosesUp, IsWithout, removal_of};
ghost use Rattle.extent_laws.specs.Corners.{IsPairOfCorners, Pair};
ghost use Rattle.line_laws.specs.Lines.{IsSameLine, are_fresh_stopped, comes_before, fresh_lines, is_stopped};
ghost use Rattle.line_laws.specs.Lines.{kept_lines};

/// A pair of corners whose line misses the box keeps its sight and the stops of its line, where the new scene is the
/// old one without what lies in the box.
pub fn an_old_line_that_misses_the_box_stays()
    ensures { (box : PlanBox) (old new : Scene) → IsWithout box old new → (e : Pair) → IsPairOfCorners old e
        → is_dirty_line (removal_of box) old (line_through old e) ≡ false → IsSameLine old new e.0.1 e.1.1 }
{}

/// A pair of corners whose line in the new scene misses the box and is stopped at both ends saw each other before
/// exactly where it does now, and its line had the same stops.
///
/// Without a stop this fails: an end without one is the corner itself, and the old line may have gone on into the box.
pub fn a_new_line_that_misses_the_box_was_there()
    ensures { (box : PlanBox) (old new : Scene) → IsWithout box old new → (e : Pair) → IsPairOfCorners new e
        → is_stopped new e ≡ true → is_dirty_line (removal_of box) new (line_through new e) ≡ false
        → IsSameLine old new e.0.1 e.1.1 }
{}

/// The axial lines after a removal are the old ones whose extent misses the box, with their numbers closed up, merged
/// by their numbers with the first ones of the pairs of dirty corners that see each other and have an extent that
/// meets the box. That is so where something stops the line of each such pair at each end.
pub fn the_axial_lines_after_a_removal()
    ensures { (box : PlanBox) (old new : Scene) → IsWithout box old new → (c : ClosesUp box old new)
        → are_fresh_stopped (removal_of box) old (axial_lines old) new ≡ true
        → axial_lines new
        ≡ merged comes_before (kept_lines (removal_of box) old (axial_lines old) (length c.front) (length c.gone))
        (fresh_lines (removal_of box) old (axial_lines old) new) }
{}
