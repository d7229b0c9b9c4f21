//! Laws of edits: what stays as it was where nothing comes near the box of the obstacle or screen before an edit nor
//! the one after it.
//!
//! A law is a function without parameters and with an empty body, whose contract states it. Plans and edits may be any,
//! unless a law says otherwise: no plan need be sound, several of its obstacles may have the name that the edit names,
//! and nothing is asked of the edit. Coordinates are any whole numbers.
//!
//! | law | what it says |
//! |---|---|
//! | [`a_pair_that_is_not_dirty_keeps_its_sight`] | two points whose segment meets neither box see each other after an edit exactly where they did before |
//! | [`a_point_of_a_pair_that_is_not_dirty_keeps_its_openness`] | each of such two points is open after an edit exactly where it was before |
//! | [`a_row_that_is_not_dirty_keeps_its_edges`] | a grid point of which no pair with a later one is dirty keeps its edges to later ones |
//! | [`an_edit_without_boxes_keeps_the_scene`] | where an edit has a box neither before it nor after it, all that is seen stays |
//! | [`a_removal_takes_what_is_in_its_box`] | the scene after a removal is the one before it without some walls, screens and corners of its box |
//! | [`the_corners_after_a_removal`] | the corners that a removal takes out of a sound plan stand together |
//! | [`every_corner_is_dirty_after_an_addition`] | where an edit has a box after it, each corner of the new scene is dirty |
//!
//! All rest on the boxes of an edit, on the plan after it (`plan_spec`, `Edits`) and on when a segment meets a box
//! (`plane_spec`, `Boxes`). Besides, sight breaks if a wall, a screen or a corner blocks otherwise (`sight_spec`,
//! `Sight`) or a scene is made otherwise (`sight_spec`, `Scene`); openness breaks if a point is inside a polygon
//! otherwise (`plane_spec`, `Polygons`); edges break if the grid's points (`plan_spec`, `Grid`) or its edges
//! (`sight_spec`, `Visibility`) change. The laws on corners break if a scene has its corners in another order
//! (`Scene`), and the last two if a sound plan may have two obstacles of one name, or a polygon with two equal
//! neighbours (`Accepted`).
//!
//! Proofs cite the laws by the lemmas in `proofs/`: `Sight`, `Openness`, `Rows`, `Unboxed`, and `Edited` for those on
//! scenes, whose parts are in `Removal`, `ClosingUp` and `Added`.
#![tactic(auto)]

ghost use Rattle.std.specs.Prelude.{◌≡◌, List, None, Some, ℕ, false, filter, true};
ghost use Rattle.plane_spec.specs.declared.Point.{Point};
ghost use Rattle.plane_spec.specs.declared.PlanBox.{PlanBox};
ghost use Rattle.plan_spec.specs.declared.edit.Changed.{Changed};
ghost use Rattle.plan_spec.specs.declared.edit.Edit.{Edit};
ghost use Rattle.sight_spec.specs.Axial.{AxialLine};
ghost use Rattle.sight_spec.specs.Dirty.{is_dirty_corner, is_dirty_pair, is_dirty_row};
ghost use Rattle.plan_spec.specs.Edits.{changed, changed_boxes, plan_after_edit};
ghost use Rattle.plan_spec.specs.Grid.{grid_points};
ghost use Rattle.sight_spec.specs.Visibility.{visibility_edges};
ghost use Rattle.plan_spec.specs.Plan.{Plan};
ghost use Rattle.sight_spec.specs.Scene.{Scene, scene_of};
ghost use Rattle.sight_spec.specs.Sight.{are_in_sight, is_open};
ghost use Rattle.dirty_laws.specs.Rows.{begins_at, is_edge};
ghost use Rattle.dirty_laws.specs.Scenes.{ClosesUp, IsEdited, IsRemoved, IsWithout, removal_of};

/// Two points whose segment meets neither the box of the obstacle or screen before an edit nor the one after it see
/// each other after the edit exactly where they did before.
pub fn a_pair_that_is_not_dirty_keeps_its_sight()
    ensures { (plan : Plan) (edit : Edit) (p q : Point) → is_dirty_pair (changed_boxes plan edit) p q ≡ false
        → are_in_sight (scene_of (plan_after_edit plan edit)) p q ≡ are_in_sight (scene_of plan) p q }
{}

/// Each of two points whose segment meets neither box is open after an edit exactly where it was before. With one point
/// taken twice, it says so of each point that is in neither box.
pub fn a_point_of_a_pair_that_is_not_dirty_keeps_its_openness()
    ensures first { (plan : Plan) (edit : Edit) (p q : Point) → is_dirty_pair (changed_boxes plan edit) p q ≡ false
        → is_open (plan_after_edit plan edit) p ≡ is_open plan p }
    ensures second { (plan : Plan) (edit : Edit) (p q : Point) → is_dirty_pair (changed_boxes plan edit) p q ≡ false
        → is_open (plan_after_edit plan edit) q ≡ is_open plan q }
{}

/// A grid point of which no pair with a later one is dirty has the same edges to later ones after an edit as before: as
/// a list, and pair by pair.
pub fn a_row_that_is_not_dirty_keeps_its_edges()
    ensures row { (plan : Plan) (edit : Edit) (i : ℕ)
        → is_dirty_row (changed_boxes plan edit) (grid_points plan.grid) i ≡ false
        → filter (begins_at i) (visibility_edges (plan_after_edit plan edit)) ≡ filter (begins_at i) (visibility_edges plan) }
    ensures edge { (plan : Plan) (edit : Edit) (i j : ℕ)
        → is_dirty_row (changed_boxes plan edit) (grid_points plan.grid) i ≡ false
        → is_edge (visibility_edges (plan_after_edit plan edit)) i j ≡ is_edge (visibility_edges plan) i j }
{}

/// An edit that has a box neither before it nor after it leaves the walls, screens and corners as they were.
pub fn an_edit_without_boxes_keeps_the_scene()
    ensures { (plan : Plan) (edit : Edit) → changed_boxes plan edit ≡ changed None None
        → scene_of (plan_after_edit plan edit) ≡ scene_of plan }
{}

/// The scene after an edit that only takes something away is the one before it without some walls, screens and corners,
/// which lie in the box of the edit. The plan may be any, and nothing is asked of the edit.
pub fn a_removal_takes_what_is_in_its_box()
    ensures { (box : PlanBox) (before after : Scene) → IsRemoved box before after → IsWithout box before after }
{}

/// The corners that an edit takes out of a sound plan stand together, where it only takes something away, and lie in
/// its box.
pub fn the_corners_after_a_removal()
    ensures { (box : PlanBox) (before after : Scene) → IsEdited before after (removal_of box)
        → ClosesUp box before after }
{}

/// Where an edit that nothing refuses has a box after it, each corner of the new scene is dirty: two corners of what it
/// adds or moves stand at different points of the box, and every other point makes a dirty pair with one of them. So
/// after an addition or a move all lines are asked for again.
pub fn every_corner_is_dirty_after_an_addition()
    ensures { (box : PlanBox) (before after : Scene) (boxes : Changed) → IsEdited before after boxes
        → boxes.second ≡ Some box → (lines : List AxialLine) (p : Point)
        → is_dirty_corner boxes before lines after p ≡ true }
{}
