//! Laws of plans: what follows from the definitions of plans, their acceptance, refusals and edits, for every plan.
//!
//! A law is a function without parameters and with an empty body, whose contract states it.
//!
//! | law | what it says | breaks if .. changes |
//! |---|---|---|
//! | [`adding_an_item`] | an item is refused exactly where the plan with it would not be sound | `may_follow`, `why_not_item`, `is_sound` |
//! | [`checking_items`] | adding items one after the other accepts what the condition on the whole list accepts | `check_of`, `is_accepted` |
//! | [`the_ranges_of_a_sound_plan`] | its points are in range, and no limit is passed | `is_sound`, `grid_points` |
//! | [`editing_a_sound_plan`] | an edit is refused exactly where it names nothing or the plan after it would not be sound | `is_there`, `why_not_edit`, `is_sound` |
//! | [`the_boxes_of_an_edit`] | where nothing refuses the edit, they are in range | `changed_boxes`, `why_not_edit` |
//! | [`the_edit_between_two_plans`] | the plan after it is sound, and its boxes are in range | `IsEditBetween` |
//! | [`the_items_of_a_plan`] | the items of a sound plan are accepted and make that plan again | `items_of`, `with_items`, `check_of` |
//! | [`grid_points_are_numbered_by_rows`] | number `row * cols + col` is the point in that row and column, and each point has its number alone | `grid_points`, `number_of_point` |
//!
//! Proofs of code cite the laws by the lemmas in `proofs/`, which state them kind by kind.
#![tactic(auto)]

ghost use Rattle.std.specs.Prelude.{◌≡◌, ◌≤◌, ◌*◌, ◌&&◌, IfSome, List, None, Ok, Some, is_none, is_ok, length, true, unsigned_abs, ℕ, ◌<◌, ◌+◌, ◌≤ℤ◌, pos};
ghost use Rattle.std.specs.List.{All};
ghost use Rattle.plane_spec.specs.declared.Point.{Point};
ghost use Rattle.plane_spec.specs.Vectors.{InRange};
ghost use Rattle.plan_spec.specs.declared.edit.Changed.{Changed};
ghost use Rattle.plan_spec.specs.declared.edit.Edit.{Edit};
ghost use Rattle.plan_spec.specs.declared.item.GridSpec.{GridSpec};
ghost use Rattle.plan_spec.specs.declared.item.Item.{Item};
ghost use Rattle.plan_spec.specs.declared.item.Item.TheVariants.{Outer};
ghost use Rattle.plan_spec.specs.declared.limits.TheConstants.{MAX_GRID_POINTS};
ghost use Rattle.plan_spec.specs.Plan.{Plan, empty_plan, has_outer, items_of, with_item, with_items};
ghost use Rattle.plan_spec.specs.Accepted.{is_accepted, is_sound, may_follow};
ghost use Rattle.plan_spec.specs.Refusals.{check_of, why_not_item};
ghost use Rattle.plan_spec.specs.Edits.{IsEditBetween, changed_boxes, plan_after_edit, is_there, why_not_edit};
ghost use Rattle.plan_spec.specs.Grid.{grid_points, number_of_point, point_at, point_of_number};
ghost use Rattle.plan_spec.specs.Ranges.{AreBoxesInRange, IsGridInRange, IsProperSegmentInRange, IsPolygonInRange, IsWithinLimits};

/// An item may follow and leaves a sound plan exactly where the plan is sound and nothing refuses the item. The outer
/// polygon by itself is a sound plan exactly where nothing refuses it on the empty plan.
pub fn adding_an_item()
    ensures item { (p : Plan) (i : Item) → (may_follow p i && is_sound (with_item p i)) ≡ (is_sound p && is_none (why_not_item p i)) }
    ensures outer { (points : List Point) → is_sound (with_item empty_plan (Outer points)) ≡ is_none (why_not_item empty_plan (Outer points)) }
{}

/// Items that are added one after the other are accepted exactly where the whole list is accepted, and the plan that
/// they make is sound.
pub fn checking_items()
    ensures accepted { (items : List Item) → is_accepted items ≡ is_ok (check_of items) }
    ensures plan { (items : List Item) (p : Plan) → check_of items ≡ Ok p → p ≡ with_items empty_plan items }
    ensures sound { (items : List Item) (p : Plan) → check_of items ≡ Ok p → is_sound p ≡ true }
{}

/// A sound plan has an outer polygon. The points of its polygons, the ends of its screens and routes and the points of
/// its grid are in range, and no limit is passed. A grid has as many points as its columns times its rows, and a sound
/// plan's no more than a grid may have.
pub fn the_ranges_of_a_sound_plan()
    ensures begun { (p : Plan) → is_sound p ≡ true → has_outer p ≡ true }
    ensures outer { (p : Plan) → is_sound p ≡ true → IsPolygonInRange p.outer }
    ensures obstacles { (p : Plan) → is_sound p ≡ true → All (λ o. IsPolygonInRange o.points) p.obstacles }
    ensures screens { (p : Plan) → is_sound p ≡ true → All (λ s. IsProperSegmentInRange s.from s.to) p.screens }
    ensures routes { (p : Plan) → is_sound p ≡ true → All (λ r. IsProperSegmentInRange r.from r.to) p.routes }
    ensures limits { (p : Plan) → is_sound p ≡ true → IsWithinLimits p }
    ensures grid { (p : Plan) → is_sound p ≡ true → IfSome p.grid IsGridInRange }
    ensures grid_points_in_range { (p : Plan) → is_sound p ≡ true → All InRange (grid_points p.grid) }
    ensures grid_points_few { (p : Plan) → is_sound p ≡ true → length (grid_points p.grid) ≤ MAX_GRID_POINTS }
    ensures grid_points_count { (g : GridSpec) → length (grid_points (Some g)) ≡ unsigned_abs g.cols * unsigned_abs g.rows }
{}

/// An edit of a sound plan is refused exactly where what it removes or moves isn't there, or the plan after it would
/// not be sound. So an edit that isn't refused leaves a sound plan.
pub fn editing_a_sound_plan()
    ensures refused { (p : Plan) (e : Edit) → is_sound p ≡ true → is_none (why_not_edit p e) ≡ (is_there p e && is_sound (plan_after_edit p e)) }
    ensures sound { (p : Plan) (e : Edit) → is_sound p ≡ true → why_not_edit p e ≡ None → is_sound (plan_after_edit p e) ≡ true }
{}

/// The boxes in which an edit of a sound plan changes something are in range, where nothing refuses the edit.
pub fn the_boxes_of_an_edit()
    ensures { (p : Plan) (e : Edit) → is_sound p ≡ true → why_not_edit p e ≡ None → AreBoxesInRange (changed_boxes p e) }
{}

/// Where an edit that nothing refuses makes one plan of another, sound one, the plan after it is sound, and the boxes
/// in which it changes something are in range.
pub fn the_edit_between_two_plans()
    ensures sound { (before after : Plan) (boxes : Changed) → IsEditBetween before after boxes → is_sound after ≡ true }
    ensures boxes { (before after : Plan) (boxes : Changed) → IsEditBetween before after boxes → AreBoxesInRange boxes }
{}

/// The items of any plan make that plan. They are accepted exactly where the plan is sound, and then checking them
/// gives the plan again.
pub fn the_items_of_a_plan()
    ensures make { (p : Plan) → with_items empty_plan (items_of p) ≡ p }
    ensures accepted { (p : Plan) → is_accepted (items_of p) ≡ is_sound p }
    ensures again { (p : Plan) → is_sound p ≡ true → check_of (items_of p) ≡ Ok p }
{}

/// The points of a grid are numbered row by row. So the point in a row and a column has the number of those before it:
/// the columns of each row below, and the earlier ones of its own. Where columns and rows are at least a unit apart,
/// as in a sound plan, no two numbers have one point: a point's number is the one that is found for it.
pub fn grid_points_are_numbered_by_rows()
    ensures point { (g : GridSpec) (row col : ℕ) → row < unsigned_abs g.rows → col < unsigned_abs g.cols
        → point_of_number (Some g) (row * unsigned_abs g.cols + col) ≡ point_at g row col }
    ensures below { (g : GridSpec) (row col : ℕ) → row < unsigned_abs g.rows → col < unsigned_abs g.cols
        → row * unsigned_abs g.cols + col < length (grid_points (Some g)) }
    ensures number { (g : GridSpec) → pos 1 ≤ℤ g.step → (k : ℕ) → k < length (grid_points (Some g))
        → number_of_point (Some g) (point_of_number (Some g) k) ≡ Some k }
    ensures found { (g : GridSpec) (x : Point) (k : ℕ) → number_of_point (Some g) x ≡ Some k
        → (k < length (grid_points (Some g))) × (point_of_number (Some g) k ≡ x) }
{}
