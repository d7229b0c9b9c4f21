//! What a convex polygon by itself blocks, as an obstacle and as the outer polygon.

ghost use Rattle.std.specs.Prelude.{Contains, List, false, true, ◌&&◌, ◌≡◌};
ghost use Rattle.plane_spec.specs.declared.Point.{Point};
ghost use Rattle.plane_spec.specs.Polygons.{has_repeat, is_simple};
ghost use Rattle.plan_spec.specs.Plan.{Obstacle, Plan};
ghost use Rattle.sight_spec.specs.Scene.{scene_of};
ghost use Rattle.sight_spec.specs.Sight.{are_in_sight, is_blocked};
ghost use Rattle.polygon_laws.specs.Alone.{obstacle_alone, outer_alone};
ghost use Rattle.polygon_laws.specs.Through.{is_within};
ghost use Rattle.sight_laws.specs.Convex.{PassesThrough, is_convex, is_on_or_inside, is_strictly_inside};

/// A segment that passes through a simple convex obstacle, and of which one end isn't strictly inside, is blocked by
/// one of the obstacle's walls or corners. So in a plan with that obstacle, sound or not, its ends don't see each
/// other.
pub fn no_sight_through_a_convex_obstacle()
    ensures alone { (points : List Point) (p q : Point) → is_simple points ≡ true → is_convex points ≡ true
        → (is_strictly_inside p points && is_strictly_inside q points) ≡ false
        → PassesThrough points p q → is_blocked (obstacle_alone points) p q ≡ true }
    ensures plan { (plan : Plan) (o : Obstacle) (p q : Point) → Contains plan.obstacles o
        → is_simple o.points ≡ true → is_convex o.points ≡ true
        → (is_strictly_inside p o.points && is_strictly_inside q o.points) ≡ false
        → PassesThrough o.points p q → are_in_sight (scene_of plan) p q ≡ false }
{}

/// Where the rule at walls and corners says that a simple convex obstacle blocks the segment between two points, the
/// segment passes through it: some point between its ends, at a fraction of the way, is strictly left of all walls.
/// So a sight line that goes round such an obstacle, or along its walls and over its corners, is never cut.
pub fn a_convex_obstacle_blocks_no_more()
    ensures { (points : List Point) (p q : Point) → is_simple points ≡ true → is_convex points ≡ true
        → is_blocked (obstacle_alone points) p q ≡ true → PassesThrough points p q }
{}

/// Between two points on or inside a convex outer polygon whose neighbouring points differ, none of its walls or
/// corners is in the way. The same holds of any outer polygon, between two points that are on or left of all its
/// walls.
pub fn a_convex_outer_polygon_blocks_nothing()
    ensures within { (points : List Point) (p q : Point) → has_repeat points ≡ false → is_convex points ≡ true
        → is_within p points ≡ true → is_within q points ≡ true → is_blocked (outer_alone points) p q ≡ false }
    ensures left_of_all { (points : List Point) (p q : Point) → is_on_or_inside p points ≡ true
        → is_on_or_inside q points ≡ true → is_blocked (outer_alone points) p q ≡ false }
{}
