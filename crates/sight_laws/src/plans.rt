//! What is seen in a plan of convex polygons.

ghost use Rattle.std.specs.Prelude.{Contains, IsTrue, false, true, ◌||◌, ◌≡◌, ◌↔◌};
ghost use Rattle.std.specs.List.{list_all, list_any};
ghost use Rattle.plane_spec.specs.declared.Point.{Point};
ghost use Rattle.plan_spec.specs.Accepted.{is_sound};
ghost use Rattle.plan_spec.specs.Plan.{Obstacle, Plan};
ghost use Rattle.sight_spec.specs.Scene.{scene_of};
ghost use Rattle.sight_spec.specs.Sight.{are_in_sight, is_open};
ghost use Rattle.polygon_laws.specs.Through.{SeesOver};
ghost use Rattle.sight_laws.specs.Convex.{PassesThrough, SeesPast, is_convex, is_convex_obstacle};
ghost use Rattle.sight_laws.specs.Convex.{has_both_inside, has_convex_polygons, is_on_or_inside};

/// In a plan whose obstacles are simple and convex, two points on or left of all walls of the outer polygon, which no
/// obstacle has both strictly inside, see each other exactly where they differ, the segment between them crosses no
/// screen properly, and it passes through no obstacle.
///
/// The plan need not be sound: obstacles may touch or overlap, and screens may end anywhere.
pub fn sight_among_convex_polygons()
    ensures { (plan : Plan) (p q : Point) → list_all is_convex_obstacle plan.obstacles ≡ true
        → is_on_or_inside p plan.outer ≡ true → is_on_or_inside q plan.outer ≡ true
        → list_any (has_both_inside p q) plan.obstacles ≡ false
        → (are_in_sight (scene_of plan) p q ≡ true) ↔ SeesPast plan p q }
{}

/// In a sound plan whose outer polygon and obstacles are convex, two open points see each other exactly where they
/// differ, the segment between them crosses no screen properly, and it passes through no obstacle.
pub fn what_is_seen_among_convex_polygons()
    ensures { (plan : Plan) (p q : Point) → IsTrue (is_sound plan) → has_convex_polygons plan ≡ true
        → is_open plan p ≡ true → is_open plan q ≡ true
        → (are_in_sight (scene_of plan) p q ≡ true) ↔ SeesPast plan p q }
{}

/// In such a plan, two open points see each other past all obstacles exactly where all points between them are open.
/// So the law of convex polygons is the special case of the law that sight is plane geometry.
pub fn seeing_past_is_seeing_over_open_points()
    ensures { (plan : Plan) (p q : Point) → IsTrue (is_sound plan) → has_convex_polygons plan ≡ true
        → is_open plan p ≡ true → is_open plan q ≡ true → SeesPast plan p q ↔ SeesOver plan p q }
{}

/// In a sound plan, two points of which at least one is open don't see each other where the segment between them
/// passes through a convex obstacle.
pub fn no_sight_between_open_points_through_a_convex_obstacle()
    ensures { (plan : Plan) (o : Obstacle) (p q : Point) → IsTrue (is_sound plan) → Contains plan.obstacles o
        → is_convex o.points ≡ true → (is_open plan p || is_open plan q) ≡ true
        → PassesThrough o.points p q → are_in_sight (scene_of plan) p q ≡ false }
{}
