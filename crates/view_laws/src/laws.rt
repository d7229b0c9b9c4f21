//! What a view answers for sight, stops and the nearest wall is so.

ghost use Rattle.std.specs.Prelude.{◌≡◌, true, false};
ghost use Rattle.std.specs.Option.{option_map};
ghost use Rattle.plane_spec.specs.declared.Point.{Point};
ghost use Rattle.plane_spec.specs.Vectors.{vector, same_point, IsDirection, IsDirected};
ghost use Rattle.plane_spec.specs.Fractions.{reduced};
ghost use Rattle.sight_spec.specs.Scene.{Scene};
ghost use Rattle.sight_spec.specs.Sight.{are_in_sight};
ghost use Rattle.sight_spec.specs.Stops.{near_wall_of, stop_of};
ghost use Rattle.view_laws.specs.declared.view.Arc.{Arc};
ghost use Rattle.view_laws.specs.declared.view.View.{View};
ghost use Rattle.view_laws.specs.Views.{IsViewOf, is_in_arc, is_led_into, is_seen_by, number_by, stop_by, radial_of};

/// A point in a direction of the arc is in sight exactly where the view answers so.
pub fn sight_by_view()
    ensures { (scene : Scene) (p q : Point) (arc : Arc) (view : View) → IsViewOf scene p arc view
        → same_point p q ≡ false → IsDirection (vector p q) → IsDirected (vector p q)
        → is_in_arc arc (vector p q) ≡ true → are_in_sight scene p q
        ≡ is_seen_by (is_led_into view.ground (vector p q)) (radial_of view (vector p q)) (vector p q) }
{}

/// The wall or screen that a ray in a direction of the arc meets nearest is the one that the view answers.
pub fn near_wall_by_view()
    ensures { (scene : Scene) (p d : Point) (arc : Arc) (view : View) → IsViewOf scene p arc view
        → IsDirection d → IsDirected d → is_in_arc arc d ≡ true
        → near_wall_of scene p d ≡ number_by (radial_of view d).front }
{}

/// A ray in a direction of the arc is stopped where the view answers, in lowest terms.
pub fn stop_by_view()
    ensures { (scene : Scene) (p d : Point) (arc : Arc) (view : View) → IsViewOf scene p arc view
        → IsDirection d → IsDirected d → is_in_arc arc d ≡ true
        → stop_of scene p d ≡ option_map reduced (stop_by (is_led_into view.ground d) (radial_of view d) d) }
{}
