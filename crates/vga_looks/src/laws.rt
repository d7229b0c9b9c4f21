//! Where the points of a grid lie from each other.

ghost use Rattle.std.specs.Prelude.{◌≡◌, ◌<◌, length, true, ℕ};
ghost use Rattle.plan_spec.specs.Accepted.{is_sound};
ghost use Rattle.plan_spec.specs.Grid.{grid_points, point_of_number};
ghost use Rattle.plan_spec.specs.Plan.{Plan};
ghost use Rattle.plane_spec.specs.Vectors.{is_upper, vector};

/// From a point of a sound plan's grid all points of greater numbers lie above it, or straight to its right.
pub fn later_points_are_above()
    ensures { (plan : Plan) (i j : ℕ) → is_sound plan ≡ true → i < j → j < length (grid_points plan.grid)
        → is_upper (vector (point_of_number plan.grid i) (point_of_number plan.grid j)) ≡ true }
{}
