//! The triangles of an isovist overlap nowhere.

ghost use Rattle.std.specs.Prelude.{AllPairs};
ghost use Rattle.plane_spec.specs.declared.Point.{Point};
ghost use Rattle.plan_spec.specs.Plan.{Plan};
ghost use Rattle.sight_spec.specs.Isovist.{isovist_in};
ghost use Rattle.sight_spec.specs.Scene.{scene_of};
ghost use Rattle.isovist_laws.specs.Overlaps.{AreTrianglesApart};

/// The triangles of an isovist overlap nowhere: no place lies strictly inside two of them, so no area is counted
/// twice. Places are points whose coordinates are any fractions. The plan may be any, sound or not, and the point
/// anywhere.
///
/// ```text
///   d______________________c
///   |`.        q         .'|     What is seen from p is cut along rays to corners. Here q lies inside the triangle
///   |  `.              .'  |     of the wall from c to d, and in no other. A side may be shared: what lies on it is
///   |    `.          .'    |     strictly inside none.
///   |      `.      .'      |
///   |        `.  .'        |
///   a----------p-----------b
/// ```
///
/// The far corners of a triangle lie in the two directions of its run, ahead of the point. A place inside it is left
/// of the ray to the first and right of the ray to the second, so the direction to it lies strictly between the
/// run's two. No direction does so in two runs (`runs_go_round_once`).
pub fn triangles_overlap_nowhere()
    ensures { (plan : Plan) (p : Point) → AllPairs (AreTrianglesApart p) (isovist_in (scene_of plan) p).triangles }
{}
