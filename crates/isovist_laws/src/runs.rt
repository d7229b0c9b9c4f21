//! A wall spans the directions of its run, and the runs go round once.

ghost use Rattle.std.specs.Prelude.{All, AllPairs};
ghost use Rattle.plane_spec.specs.declared.Point.{Point};
ghost use Rattle.plan_spec.specs.Plan.{Plan};
ghost use Rattle.sight_spec.specs.Isovist.{runs_of, sectors_of};
ghost use Rattle.sight_spec.specs.Scene.{scene_of};
ghost use Rattle.isovist_laws.specs.Overlaps.{AreRunsApart};
ghost use Rattle.isovist_laws.specs.Spans.{IsMet};

/// No end of a run's wall or screen lies strictly between the run's directions, and the point that sees isn't on its
/// line; so the rays in both directions meet that line, ahead of the point. The plan may be any, sound or not, and the
/// point anywhere.
///
/// A sector lies between two neighbouring directions of corners, less than a half turn apart, and its wall is met ahead by
/// the ray in the direction of their sum. So one end of the wall lies right of the ray and the other left of it, less
/// than a half turn apart, and the point isn't on the wall's line. Where a wall ends a corner stands, so a direction of
/// the list points there; and no direction of the list lies strictly within a sector, since they are in order. So the end
/// on the right lies at the sector's first direction or before it: after it, the end would be between it and the ray.
/// Likewise the other end lies at the second direction or after it. Both directions then lie within the wall's own
/// angle, which is less than a half turn, and the rays in them meet the wall: at an end of it, or between its ends.
/// Sectors of one run follow each other and have one wall, and that lies in one way round in all of them; so its angle
/// holds all of the run.
pub fn a_wall_spans_its_run()
    ensures { (plan : Plan) (p : Point) → All (IsMet (scene_of plan) p) (runs_of (sectors_of (scene_of plan) p)) }
{}

/// The runs round a point go round once: no direction lies strictly between the directions of two different runs.
/// The plan may be any, sound or not, and the point anywhere.
///
/// ```text
///            c     b
///   d.       |    /          from a to c: one run, of the wall that is seen from a to b and from b to c
///     `.     |   /    .a     from c to d: the next run, beside it
///       `.   |  /   .'       from d to e: none, since no wall is seen in a half turn
///         `. | /  .'         from e to a: the last run, past (1,0), where the order of directions begins
///           `|/ .'
///            p---------> (1,0)
///             `.
///               `.
///                 `e
/// ```
///
/// The directions of corners are in order, counterclockwise from (1,0). A run goes from one of them to a later one,
/// and the last run alone may go on past (1,0), to the first of them. Each run begins where the run before it ends,
/// or later. So a direction strictly between those of an earlier run comes before the beginning of a later one; and
/// past (1,0), before all directions of corners, no run is but the last one. Each run is less than a half turn
/// (`a_wall_spans_its_run`), so what lies strictly between its directions lies between them in that order, too.
pub fn runs_go_round_once()
    ensures { (plan : Plan) (p : Point) → AllPairs AreRunsApart (runs_of (sectors_of (scene_of plan) p)) }
{}
