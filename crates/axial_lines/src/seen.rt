//! Pairs of points that see each other, and where the line through them is stopped.
//!
//! Each is asked of the view from its point, where there is one, and else of all walls, screens and corners.

ghost use Rattle.std.specs.Prelude.{IfSome, ◌≡◌, false};
ghost use Rattle.exact_geom.specs.Parts.{HasStopParts};
ghost use Rattle.plane_spec.specs.Vectors as vectors;
ghost use Rattle.plane_spec.specs.Vectors.{InRange, IsDirected, IsDirection};
ghost use Rattle.sight_core.specs.Scenes.{IsOfSoundPlan};
ghost use Rattle.sight_spec.specs.Sight.{are_in_sight};
ghost use Rattle.sight_spec.specs.Stops.{stop_of};
ghost use Rattle.sight_sweep.specs.Answers.{IsSeenFrom};
ghost use Rattle.axial_lines.specs.Found as found;

use exact_geom::{Frac, same_point, vector};
use plane_spec::Point;
use sight_core::{Scene, free, stop};
use sight_sweep::{Answer, Arc, SceneTable, Target, View, answer_by, sight_by};

/// The direction from one point to another that differs.
fn heading(q: Point, p: Point) -> Point
    requires q_in { InRange q }
    requires p_in { InRange p }
    requires differ { vectors.same_point q p ≡ false }
    ensures value { result ≡ vectors.vector q p }
    ensures direction { IsDirection result }
    ensures directed { IsDirected result }
{
    vector(q, p)
}

/// Whether the view from `p` sees `q`.
fn sees(table: &SceneTable, p: Point, view: &View, q: Point) -> bool
    requires of_plan { IsOfSoundPlan table.now }
    requires p_in { InRange p }
    requires view { IsSeenFrom table.now p Arc.All view.now }
    requires q_in { InRange q }
    ensures { result ≡ are_in_sight table.now p q }
{
    if same_point(p, q) {
        return false;
    }
    sight_by(table, p, Arc::All, view, q, None, 0).is_seen
}

/// Whether two points see each other.
fn do_see(scene: &Scene, table: &SceneTable, p: Point, view: Option<&View>, q: Point) -> bool
    requires of_scene { table.now ≡ scene.now }
    requires of_plan { IsOfSoundPlan table.now }
    requires p_in { InRange p }
    requires view { IfSome view (λ v. IsSeenFrom table.now p Arc.All v.now) }
    requires q_in { InRange q }
    ensures { result ≡ are_in_sight scene.now p q }
{
    match view {
        None => free(scene, p, q),
        Some(view) => sees(table, p, view, q),
    }
}

/// Where the ray from `p` is stopped, by the view from there.
fn stop_seen(scene: &Scene, table: &SceneTable, p: Point, view: &View, d: Point) -> Option<Frac>
    requires of_scene { table.now ≡ scene.now }
    requires of_plan { IsOfSoundPlan table.now }
    requires p_in { InRange p }
    requires view { IsSeenFrom table.now p Arc.All view.now }
    requires d_in { IsDirection d }
    requires directed { IsDirected d }
    ensures { result ≡ stop_of scene.now p d }
{
    match answer_by(table, p, Arc::All, view, &Target::Ray(d)) {
        Answer::Seen(_seen) => stop(scene, p, d),
        Answer::Reach { stop, wall: _wall } => stop,
    }
}

/// Where the ray on from `p`, away from `q`, is stopped.
fn stop_beyond(
    scene: &Scene,
    table: &SceneTable,
    q: Point,
    p: Point,
    view: Option<&View>,
) -> Option<Frac>
    requires of_scene { table.now ≡ scene.now }
    requires of_plan { IsOfSoundPlan table.now }
    requires q_in { InRange q }
    requires p_in { InRange p }
    requires view { IfSome view (λ v. IsSeenFrom table.now p Arc.All v.now) }
    requires differ { vectors.same_point q p ≡ false }
    ensures stop { result ≡ stop_of scene.now p (vectors.vector q p) }
    ensures parts_bounded { IfSome result HasStopParts }
{
    let d = heading(q, p);
    match view {
        None => stop(scene, p, d),
        Some(view) => stop_seen(scene, table, p, view, d),
    }
}

/// Where two points see each other, the stops of the line through them: beyond the first, and beyond the second. Each
/// point stands beside the view from it, where there is one.
///
/// Cost: with views, a search in the sectors of one, and where the two see each other, two more.
pub(crate) fn stops_of_pair(
    scene: &Scene,
    table: &SceneTable,
    p: Point,
    from_p: Option<&View>,
    q: Point,
    from_q: Option<&View>,
) -> Option<(Option<Frac>, Option<Frac>)>
    requires of_scene { table.now ≡ scene.now }
    requires of_plan { IsOfSoundPlan table.now }
    requires p_in { InRange p }
    requires q_in { InRange q }
    requires from_p { IfSome from_p (λ v. IsSeenFrom table.now p Arc.All v.now) }
    requires from_q { IfSome from_q (λ v. IsSeenFrom table.now q Arc.All v.now) }
    ensures stops { result ≡ found.stops_of_pair scene.now p q }
    ensures first_bounded { IfSome result (λ stops. IfSome stops.0 HasStopParts) }
    ensures second_bounded { IfSome result (λ stops. IfSome stops.1 HasStopParts) }
{
    if do_see(scene, table, p, from_p, q) {
        Some((
            stop_beyond(scene, table, q, p, from_p),
            stop_beyond(scene, table, p, q, from_q),
        ))
    } else {
        None
    }
}
