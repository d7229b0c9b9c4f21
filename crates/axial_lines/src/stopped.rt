//! Whether something stops the lines of pairs of corners at each end.

ghost use Rattle.std.specs.Prelude.{◌≡◌, ◌<◌, ◌+◌, drop, filter, length, map};
ghost use Rattle.std.specs.List.{list_all};
ghost use Rattle.plane_spec.specs.Lists.{pairs, with_each};
ghost use Rattle.sight_spec.specs.Axial.{is_seen_pair};
ghost use Rattle.line_laws.specs.Lines as lists;
ghost use Rattle.axial_lines.specs.Looks.{end_at};
ghost use Rattle.axial_lines.specs.Removal.{is_stopped_if_seen};

use crate::outlooks::Outlooks;
use sight_core::Scene;

/// Whether something stops the line of the points at two places at each end, if the two see each other.
fn is_stopped(scene: &Scene, outlooks: &Outlooks, i: usize, j: usize) -> bool
    requires of_scene { outlooks.now.scene ≡ scene.now }
    requires i_in { i < length outlooks.now.ends }
    requires j_in { j < length outlooks.now.ends }
    ensures { result ≡ is_stopped_if_seen scene.now (end_at outlooks.now.ends i, end_at outlooks.now.ends j) }
{
    match outlooks.stops_of_pair(scene, i, j) {
        None => true,
        Some((before, after)) => before.is_some() && after.is_some(),
    }
}

/// The same of the pairs of the point at a place and each of those after it.
fn is_row_stopped(scene: &Scene, outlooks: &Outlooks, i: usize) -> bool
    requires of_scene { outlooks.now.scene ≡ scene.now }
    requires i_in { i < length outlooks.now.ends }
    ensures { result ≡ list_all (is_stopped_if_seen scene.now)
        (map (with_each (end_at outlooks.now.ends i)) (drop (i + 1) outlooks.now.ends)) }
{
    let count = outlooks.count();
    for k in i + 1..count {
        if !is_stopped(scene, outlooks, i, k) {
            return false;
        }
    }
    true
}

/// The same of all pairs.
///
/// Cost: for each pair sight, and for those in sight two stops.
#[tactic(auto, using(crate::proofs::Stopping::stopped_if_seen))]
pub(crate) fn are_stopped(scene: &Scene, outlooks: &Outlooks) -> bool
    requires of_scene { outlooks.now.scene ≡ scene.now }
    ensures { result
        ≡ list_all (lists.is_stopped scene.now) (filter (is_seen_pair scene.now) (pairs outlooks.now.ends)) }
{
    for k in 0..outlooks.count() {
        if !is_row_stopped(scene, outlooks, k) {
            return false;
        }
    }
    true
}
