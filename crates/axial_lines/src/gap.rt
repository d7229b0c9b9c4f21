//! Which corners a removal takes out.

ghost use Rattle.std.specs.Prelude.{◌≡◌, ◌≤◌, length, map};
ghost use Rattle.plane_spec.specs.declared.PlanBox.{PlanBox};
ghost use Rattle.dirty_laws.specs.Scenes.{IsEdited, removal_of};
ghost use Rattle.sight_spec.specs.Axial.{here_of};
ghost use Rattle.axial_lines.specs.Removal.{AreAlikeBefore, DifferAt, IsGap};

use exact_geom::same_point;
use plane_spec::Corner;
use sight_core::Scene;

/// How many corners from the first on stand at the same points.
fn common_front(some: &[Corner], others: &[Corner]) -> usize
    ensures alike { AreAlikeBefore result (map here_of some.now) (map here_of others.now) }
    ensures at_most { result ≤ length others.now }
    ensures differ { DifferAt result (map here_of some.now) (map here_of others.now) }
{
    let mut k = 0;
    while k < some.len() && k < others.len() && same_point(some[k].here, others[k].here) {
        k += 1;
    }
    k
}

/// The number of the first corner that a removal takes out, and how many it takes out: they stand together. Where what
/// is gone begins with the points of what stays behind it, the last such place is found.
///
/// Cost: one pass over the corners.
pub(crate) fn gap(before: &Scene, after: &Scene) -> (u32, u32)
    ensures { (area : PlanBox) → IsEdited before.now after.now (removal_of area)
        → IsGap area before.now after.now result.0 result.1 }
{
    let (was, is) = (before.corners(), after.corners());
    let start = common_front(was, is);
    (start as u32, was.len().saturating_sub(is.len()) as u32)
}
