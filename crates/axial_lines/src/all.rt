//! All axial lines of a scene.

ghost use Rattle.std.specs.Prelude.{Err, IfOk, ◌≡◌, ◌≤◌, ◌<◌, length, map};
ghost use Rattle.std.specs.List.{enumerate_from};
ghost use Rattle.plan_spec.specs.declared.limits.TheConstants.{MAX_AXIAL_LINES};
ghost use Rattle.sight_spec.specs.Axial.{axial_lines, here_of};
ghost use Rattle.axial_lines.specs.declared.fault.LinesFault.TheVariants.{TooManyLines};
ghost use Rattle.axial_lines.specs.Looks.{HasCountedUpTo, more_by};

use crate::corners::numbered_corners;
use crate::engine::lines_between;
use crate::fault::LinesFault;
use crate::line::AxialLine;
use crate::outlooks::Outlooks;
use sight_core::Scene;
use sight_sweep::Steps;
use std::alloc::Global;
use text_spec::NoMemory;

/// The corners with the views from them, by one look each.
fn corner_views(alloc: Global, scene: &Scene, steps: &mut Steps) -> Result<Outlooks, NoMemory>
    ensures scene { IfOk result (λ outlooks. outlooks.scene ≡ scene.now) }
    ensures corners { IfOk result (λ outlooks. outlooks.ends ≡ enumerate_from 0 (map here_of scene.now.corners)) }
    ensures counted { IfOk result (λ outlooks. steps.new ≡ more_by (length scene.now.corners) steps.old) }
    ensures at_most { HasCountedUpTo (length scene.now.corners) steps.old steps.new }
{
    let ends = numbered_corners(alloc, scene)?;
    Outlooks::by_looks(alloc, scene, ends, steps)
}

/// The axial lines of a scene: those through all pairs of corners that see each other, in the order of their numbers,
/// each as far as nothing stops it. A line is left out where an earlier one has its ends.
///
/// Counts one sweep for each corner: one look from it serves all its pairs. Without memory it may be fewer.
///
/// Where there is memory, `Err(TooManyLines)` is answered exactly where there are more than
/// [`MAX_AXIAL_LINES`](plan_spec::MAX_AXIAL_LINES); no more than one above that is made.
///
/// Cost: a look for each corner; for each pair of corners a search in a view, and for those in sight two more and a
/// look-up by a hash. Memory: the views, of which each has a sector for each corner that may be seen.
///
/// Source: all-line axial maps after Penn, Conroy, Dalton, Dekker, Mottram and Turner (1997); where a line ends is this
/// project's own.
#[tactic(auto, using(crate::proofs::Distinct::all_wanted))]
pub fn all_lines(
    alloc: Global,
    scene: &Scene,
    steps: &mut Steps,
) -> Result<Vec<AxialLine>, LinesFault>
    ensures lines { IfOk result (λ lines. lines.items ≡ axial_lines scene.now) }
    ensures at_most { IfOk result (λ lines. length lines.items ≤ MAX_AXIAL_LINES) }
    ensures too_many { result ≡ Err TooManyLines → MAX_AXIAL_LINES < length (axial_lines scene.now) }
    ensures counted { IfOk result (λ lines. steps.new ≡ more_by (length scene.now.corners) steps.old) }
    ensures counted_at_most { HasCountedUpTo (length scene.now.corners) steps.old steps.new }
{
    match corner_views(alloc, scene, steps) {
        Ok(outlooks) => lines_between(alloc, scene, &outlooks, None),
        Err(_) => Err(LinesFault::NoMemory),
    }
}

/// The same lines, without a look: sight and stops are asked pair by pair.
#[tactic(auto, using(crate::proofs::Distinct::all_wanted))]
pub(crate) fn all_lines_without_looks(
    alloc: Global,
    scene: &Scene,
) -> Result<Vec<AxialLine>, LinesFault>
    ensures lines { IfOk result (λ lines. lines.items ≡ axial_lines scene.now) }
    ensures at_most { IfOk result (λ lines. length lines.items ≤ MAX_AXIAL_LINES) }
    ensures too_many { result ≡ Err TooManyLines → MAX_AXIAL_LINES < length (axial_lines scene.now) }
{
    let Ok(ends) = numbered_corners(alloc, scene) else {
        return Err(LinesFault::NoMemory);
    };
    match Outlooks::without_looks(alloc, scene, ends) {
        Ok(outlooks) => lines_between(alloc, scene, &outlooks, None),
        Err(_) => Err(LinesFault::NoMemory),
    }
}
