//! The views from corners, one look each.

ghost use Rattle.std.specs.Prelude.{All, IfOk, IfSome, List, OnOk, ◌≡◌, ◌++◌, ◌∷◌, [], ℕ, length};
ghost use Rattle.sight_spec.specs.Scene.{Scene};
ghost use Rattle.sight_sweep.specs.Answers.{IsSeenFrom};
ghost use Rattle.axial_lines.specs.Found.{IsEndInRange};
ghost use Rattle.axial_lines.specs.Looks.{AreSeenFrom, HasCountedUpTo, end_at, more_by};

use plane_spec::Point;
use sight_sweep::{Arc, SceneTable, Steps, View, look};
use std::alloc::Global;
use text_spec::NoMemory;

/// Appends a view. Without memory there is none.
fn push_view(views: &mut Vec<View>, view: View) -> Result<(), NoMemory>
    ensures { OnOk result (views.new.items ≡ views.old.items ++ view ∷ []) }
{
    match views.push(view) {
        Ok(()) => Ok(()),
        Err(_refused) => Err(NoMemory),
    }
}

/// The view from the point at a place, where there is one.
pub(crate) fn view_at(views: &[View], k: usize) -> Option<&View>
    ensures { (scene : Scene) (ends : List (ℕ × Point)) → AreSeenFrom scene ends views.now
        → IfSome result (λ v. IsSeenFrom scene (end_at ends k).1 Arc.All v.now) }
{
    views.get(k)
}

/// The views all round from numbered points: one look each, which counts one sweep.
///
/// Cost: a look for each point.
pub(crate) fn views_from(
    alloc: Global,
    table: &SceneTable,
    ends: &[(u32, Point)],
    steps: &mut Steps,
) -> Result<Vec<View>, NoMemory>
    requires ends_in { All IsEndInRange ends.now }
    ensures views { IfOk result (λ views. AreSeenFrom table.now ends.now views.items) }
    ensures counted { IfOk result (λ views. steps.new ≡ more_by (length ends.now) steps.old) }
    ensures at_most { HasCountedUpTo (length ends.now) steps.old steps.new }
{
    let mut views = Vec::new(alloc);
    for k in 0..ends.len() {
        let view = look(alloc, table, ends[k].1, Arc::All, steps)?;
        push_view(&mut views, view)?;
    }
    Ok(views)
}
