//! The corners of a scene with their numbers, and lists that grow.

ghost use Rattle.std.specs.Prelude.{All, IfOk, OnErr, OnOk, ◌≡◌, ◌<◌, ◌∷◌, ◌++◌, [], length, map};
ghost use Rattle.std.specs.List.{enumerate_from};
ghost use Rattle.plane_spec.specs.Vectors.{InRange};
ghost use Rattle.sight_spec.specs.Axial.{here_of};
ghost use Rattle.sight_spec.specs.Dirty as dirty;
ghost use Rattle.axial_lines.specs.Found.{IsEndInRange};

use plane_spec::Point;
use sight_core::Scene;
use std::alloc::Global;
use text_spec::NoMemory;

/// Appends an element. Without memory the elements are as before.
pub(crate) fn append<T: Copy>(list: &mut Vec<T>, x: T) -> Result<(), NoMemory>
    ensures added { OnOk result (list.new.items ≡ list.old.items ++ x ∷ []) }
    ensures unchanged { OnErr result (list.new.items ≡ list.old.items) }
{
    list.push(x).map_err(|_| NoMemory)
}

/// Where the corner of a number stands.
#[tactic(auto, using(crate::proofs::CornerPoints::corner_at))]
pub(crate) fn corner_point(scene: &Scene, number: u32) -> Point
    requires { number < length scene.now.corners }
    ensures value { result ≡ dirty.corner_point scene.now number }
    ensures in_range { InRange result }
{
    scene.corners()[number as usize].here
}

/// The corners with their numbers.
pub(crate) fn numbered_corners(alloc: Global, scene: &Scene) -> Result<Vec<(u32, Point)>, NoMemory>
    ensures corners { IfOk result (λ ends. ends.items ≡ enumerate_from 0 (map here_of scene.now.corners)) }
    ensures in_range { IfOk result (λ ends. All IsEndInRange ends.items) }
{
    let corners = scene.corners();
    let mut ends = Vec::new(alloc);
    for k in 0..corners.len() {
        append(&mut ends, (k as u32, corners[k].here))?;
    }
    Ok(ends)
}
