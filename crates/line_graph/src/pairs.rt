//! Whether two lines meet.

ghost use Rattle.std.specs.Prelude.{◌≡◌};
ghost use Rattle.sight_spec.specs.Axial as axial;
ghost use Rattle.sight_spec.specs.Axial.{IsLineOf};

use crate::meeting::do_meet;
use crate::stretch::stretch_of;
use axial_lines::AxialLine;
use sight_core::Scene;

/// Whether the closed segments of two axial lines share a point: they cross, or an end of one lies on the other, or
/// they are one. Both are lines of the scene.
///
/// Cost: some thirty products of 64-bit numbers. No part of what is compared has more than 128 bits.
///
/// Source: the map of all axial lines after Penn and others (1997).
pub fn meet(scene: &Scene, l: &AxialLine, m: &AxialLine) -> bool
    requires l_of { IsLineOf scene.now l.now }
    requires m_of { IsLineOf scene.now m.now }
    ensures { result ≡ axial.do_meet l.now m.now }
{
    do_meet(&stretch_of(scene, l), &stretch_of(scene, m), l, m)
}
