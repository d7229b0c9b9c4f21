//! An axial line as a stretch of the line through its corners.

ghost use Rattle.std.specs.Prelude.{◌≡◌, ◌<◌, length};
ghost use Rattle.plane_spec.specs.Vectors.{InRange, IsDirected, IsDirection, vector as vector_of};
ghost use Rattle.sight_spec.specs.Axial.{IsLineOf};
ghost use Rattle.sight_spec.specs.Dirty.{corner_point};
ghost use Rattle.sight_core.specs.Scenes.{IsOfSoundPlan};
ghost use Rattle.line_graph.specs.Bounds.{AreEndParts};
ghost use Rattle.line_graph.specs.Stretches as stretches;
ghost use Rattle.line_graph.specs.Measured.{IsMeasured};

use crate::compare::is_zero;
use crate::parameter::{Parameter, parameter_in};
use axial_lines::AxialLine;
use exact_geom::{RPoint, vector};
use plane_spec::Point;
use sight_core::Scene;
use std::marker::Model;

/// The points `p + t d` for the parameters `t` from one to another.
#[derive(Clone, Copy, Debug)]
pub(crate) struct Stretch {
    pub(crate) p: Point,
    pub(crate) d: Point,
    pub(crate) from: Parameter,
    pub(crate) to: Parameter,
}

impl Model for Stretch {
    ghost use Rattle.meet_laws.specs.Stretches.{Stretch as StretchParts};
    ghost use Rattle.line_graph.specs.Bounds.{IsSmallStretch};

    ghost Value = { StretchParts };

    ghost view = { λ a. record { p = a.p; d = a.d; from = a.from; to = a.to } };

    ghost invariant = { λ a. IsSmallStretch (record { p = a.p; d = a.d; from = a.from; to = a.to }) };

    ghost inverse = { λ s. record { p = s.p; d = s.d; from = s.from; to = s.to } };
}

/// The parameter of an end on the line through `p` in direction `d`.
fn parameter_of(p: Point, d: Point, end: &RPoint) -> Parameter
    requires p_in { InRange p }
    requires d_in { IsDirection d }
    requires directed { IsDirected d }
    requires end_in { AreEndParts end.now }
    ensures { result ≡ stretches.parameter_of p d end.now }
{
    if is_zero(d.x) {
        parameter_in(p.y, d.y, &end.y)
    } else {
        parameter_in(p.x, d.x, &end.x)
    }
}

/// The stretch of the line through `p` and `q` between the ends of an axial line.
fn stretch_between(p: Point, q: Point, line: &AxialLine) -> Stretch
    requires p_in { InRange p }
    requires q_in { InRange q }
    requires directed { IsDirected (vector_of p q) }
    requires from_in { AreEndParts line.now.from }
    requires to_in { AreEndParts line.now.to }
    ensures { result ≡ stretches.stretch_between p q line.now }
{
    let d = vector(p, q);
    let from = parameter_of(p, d, &line.from);
    let to = parameter_of(p, d, &line.to);
    Stretch { p, d, from, to }
}

/// Where the corner of a number stands.
fn corner_at(scene: &Scene, k: u32) -> Point
    requires { k < length scene.now.corners }
    ensures point { result ≡ corner_point scene.now k }
    ensures in_range { InRange result }
{
    scene.corners()[k as usize].here
}

/// A line of the scene as a stretch of the line through its corners.
///
/// Cost: a few products of 64-bit numbers.
pub(crate) fn stretch_of(scene: &Scene, line: &AxialLine) -> Stretch
    requires { IsLineOf scene.now line.now }
    ensures value { result ≡ stretches.stretch_of scene.now line.now }
    ensures measured { IsMeasured result line.now }
{
    let _corners = scene.corners();
    stretch_between(
        corner_at(scene, line.first),
        corner_at(scene, line.second),
        line,
    )
}
