//! The sweep: answers for many targets at once.

ghost use Rattle.std.specs.Prelude.{◌≡◌, All, IfOk, map, true};
ghost use Rattle.plane_spec.specs.Vectors as vectors;
ghost use Rattle.plane_spec.specs.Vectors.{InRange, IsDirected, IsDirection};
ghost use Rattle.sight_spec.specs.Sweep.{answer_to, answers_to};
ghost use Rattle.sight_core.specs.Scenes.{IsOfSoundPlan};
ghost use Rattle.view_laws.specs.Views.{IsViewOf, is_in_arc};
ghost use Rattle.sight_sweep.specs.Answers.{IsSeenFrom, MayBeAsked, given, value_of, way_of};
ghost use Rattle.sight_sweep.specs.Arcs.{IsArc};
ghost use Rattle.sight_sweep.specs.Steps.{one_more};

use crate::answers::Answer;
use crate::count::Steps;
use crate::looking::look;
use crate::places::place_of;
use crate::products::is_upper;
use crate::reach::{is_led_into, is_seen_by, number_by, stop_by, told_at};
use crate::table::{SceneTable, table_of};
use exact_geom::vector;
use plane_spec::Point;
use sight_core::Scene;
use sight_spec::Target;
use std::alloc::Global;
use text_spec::NoMemory;
use view_laws::{Arc, View};

/// The direction in which a target is.
fn way_to(p: Point, target: &Target) -> Point
    requires p_in { InRange p }
    requires askable { MayBeAsked p target.now }
    ensures way { result ≡ way_of p target.now }
    ensures direction { IsDirection result }
    ensures directed { IsDirected result }
{
    match *target {
        Target::Point(q) => vector(p, q),
        Target::Ray(d) => d,
    }
}

/// Whether all targets are in the half turn from (1,0) on, up to but not with (-1,0).
fn are_later(p: Point, targets: &[Target]) -> bool
    requires p_in { InRange p }
    requires askable { All (MayBeAsked p) targets.now }
    ensures { result ≡ true → All (λ t. vectors.is_upper (way_of p t) ≡ true) targets.now }
{
    for k in 0..targets.len() {
        let target = targets[k];
        if !is_upper(way_to(p, &target)) {
            return false;
        }
    }
    true
}

/// The directions in which all targets are.
fn arc_of(p: Point, targets: &[Target]) -> Arc
    requires p_in { InRange p }
    requires askable { All (MayBeAsked p) targets.now }
    ensures arc { IsArc result }
    ensures all { All (λ t. is_in_arc result (way_of p t) ≡ true) targets.now }
{
    if are_later(p, targets) {
        Arc::Later
    } else {
        Arc::All
    }
}

/// What a view from `p` tells of a target in its arc: the answer that a [`sweep`] gives.
///
/// Cost: a search in the sectors.
pub fn answer_by(table: &SceneTable, p: Point, arc: Arc, view: &View, target: &Target) -> Answer
    requires p_in { InRange p }
    requires of_plan { IsOfSoundPlan table.now }
    requires view { IsSeenFrom table.now p arc view.now }
    requires askable { MayBeAsked p target.now }
    requires in_arc { is_in_arc arc (way_of p target.now) ≡ true }
    ensures { result ≡ given (answer_to table.now p target.now) }
{
    let d = way_to(p, target);
    let told = told_at(view, place_of(d));
    let begins = is_led_into(view.ground, d);
    match *target {
        Target::Point(_q) => Answer::Seen(is_seen_by(begins, told, d)),
        Target::Ray(_d) => Answer::Reach {
            stop: stop_by(begins, told, d),
            wall: number_by(told.front),
        },
    }
}

/// What the view tells of each target.
fn answers_by(
    alloc: Global,
    table: &SceneTable,
    p: Point,
    arc: Arc,
    view: &View,
    targets: &[Target],
) -> Result<Vec<Answer>, NoMemory>
    requires p_in { InRange p }
    requires of_plan { IsOfSoundPlan table.now }
    requires view { IsSeenFrom table.now p arc view.now }
    requires askable { All (MayBeAsked p) targets.now }
    requires in_arc { All (λ t. is_in_arc arc (way_of p t) ≡ true) targets.now }
    ensures { IfOk result (λ answers. answers.items ≡ map (λ t. given (answer_to table.now p t)) targets.now) }
{
    match targets
        .iter()
        .map(|target| answer_by(table, p, arc, view, target))
        .collect(alloc)
    {
        Ok(answers) => Ok(answers),
        Err(_refused) => Err(NoMemory),
    }
}

/// What is seen from `p`: for each point whether it and `p` see each other, and for each ray how far it reaches and the
/// first wall, in the order walls and then screens, that it meets nearest. One answer for each target, in order. Counts
/// one sweep, whatever it answers.
///
/// Cost: that of a [`table_of`] the scene, of a [`look`], and of a search in its sectors for each target.
pub fn sweep(
    alloc: Global,
    scene: &Scene,
    p: Point,
    targets: &[Target],
    steps: &mut Steps,
) -> Result<Vec<Answer>, NoMemory>
    requires p_in { InRange p }
    requires askable { All (MayBeAsked p) targets.now }
    ensures answers { IfOk result (λ answers. map value_of answers.items ≡ answers_to scene.now p targets.now) }
    ensures counted { steps.new ≡ one_more steps.old }
{
    let table = match table_of(alloc, scene) {
        Ok(table) => table,
        Err(refused) => {
            steps.count_one();
            return Err(refused);
        }
    };
    let arc = arc_of(p, targets);
    let view = look(alloc, &table, p, arc, steps)?;
    answers_by(alloc, &table, p, arc, &view, targets)
}
