//! Numbered points of a scene with the views from them.

ghost use Rattle.std.specs.Prelude.{All, IfOk, IfSome, ◌≡◌, ◌<◌, length};
ghost use Rattle.exact_geom.specs.Parts.{HasStopParts};
ghost use Rattle.plane_spec.specs.Vectors.{InRange};
ghost use Rattle.sight_sweep.specs.Answers.{IsSeenFrom};
ghost use Rattle.axial_lines.specs.Found as found;
ghost use Rattle.axial_lines.specs.Found.{IsEndInRange};
ghost use Rattle.axial_lines.specs.Looks.{HasCountedUpTo, end_at, more_by};

use crate::seen::stops_of_pair;
use crate::views::{view_at, views_from};
use exact_geom::Frac;
use plane_spec::Point;
use sight_core::Scene;
use sight_sweep::{Arc, SceneTable, Steps, View, table_of};
use std::alloc::Global;
use std::marker::Model;
use text_spec::NoMemory;

/// Numbered points of a scene, and the views from all of them or from none. Contracts see the scene and the points: the
/// views only tell sooner what the scene says.
///
/// A view has a sector for each corner that may be seen from it, so all together take as much room as there are pairs
/// of points in sight.
#[derive(Drop)]
pub(crate) struct Outlooks {
    table: SceneTable,
    ends: Vec<(u32, Point)>,
    views: Vec<View>,
}

impl Model for Outlooks {
    ghost use Rattle.axial_lines.specs.Looks.{AreOutlooks, Outlooks as OutlooksParts};

    ghost Value = { OutlooksParts };

    ghost view = { λ a. record { scene = a.table; ends = a.ends.items } };

    ghost invariant = { λ a. AreOutlooks a.table a.ends.items a.views.items };
}

impl Outlooks {
    /// The points with the views from them, by one look each.
    ///
    /// Cost: the scene's table, and a look for each point.
    pub(crate) fn by_looks(
        alloc: Global,
        scene: &Scene,
        ends: Vec<(u32, Point)>,
        steps: &mut Steps,
    ) -> Result<Outlooks, NoMemory>
        requires ends_in { All IsEndInRange ends.items }
        ensures scene { IfOk result (λ outlooks. outlooks.scene ≡ scene.now) }
        ensures ends { IfOk result (λ outlooks. outlooks.ends ≡ ends.items) }
        ensures counted { IfOk result (λ outlooks. steps.new ≡ more_by (length ends.items) steps.old) }
        ensures at_most { HasCountedUpTo (length ends.items) steps.old steps.new }
    {
        // a scene says that it is that of a plan where its corners are read
        let _corners = scene.corners();
        let table = table_of(alloc, scene)?;
        let views = views_from(alloc, &table, &ends, steps)?;
        Ok(Outlooks { table, ends, views })
    }

    /// The points without views: the scene itself is asked for each pair.
    ///
    /// Cost: the scene's table.
    pub(crate) fn without_looks(
        alloc: Global,
        scene: &Scene,
        ends: Vec<(u32, Point)>,
    ) -> Result<Outlooks, NoMemory>
        requires ends_in { All IsEndInRange ends.items }
        ensures scene { IfOk result (λ outlooks. outlooks.scene ≡ scene.now) }
        ensures ends { IfOk result (λ outlooks. outlooks.ends ≡ ends.items) }
    {
        let _corners = scene.corners();
        let table = table_of(alloc, scene)?;
        let views = Vec::new(alloc);
        Ok(Outlooks { table, ends, views })
    }

    /// How many points there are.
    pub(crate) fn count(&self) -> usize
        ensures { result ≡ length self.now.ends }
    {
        self.ends.len()
    }

    /// The point at a place, with its number.
    pub(crate) fn end(&self, i: usize) -> (u32, Point)
        requires { i < length self.now.ends }
        ensures end { result ≡ end_at self.now.ends i }
        ensures in_range { InRange result.1 }
    {
        self.ends[i]
    }

    /// The view from the point at a place, where there are views.
    fn view(&self, i: usize) -> Option<&View>
        ensures { IfSome result (λ v. IsSeenFrom self.now.scene (end_at self.now.ends i).1 Arc.All v.now) }
    {
        view_at(&self.views, i)
    }

    /// The stops of the line through the points at two places, where they see each other.
    pub(crate) fn stops_of_pair(
        &self,
        scene: &Scene,
        i: usize,
        j: usize,
    ) -> Option<(Option<Frac>, Option<Frac>)>
        requires of_scene { self.now.scene ≡ scene.now }
        requires i_in { i < length self.now.ends }
        requires j_in { j < length self.now.ends }
        ensures stops { result
            ≡ found.stops_of_pair scene.now (end_at self.now.ends i).1 (end_at self.now.ends j).1 }
        ensures first_bounded { IfSome result (λ stops. IfSome stops.0 HasStopParts) }
        ensures second_bounded { IfSome result (λ stops. IfSome stops.1 HasStopParts) }
    {
        let (first, second) = (self.end(i), self.end(j));
        let (before, after) = (self.view(i), self.view(j));
        stops_of_pair(scene, &self.table, first.1, before, second.1, after)
    }
}
