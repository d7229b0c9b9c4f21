//! The session.

ghost use Rattle.std.specs.Prelude.{Err, IfErr, IfOk, IsTrue, None, OnErr, OnOk, Some, ◌≡◌, ◌<◌, ◌≤◌, ◌&&◌, false, is_some, length, not};
ghost use Rattle.std.specs.Option.{IfSome};
ghost use Rattle.options_spec.specs.declared.options.TheConstants.{MAX_WORKERS};
ghost use Rattle.plan_spec.specs.declared.limits.TheConstants.{MAX_AXIAL_LINES};
ghost use Rattle.plan_spec.specs.Edits.{HasShift, why_not_edit};
ghost use Rattle.sight_spec.specs.Scene as scenes;
ghost use Rattle.sight_spec.specs.Visibility.{visibility_graph};
ghost use Rattle.sight_spec.specs.Axial.{axial_lines};
ghost use Rattle.report_spec.specs.Replies.{has_too_many_lines};
ghost use Rattle.dirty_laws.specs.Scenes.{IsEdited};
ghost use Rattle.plan_check.specs.Faults.{IfRefused};
ghost use Rattle.vga_grid.specs.Rows.{graph_of};
ghost use Rattle.axial_lines.specs.declared.fault.LinesFault.TheVariants.{TooManyLines};
ghost use Rattle.plan_edit.specs.Sessions as sessions;
ghost use Rattle.plan_edit.specs.Sessions.{IsPast};

use crate::past::{Past, past_of};
use axial_lines::{AxialLine, LinesFault, Steps, all_lines, update_lines};
use dm_io::Gate;
use plan_check::{Changed, Edit, EditFault, Plan};
use sight_core::{Scene, scene_of};
use std::alloc::Global;
use std::marker::Model;
use std::mem;
use std::thread::Threads;
use text_spec::NoMemory;
use vga_fill::{fill_all, refill};
use vga_grid::BitGraph;
use vga_looks::graph_by_looks;

/// A plan, its scene, and its visibility graph and axial lines. These two are made where they are first asked for. After
/// an edit the lines are mended at once, and the graph where it is next asked for, from the one before the edit; after
/// more than one edit it is made anew. Contracts see the plan, how many workers fill the graph, and whether the graph and
/// the lines are kept.
#[derive(Drop)]
pub struct Session {
    plan: Plan,
    workers: u32,
    scene: Scene,
    graph: Option<BitGraph>,
    past: Option<Past>,
    lines: Option<Vec<AxialLine>>,
}

impl Model for Session {
    ghost use Rattle.std.specs.Prelude.{is_some, option_map};
    ghost use Rattle.plan_edit.specs.Sessions.{IsKept, Session as SessionParts};

    ghost Value = { SessionParts };

    ghost view = { λ a. record { plan = a.plan; workers = a.workers; keeps_graph = is_some a.graph; keeps_lines = is_some a.lines } };

    ghost invariant = { λ a. IsKept a.plan a.scene a.graph a.past (option_map (λ v. v.items) a.lines) a.workers };
}

/// Whether the edit is of a route, which blocks nothing.
fn is_of_route(edit: &Edit) -> bool
    ensures { result ≡ sessions.is_of_route edit.now }
{
    match edit {
        Edit::AddRoute(_name, _from, _to) => true,
        Edit::RemoveRoute(_name) => true,
        _ => false,
    }
}

/// The visibility graph of a plan, made anew. A lone worker shares no row, so it fills the graph itself.
fn graph_anew<R: Threads + Sync, G: Gate>(
    rt: &R,
    alloc: Global,
    plan: &Plan,
    scene: &Scene,
    workers: u32,
    gate: &G,
) -> Result<BitGraph, NoMemory>
    requires scene { scene.now ≡ scenes.scene_of plan.now }
    requires some { 0 < workers }
    requires at_most { workers ≤ 64 }
    ensures { IfOk result (λ graph. graph_of graph ≡ visibility_graph plan.now) }
{
    if workers == 1 {
        graph_by_looks(alloc, plan, scene)
    } else {
        fill_all(rt, alloc, plan, scene, workers, gate)
    }
}

/// The visibility graph of a plan: what the last edit touched anew, where there is a graph from before it, and else all.
fn graph_now<R: Threads + Sync, G: Gate>(
    rt: &R,
    alloc: Global,
    past: &Option<Past>,
    plan: &Plan,
    scene: &Scene,
    workers: u32,
    gate: &G,
) -> Result<BitGraph, NoMemory>
    requires past_is { IfSome past.now (IsPast plan.now) }
    requires scene { scene.now ≡ scenes.scene_of plan.now }
    requires some { 0 < workers }
    requires at_most { workers ≤ 64 }
    ensures { IfOk result (λ graph. graph_of graph ≡ visibility_graph plan.now) }
{
    match past {
        Some(past) => refill(
            rt,
            alloc,
            &past.plan,
            plan,
            scene,
            &past.graph,
            past.boxes,
            workers,
            gate,
        ),
        None => graph_anew(rt, alloc, plan, scene, workers, gate),
    }
}

/// The axial lines after an edit, from those before it where they were kept; none where there are too many.
fn lines_after(
    alloc: Global,
    kept: &Option<Vec<AxialLine>>,
    before: &Scene,
    after: &Scene,
    boxes: Changed,
) -> Result<Option<Vec<AxialLine>>, NoMemory>
    requires kept_are { IfSome kept.now (λ lines. lines.items ≡ axial_lines before.now) }
    requires edited { IsEdited before.now after.now boxes }
    ensures kept { IfOk result (λ new. is_some new ≡ (is_some kept.now && not (has_too_many_lines after.now))) }
    ensures lines { IfOk result (λ new. IfSome new (λ lines. lines.items ≡ axial_lines after.now)) }
    ensures at_most { IfOk result (λ new. IfSome new (λ lines. length lines.items ≤ MAX_AXIAL_LINES)) }
{
    let Some(old) = kept else {
        return Ok(None);
    };
    match update_lines(alloc, old, before, after, boxes, &mut Steps::new()) {
        Ok(lines) => Ok(Some(lines)),
        Err(LinesFault::TooManyLines) => Ok(None),
        Err(LinesFault::NoMemory) => Err(NoMemory),
    }
}

impl Session {
    /// A session that begins with this plan, and keeps neither graph nor lines. So many workers will fill the graph: 1 to
    /// `MAX_WORKERS`.
    ///
    /// Cost: that of the plan's scene.
    pub fn begin(alloc: Global, plan: Plan, workers: u32) -> Result<Session, NoMemory>
        requires some { 1 ≤ workers }
        requires few { workers ≤ MAX_WORKERS }
        ensures { IfOk result (λ session. session ≡ sessions.begun plan workers) }
    {
        let scene = scene_of(alloc, &plan)?;
        Ok(Session {
            plan,
            workers,
            scene,
            graph: None,
            past: None,
            lines: None,
        })
    }

    /// The plan as the edits left it.
    pub fn plan(&self) -> &Plan
        ensures { result.now ≡ self.now.plan }
    {
        &self.plan
    }

    /// How many workers fill the visibility graph.
    pub fn workers(&self) -> u32
        ensures { result ≡ self.now.workers }
    {
        self.workers
    }

    /// The walls, screens and corners of the plan.
    pub fn scene(&self) -> &Scene
        ensures { result.now ≡ scenes.scene_of self.now.plan }
    {
        &self.scene
    }

    /// Changes the plan by the edit. Where the edit is refused, or there is no memory, nothing is changed.
    ///
    /// An edit of a route touches neither graph nor lines. After any other the graph is kept no longer, but where it was,
    /// the next one is mended from it. Lines that were kept are those of the new plan, or are let go where there are more
    /// than `MAX_AXIAL_LINES`.
    ///
    /// `Err(Refused)` names the first cause for which the edit is refused. The shift of a move is at most `MAX_SHIFT`.
    ///
    /// Cost: that of `Plan::with`; where the edit is of an obstacle or a screen that of the scene, too, and where lines
    /// are kept that of `update_lines`.
    pub fn apply(&mut self, alloc: Global, edit: &Edit) -> Result<(), EditFault>
        requires shift { HasShift edit.now }
        ensures session { OnOk result (self.new ≡ sessions.session_after self.old edit.now) }
        ensures valid { OnOk result (why_not_edit self.old.plan edit.now ≡ None) }
        ensures refused { IfErr result (λ fault. IfRefused fault (λ why. why_not_edit self.old.plan edit.now ≡ Some why)) }
        ensures refused_stays { OnErr result (self.new ≡ self.old) }
    {
        let plan = self.plan.with(alloc, edit)?;
        if is_of_route(edit) {
            self.plan = plan;
            self.past = None;
            return Ok(());
        }
        let scene = scene_of(alloc, &plan)?;
        // a plan says that it is sound where its outer polygon is read
        let _outer = self.plan.outer();
        let boxes = self.plan.changed(edit);
        let lines = lines_after(alloc, &self.lines, &self.scene, &scene, boxes)?;
        let before = mem::replace(&mut self.plan, plan);
        let graph = mem::replace(&mut self.graph, None);
        self.past = past_of(graph, before, &self.plan, boxes);
        self.scene = scene;
        self.lines = lines;
        Ok(())
    }

    /// Makes the visibility graph of the plan, where it isn't kept. Without memory nothing is changed. `rt` lends the
    /// threads of the workers, and where they share the rows, each tells the gate each row that it claims.
    ///
    /// Cost: after one edit of a plan whose graph was kept that of `refill`, and else that of `fill_all`, or with one
    /// worker of `graph_by_looks`.
    pub fn make_graph<R: Threads + Sync, G: Gate>(
        &mut self,
        rt: &R,
        alloc: Global,
        gate: &G,
    ) -> Result<(), NoMemory>
        ensures made { OnOk result (self.new ≡ sessions.with_graph self.old) }
        ensures stays { OnErr result (self.new ≡ self.old) }
    {
        if self.graph.is_none() {
            let graph = graph_now(
                rt,
                alloc,
                &self.past,
                &self.plan,
                &self.scene,
                self.workers,
                gate,
            )?;
            self.graph = Some(graph);
            self.past = None;
        }
        Ok(())
    }

    /// The visibility graph of the plan, which was made.
    pub fn graph(&self) -> &BitGraph
        requires { IsTrue self.now.keeps_graph }
        ensures { graph_of result.now ≡ visibility_graph self.now.plan }
    {
        match &self.graph {
            Some(graph) => graph,
            None => unreachable!(),
        }
    }

    /// Finds the axial lines of the plan, where they aren't kept. Where there are too many, or no memory, nothing is
    /// changed.
    ///
    /// Cost: that of `all_lines`, where they aren't kept.
    pub fn make_lines(&mut self, alloc: Global) -> Result<(), LinesFault>
        ensures made { OnOk result (self.new ≡ sessions.with_lines self.old) }
        ensures at_most { OnOk result (has_too_many_lines (scenes.scene_of self.old.plan) ≡ false) }
        ensures too_many { result ≡ Err TooManyLines → IsTrue (has_too_many_lines (scenes.scene_of self.old.plan)) }
        ensures stays { OnErr result (self.new ≡ self.old) }
    {
        if self.lines.is_none() {
            let lines = all_lines(alloc, &self.scene, &mut Steps::new())?;
            self.lines = Some(lines);
        }
        Ok(())
    }

    /// The axial lines of the plan, which were found: at most `MAX_AXIAL_LINES`.
    pub fn lines(&self) -> &[AxialLine]
        requires { IsTrue self.now.keeps_lines }
        ensures lines { result.now ≡ axial_lines (scenes.scene_of self.now.plan) }
        ensures at_most { length result.now ≤ MAX_AXIAL_LINES }
    {
        match &self.lines {
            Some(lines) => lines,
            None => unreachable!(),
        }
    }
}
