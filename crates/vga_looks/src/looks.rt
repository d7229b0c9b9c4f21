//! The visibility graph by looks.

ghost use Rattle.std.specs.Prelude.{◌≡◌, ◌<◌, All, IfOk, false, length, map, slice_index_or, true};
ghost use Rattle.plan_spec.specs.Accepted.{is_sound};
ghost use Rattle.plan_spec.specs.Grid.{grid_points};
ghost use Rattle.sight_spec.specs.Scene.{scene_of};
ghost use Rattle.sight_spec.specs.Visibility.{visibility_graph};
ghost use Rattle.sight_sweep.specs.Answers.{IsSeenFrom};
ghost use Rattle.sight_sweep.specs.Steps.{one_more};
ghost use Rattle.sight_sweep.specs.Told.{IsGapOf};
ghost use Rattle.view_laws.specs.Views.{is_in_arc};
ghost use Rattle.vga_grid.specs.Rows.{graph_of};
ghost use Rattle.vga_looks.specs.Tables as tables;
ghost use Rattle.vga_looks.specs.Tables.{IsLaterIn, is_seen_later, nowhere, seen_later, way_between};
ghost use Rattle.std.proofs.Common.{get_or};

use crate::arcs::arc_to;
use crate::grid_table::{GridTable, grid_table_of};
use plan_check::Plan;
use sight_core::Scene;
use sight_sweep::{Arc, Gap, SceneTable, Steps, View, first_gap, look, sight_near, table_of};
use std::alloc::Global;
use text_spec::NoMemory;
use vga_grid::{BitGraph, Grid};

/// Whether the later point of the number `j` is open and seen from the open point of the number `i`, by the view from
/// there. The gap is that of the point asked before, and then that of this one.
fn sees_later(
    plan: &Plan,
    table: &SceneTable,
    grid: &GridTable,
    arc: Arc,
    view: &View,
    i: u32,
    j: u32,
    gap: &mut Gap,
) -> bool
    requires scene { table.now ≡ scene_of plan.now }
    requires grid { grid.now ≡ tables.grid_table_of plan.now }
    requires sound { is_sound plan.now ≡ true }
    requires later { IsLaterIn plan.now i j }
    requires looker_open { slice_index_or grid.now.are_open i false ≡ true }
    requires view { IsSeenFrom table.now (get_or grid.now.points i nowhere) arc view.now }
    requires in_arc { is_in_arc arc (way_between plan.now i j) ≡ true }
    requires gap { IsGapOf view.now gap.old }
    ensures seen { result ≡ is_seen_later plan.now i j }
    ensures gap { IsGapOf view.now gap.new }
{
    if !grid.is_open(j) {
        return false;
    }
    let here = grid.point(i);
    let there = grid.point(j);
    let bearing = grid.bearing(i, j, there.x < here.x);
    sight_near(table, here, arc, view, there, bearing, gap)
}

/// Of each point of a plan's grid, whether it is a later one than the open point of the number and seen from it: one
/// look for all. The table is that of the plan's scene, and the grid's that of its grid. Counts one sweep, whatever it
/// answers.
///
/// Cost: a look, and for each later open point a constant where points of one row stand between the same sectors.
pub fn later_in_sight(
    alloc: Global,
    plan: &Plan,
    table: &SceneTable,
    grid: &GridTable,
    i: u32,
    steps: &mut Steps,
) -> Result<Vec<bool>, NoMemory>
    requires scene { table.now ≡ scene_of plan.now }
    requires grid { grid.now ≡ tables.grid_table_of plan.now }
    requires within { i < length (grid_points plan.now.grid) }
    requires looker_open { slice_index_or grid.now.are_open i false ≡ true }
    ensures row { IfOk result (λ row. row.items ≡ seen_later plan.now i (length (grid_points plan.now.grid))) }
    ensures counted { steps.new ≡ one_more steps.old }
{
    let view = look(alloc, table, grid.point(i), Arc::Later, steps)?;
    let count = Grid::of(plan).count();
    let mut row = Vec::with_capacity(alloc, count as usize)?;
    for _earlier in 0..i + 1 {
        row.push(false)?;
    }
    let mut gap = first_gap(&view);
    for j in i + 1..count {
        let is_seen = sees_later(plan, table, grid, Arc::Later, &view, i, j, &mut gap);
        row.push(is_seen)?;
    }
    Ok(row)
}

/// Of some later points of a plan's grid, whether each is open and seen from the open point of the number: one look for
/// all, between the outermost directions to them. The table is that of the plan's scene, and the grid's that of its
/// grid. Counts one sweep, whatever it answers.
///
/// Cost: a look, and for each of the points a constant where those beside each other stand between the same sectors.
pub fn some_in_sight(
    alloc: Global,
    plan: &Plan,
    table: &SceneTable,
    grid: &GridTable,
    i: u32,
    numbers: &[u32],
    steps: &mut Steps,
) -> Result<Vec<bool>, NoMemory>
    requires scene { table.now ≡ scene_of plan.now }
    requires grid { grid.now ≡ tables.grid_table_of plan.now }
    requires within { i < length (grid_points plan.now.grid) }
    requires looker_open { slice_index_or grid.now.are_open i false ≡ true }
    requires later { All (IsLaterIn plan.now i) numbers.now }
    ensures seen { IfOk result (λ seen. seen.items ≡ map (is_seen_later plan.now i) numbers.now) }
    ensures counted { steps.new ≡ one_more steps.old }
{
    let _sound = Grid::of(plan);
    let arc = arc_to(plan, grid, i, numbers);
    let view = look(alloc, table, grid.point(i), arc, steps)?;
    let mut seen = Vec::with_capacity(alloc, numbers.len())?;
    let mut gap = first_gap(&view);
    for k in 0..numbers.len() {
        let is_seen = sees_later(plan, table, grid, arc, &view, i, numbers[k], &mut gap);
        seen.push(is_seen)?;
    }
    Ok(seen)
}

/// The visibility graph of a plan: its nodes are the points of the grid, and it joins those that are open and see each
/// other. The scene is the plan's.
///
/// Cost: a test of openness for each point, and for each open one a look and a step for each point.
///
/// Source: visibility graphs after Turner, Doxa, O'Sullivan and Penn (2001).
pub fn graph_by_looks(alloc: Global, plan: &Plan, scene: &Scene) -> Result<BitGraph, NoMemory>
    requires { scene.now ≡ scene_of plan.now }
    ensures { IfOk result (λ graph. graph_of graph ≡ visibility_graph plan.now) }
{
    let grid = grid_table_of(alloc, plan)?;
    let table = table_of(alloc, scene)?;
    let mut steps = Steps::new();
    let count = Grid::of(plan).count();
    let mut graph = BitGraph::empty(alloc, count)?;
    for i in 0..count {
        if !grid.is_open(i) {
            continue;
        }
        let row = later_in_sight(alloc, plan, &table, &grid, i, &mut steps)?;
        for j in i + 1..count {
            if row[j as usize] {
                graph.join_pair(i, j);
            }
        }
    }
    Ok(graph)
}
