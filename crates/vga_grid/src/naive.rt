//! The visibility graph of a grid, pair by pair.

ghost use Rattle.std.specs.Prelude.{◌≡◌, ◌≢◌, ◌<◌, ◌&&◌, ℕ, map, length, slice_index_or, false, IfOk};
ghost use Rattle.plan_spec.specs.Grid.{grid_points, point_of_number};
ghost use Rattle.sight_spec.specs.Scene.{scene_of};
ghost use Rattle.sight_spec.specs.Sight.{are_in_sight, is_open as is_open_in};
ghost use Rattle.sight_spec.specs.Visibility.{visibility_graph};
ghost use Rattle.vga_grid.specs.Rows.{graph_of};
ghost use Rattle.vga_grid.specs.Openness.{openness_of};

use crate::bit_graph::BitGraph;
use crate::grid::Grid;
use crate::obstacles::{is_open_by, obstacle_boxes};
use plan_check::Plan;
use sight_core::{Scene, free};
use std::alloc::Global;
use text_spec::NoMemory;

/// Whether each point of the plan's grid is open, by its number.
///
/// Cost: for each point a pass over the outer polygon, a comparison with the box of each obstacle, and a pass over those
/// whose box it is in.
pub fn openness(alloc: Global, plan: &Plan, grid: &Grid) -> Result<Vec<bool>, NoMemory>
    requires { grid.now ≡ plan.now.grid }
    ensures { IfOk result (λ flags. flags.items ≡ openness_of plan.now (length (grid_points plan.now.grid))) }
{
    let boxes = obstacle_boxes(alloc, plan)?;
    let mut flags = Vec::new(alloc);
    for i in 0..grid.count() {
        flags.push(is_open_by(plan, &boxes, grid.place(i)))?;
    }
    Ok(flags)
}

/// Whether two points of the grid are open and see each other.
fn are_visible(scene: &Scene, grid: &Grid, flags: &[bool], i: u32, j: u32) -> bool
    requires i_in { i < length (grid_points grid.now) }
    requires j_in { j < length (grid_points grid.now) }
    requires flags { length flags.now ≡ length (grid_points grid.now) }
    ensures { result ≡ ((slice_index_or flags.now i false && slice_index_or flags.now j false)
        && are_in_sight scene.now (point_of_number grid.now i) (point_of_number grid.now j)) }
{
    flags[i as usize] && flags[j as usize] && free(scene, grid.place(i), grid.place(j))
}

/// The visibility graph of a plan: its nodes are the points of the grid, and it joins those that are open and see each
/// other. The scene is the plan's.
///
/// Cost: a test of openness for each point, and for each pair of open points one pass over walls, screens and corners.
/// So it serves for small grids, and to compare with.
pub fn graph_naive(alloc: Global, plan: &Plan, scene: &Scene) -> Result<BitGraph, NoMemory>
    requires { scene.now ≡ scene_of plan.now }
    ensures { IfOk result (λ graph. graph_of graph ≡ visibility_graph plan.now) }
{
    let grid = Grid::of(plan);
    let flags = openness(alloc, plan, &grid)?;
    let mut graph = BitGraph::empty(alloc, grid.count())?;
    for i in 0..grid.count() {
        for j in i + 1..grid.count() {
            if are_visible(scene, &grid, &flags, i, j) {
                graph.join_pair(i, j);
            }
        }
    }
    Ok(graph)
}
