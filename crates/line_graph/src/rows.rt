//! The graph over lines that joins those that meet.

ghost use Rattle.std.specs.Prelude.{◌≡◌, ◌<◌, ◌≤◌, ◌&&◌, ◌||◌, ◌==◌, ℕ, All, IfOk, length, map, slice_index, take, false};
ghost use Rattle.graph_spec.specs.Graphs.{IsSimpleGraph};
ghost use Rattle.plan_spec.specs.declared.limits.TheConstants.{MAX_AXIAL_LINES};
ghost use Rattle.sight_spec.specs.Axial as axial;
ghost use Rattle.sight_spec.specs.Axial.{IsLineOf};
ghost use Rattle.vga_grid.specs.Rows.{graph_of, is_joined};
ghost use Rattle.line_graph.specs.Extents.{extent_of};
ghost use Rattle.line_graph.specs.Rows as rows;
ghost use Rattle.line_graph.specs.Rows.{AreColumns, AreMeasured, has_number};

use crate::extents::{Columns, Extent, columns_of, extents_of};
use crate::meeting::do_meet;
use crate::near::gather;
use crate::stretch::{Stretch, stretch_of};
use axial_lines::AxialLine;
use sight_core::Scene;
use std::alloc::Global;
use text_spec::NoMemory;
use vga_grid::BitGraph;

/// The stretch of each line of a scene, in order.
fn stretches_of(alloc: Global, scene: &Scene, lines: &[AxialLine]) -> Result<Vec<Stretch>, NoMemory>
    requires { All (IsLineOf scene.now) lines.now }
    ensures { IfOk result (λ stretches. AreMeasured stretches.items lines.now) }
{
    let _corners = scene.corners();
    let mut stretches = Vec::new(alloc);
    for line in lines {
        stretches.push(stretch_of(scene, line))?;
    }
    Ok(stretches)
}

/// Whether the lines of two numbers meet.
fn do_meet_at(stretches: &[Stretch], lines: &[AxialLine], i: usize, j: usize) -> bool
    requires measured { AreMeasured stretches.now lines.now }
    requires i_in { i < length lines.now }
    requires j_in { j < length lines.now }
    ensures { result ≡ rows.do_meet_at lines.now i j }
{
    do_meet(&stretches[i], &stretches[j], &lines[i], &lines[j])
}

/// Joins line `i` to those of the listed ones that it meets, all of which come after it.
fn join_row(
    graph: &mut BitGraph,
    stretches: &[Stretch],
    lines: &[AxialLine],
    i: usize,
    near: &[u32],
)
    requires measured { AreMeasured stretches.now lines.now }
    requires few { length lines.now ≤ MAX_AXIAL_LINES }
    requires nodes { graph.old.count ≡ length lines.now }
    requires i_in { i < length lines.now }
    requires near_in { (m : ℕ) → m < length near.now
        → (i < slice_index near.now m) × (slice_index near.now m < length lines.now) }
    requires simple { IsSimpleGraph (graph_of graph.old) }
    ensures nodes { graph.new.count ≡ length lines.now }
    ensures joined { (a b : ℕ) → a < b → is_joined graph.new a b
        ≡ (is_joined graph.old a b || (a == i && (has_number near.now b && rows.do_meet_at lines.now i b))) }
    ensures simple { IsSimpleGraph (graph_of graph.new) }
{
    for k in near {
        if do_meet_at(stretches, lines, i, *k as usize) {
            graph.join_pair(i as u32, *k);
        }
    }
}

/// Joins the lines that meet, row by row. `flags` and `near` are room for the marks and the numbers of a row.
fn join_rows(
    graph: &mut BitGraph,
    stretches: &[Stretch],
    lines: &[AxialLine],
    extents: &[Extent],
    columns: &Columns,
    flags: &mut [u8],
    near: &mut [u32],
)
    requires measured { AreMeasured stretches.now lines.now }
    requires few { length lines.now ≤ MAX_AXIAL_LINES }
    requires extents { extents.now ≡ map extent_of lines.now }
    requires columns { AreColumns columns.now.left.items columns.now.right.items columns.now.below.items
        columns.now.above.items extents.now }
    requires flags { length flags.old ≡ length lines.now }
    requires near { length near.old ≡ length lines.now }
    requires nodes { graph.old.count ≡ length lines.now }
    requires none { (a b : ℕ) → is_joined graph.old a b ≡ false }
    requires simple { IsSimpleGraph (graph_of graph.old) }
    ensures { graph_of graph.new ≡ axial.crossing_graph lines.now }
{
    for i in 0..lines.len() {
        let count = gather(extents, columns, i, flags, near);
        join_row(graph, stretches, lines, i, &near[..count]);
    }
}

/// The graph over the lines' numbers that joins different lines that meet. All are lines of the scene.
///
/// Cost: of n lines, n^2 / 2 comparisons of whole numbers, and one test of those pairs whose extents share a point.
/// Memory: the graph's n^2 / 8 bytes and some 100 bytes a line.
///
/// Source: the map of all axial lines after Penn and others (1997).
pub fn crossing_graph(
    alloc: Global,
    scene: &Scene,
    lines: &[AxialLine],
) -> Result<BitGraph, NoMemory>
    requires of_scene { All (IsLineOf scene.now) lines.now }
    requires at_most { length lines.now ≤ MAX_AXIAL_LINES }
    ensures { IfOk result (λ graph. graph_of graph ≡ axial.crossing_graph lines.now) }
{
    let stretches = stretches_of(alloc, scene, lines)?;
    let extents = extents_of(alloc, lines)?;
    let columns = columns_of(alloc, &extents)?;
    let mut flags = vec![in alloc; 0u8; lines.len()]?;
    let mut near = vec![in alloc; 0u32; lines.len()]?;
    let mut graph = BitGraph::empty(alloc, lines.len() as u32)?;
    join_rows(
        &mut graph, &stretches, lines, &extents, &columns, &mut flags, &mut near,
    );
    Ok(graph)
}
