//! The tables, each by the values that stand in it.

use crate::table::Table;
use axial_lines::AxialLine;
use dm_io::Sink;
use isovist_core::IsovistParts;
use options_spec::Form;
use plan_check::Plan;
use plan_spec::Item;
use plane_spec::Point;
use reports::{
    ReportFault, put_axial, put_depth, put_edges, put_isovist, put_lines, put_plan, put_points,
    put_segments,
};
use segment_core::Piece;
use std::alloc::Global;
use step_depth::Measure;
use vga_grid::BitGraph;

/// The edges of a graph.
#[derive(Drop)]
pub struct EdgesTable<'a> {
    pub graph: &'a BitGraph,
}

impl<'a> Table for EdgesTable<'a> {
    ghost use Rattle.graph_spec.specs.Graphs.{edges_of};
    ghost use Rattle.vga_grid.specs.Rows.{graph_of};
    ghost use Rattle.report_spec.specs.Tables.{edges_table};

    ghost records = { λ s. edges_table (edges_of (graph_of s.graph.now)) };

    fn put<O: Sink>(&self, alloc: Global, out: &mut O, form: Form) -> Result<(), ReportFault> {
        put_edges(alloc, out, form, self.graph)
    }
}

/// Numbered points with the measures of all nodes.
#[derive(Drop)]
pub struct PointsTable<'a> {
    pub points: &'a [(u32, Point)],
    pub measures: &'a [Measure],
}

impl<'a> Table for PointsTable<'a> {
    ghost use Rattle.report_spec.specs.Tables.{points_table};

    ghost records = { λ s. points_table s.points.now s.measures.now };

    fn put<O: Sink>(&self, alloc: Global, out: &mut O, form: Form) -> Result<(), ReportFault> {
        put_points(alloc, out, form, self.points, self.measures)
    }
}

/// Numbered points with the depths of all nodes.
#[derive(Drop)]
pub struct DepthTable<'a> {
    pub points: &'a [(u32, Point)],
    pub depths: &'a [Option<u32>],
}

impl<'a> Table for DepthTable<'a> {
    ghost use Rattle.report_spec.specs.Tables.{depth_table};

    ghost records = { λ s. depth_table s.points.now s.depths.now };

    fn put<O: Sink>(&self, alloc: Global, out: &mut O, form: Form) -> Result<(), ReportFault> {
        put_depth(alloc, out, form, self.points, self.depths)
    }
}

/// What is seen from a point.
#[derive(Drop)]
pub struct IsovistTable<'a> {
    pub seen: &'a IsovistParts,
}

impl<'a> Table for IsovistTable<'a> {
    ghost use Rattle.report_spec.specs.Tables.{isovist_table};

    ghost records = { λ s. isovist_table s.seen.now };

    fn put<O: Sink>(&self, alloc: Global, out: &mut O, form: Form) -> Result<(), ReportFault> {
        put_isovist(alloc, out, form, self.seen)
    }
}

/// Axial lines.
#[derive(Drop)]
pub struct AxialTable<'a> {
    pub lines: &'a [AxialLine],
}

impl<'a> Table for AxialTable<'a> {
    ghost use Rattle.report_spec.specs.Tables.{axial_table};

    ghost records = { λ s. axial_table s.lines.now };

    fn put<O: Sink>(&self, alloc: Global, out: &mut O, form: Form) -> Result<(), ReportFault> {
        put_axial(alloc, out, form, self.lines)
    }
}

/// What is measured at axial lines.
#[derive(Drop)]
pub struct LinesTable<'a> {
    pub measures: &'a [Measure],
}

impl<'a> Table for LinesTable<'a> {
    ghost use Rattle.report_spec.specs.Tables.{lines_table};

    ghost records = { λ s. lines_table s.measures.now };

    fn put<O: Sink>(&self, alloc: Global, out: &mut O, form: Form) -> Result<(), ReportFault> {
        put_lines(alloc, out, form, self.measures)
    }
}

/// The pieces of a plan's routes, and how many neighbours each has.
#[derive(Drop)]
pub struct SegmentsTable<'a> {
    pub plan: &'a Plan,
    pub pieces: &'a [Piece],
    pub neighbours: &'a [u32],
}

impl<'a> Table for SegmentsTable<'a> {
    ghost use Rattle.report_spec.specs.Tables.{segments_table};

    ghost records = { λ s. segments_table s.plan.now.routes s.pieces.now s.neighbours.now };

    fn put<O: Sink>(&self, alloc: Global, out: &mut O, form: Form) -> Result<(), ReportFault> {
        put_segments(alloc, out, form, self.plan, self.pieces, self.neighbours)
    }
}

/// The items of a plan.
#[derive(Drop)]
pub struct PlanTable<'a> {
    pub items: &'a [Item],
}

impl<'a> Table for PlanTable<'a> {
    ghost use Rattle.report_spec.specs.Tables.{plan_table};

    ghost records = { λ s. plan_table s.items.now };

    fn put<O: Sink>(&self, alloc: Global, out: &mut O, form: Form) -> Result<(), ReportFault> {
        put_plan(alloc, out, form, self.items)
    }
}
