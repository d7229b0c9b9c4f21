//! The table of the edges of a graph.

ghost use Rattle.std.specs.Prelude.{◌≡◌, OnErr, OnOk};
ghost use Rattle.dm_io.specs.Streams.{WritesPrefix, appended_to};
ghost use Rattle.graph_spec.specs.Graphs.{edges_of};
ghost use Rattle.options_spec.specs.declared.options.Form.TheVariants.{Csv, Text};
ghost use Rattle.vga_grid.specs.Rows.{graph_of};
ghost use Rattle.report_spec.specs.Records.{records_bytes};
ghost use Rattle.report_spec.specs.Tables.{edge_row, edges_table};
ghost use Rattle.reports.specs.Faults.{Counts};

use crate::fault::ReportFault;
use crate::record::Record;
use crate::replies::put_record;
use crate::table::{Rows, make_end, make_head, put_table};
use dm_io::Sink;
use edge_text::EdgeText;
use options_spec::Form;
use std::alloc::Global;
use text_spec::NoMemory;
use vga_grid::{BitGraph, Edges};

/// The edges that are left.
#[derive(Drop)]
struct EdgeRows<'a> {
    edges: Edges<'a>,
}

/// The row of an edge.
fn make_edge(row: &mut Record, i: u32, j: u32) -> Result<(), NoMemory>
    ensures { OnOk result (row.new ≡ edge_row (i, j)) }
{
    row.clear();
    row.number(u64::from(i))?;
    row.number(u64::from(j))
}

impl<'a> Rows for EdgeRows<'a> {
    ghost use Rattle.std.specs.Prelude.{map};
    ghost use Rattle.vga_grid.specs.Edges.{edges_left};
    ghost use Rattle.vga_grid.specs.Rows.{graph_of};
    ghost use Rattle.report_spec.specs.Tables.{edge_row};

    ghost left = { λ s. map edge_row (edges_left (graph_of s.edges.graph.now) s.edges.row s.edges.column) };

    fn next_row(&mut self, row: &mut Record) -> Result<bool, NoMemory> {
        match self.edges.next() {
            Some((i, j)) => {
                make_edge(row, i, j)?;
                Ok(true)
            }
            None => Ok(false),
        }
    }
}

/// Prints the table in text form, where a row is two copies of digits that are made once.
fn put_edges_as_text<O: Sink>(
    alloc: Global,
    out: &mut O,
    graph: &BitGraph,
) -> Result<(), ReportFault>
    ensures all { OnOk result (O.written out.new ≡ appended_to (O.written out.old) (records_bytes Text (edges_table (edges_of (graph_of graph.now))))) }
    ensures prefix { OnErr result (WritesPrefix (O.written out.old) (O.written out.new) (records_bytes Text (edges_table (edges_of (graph_of graph.now))))) }
    ensures faults { Counts result (O.faults out.old) (O.faults out.new) }
{
    let mut rows = EdgeText::new(alloc, graph.len())?;
    let mut row = Record::new(alloc);
    make_head(&mut row, b"edges")?;
    put_record(alloc, out, Form::Text, &row)?;
    let count = rows.put_rows(out, graph)?;
    make_end(&mut row, count)?;
    put_record(alloc, out, Form::Text, &row)
}

/// Prints the table in csv form.
fn put_edges_as_csv<O: Sink>(
    alloc: Global,
    out: &mut O,
    graph: &BitGraph,
) -> Result<(), ReportFault>
    ensures all { OnOk result (O.written out.new ≡ appended_to (O.written out.old) (records_bytes Csv (edges_table (edges_of (graph_of graph.now))))) }
    ensures prefix { OnErr result (WritesPrefix (O.written out.old) (O.written out.new) (records_bytes Csv (edges_table (edges_of (graph_of graph.now))))) }
    ensures faults { Counts result (O.faults out.old) (O.faults out.new) }
{
    let _count = graph.edge_count();
    let mut rows = EdgeRows {
        edges: graph.edges(),
    };
    put_table(alloc, out, Form::Csv, b"edges", &mut rows)
}

/// Prints the table of the edges of a graph, each once, its smaller node first, in order.
///
/// Cost: two passes over the words of the graph and one over its edges, and a call of the sink for each 64 KiB; memory
/// in text form for the digits of each node, and in csv form for some thousand records.
pub fn put_edges<O: Sink>(
    alloc: Global,
    out: &mut O,
    form: Form,
    graph: &BitGraph,
) -> Result<(), ReportFault>
    ensures all { OnOk result (O.written out.new ≡ appended_to (O.written out.old) (records_bytes form (edges_table (edges_of (graph_of graph.now))))) }
    ensures prefix { OnErr result (WritesPrefix (O.written out.old) (O.written out.new) (records_bytes form (edges_table (edges_of (graph_of graph.now))))) }
    ensures faults { Counts result (O.faults out.old) (O.faults out.new) }
{
    match form {
        Form::Text => put_edges_as_text(alloc, out, graph),
        Form::Csv => put_edges_as_csv(alloc, out, graph),
    }
}
