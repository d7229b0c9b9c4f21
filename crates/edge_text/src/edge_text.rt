//! The rows of the edges of a graph.

ghost use Rattle.std.specs.Prelude.{◌≡◌, ◌≤◌, ◌<◌, ◌++◌, [], IfOk, OnErr, OnOk, length, map};
ghost use Rattle.std.specs.Fmt.{decimal};
ghost use Rattle.std.specs.List.{range_with_len};
ghost use Rattle.dm_io.specs.Streams.{Rose, WritesPrefix, appended_to};
ghost use Rattle.dm_io.specs.OutputBuffer.{WritesAndBuffers};
ghost use Rattle.graph_spec.specs.Graphs.{edges_of};
ghost use Rattle.options_spec.specs.declared.options.Form.TheVariants.{Text};
ghost use Rattle.report_spec.specs.Records.{record_bytes, records_bytes};
ghost use Rattle.report_spec.specs.Tables.{edge_row};
ghost use Rattle.vga_grid.specs.Rows.{graph_of};

use crate::digits::{Digits, digits_below};
use crate::lines::Lines;
use dm_io::{PutFailed, Sink};
use std::alloc::Global;
use std::marker::Model;
use text_spec::NoMemory;
use vga_grid::BitGraph;

/// Adds the row of an edge to the lines that wait.
fn add_row<O: Sink>(
    lines: &mut Lines,
    out: &mut O,
    digits: &[Digits],
    i: u32,
    j: u32,
) -> Result<(), PutFailed>
    requires digits { digits.now ≡ map decimal (range_with_len 0 (length digits.now)) }
    requires i_in { i < length digits.now }
    requires j_in { j < length digits.now }
    ensures all { OnOk result (WritesAndBuffers (O.written out.old) (O.written out.new) (lines.old ++ record_bytes Text (edge_row (i, j))) lines.new) }
    ensures faults_stay { OnOk result (O.faults out.new ≡ O.faults out.old) }
    ensures prefix { OnErr result (WritesPrefix (O.written out.old) (O.written out.new) (lines.old ++ record_bytes Text (edge_row (i, j)))) }
    ensures dropped { OnErr result (lines.new ≡ []) }
    ensures only_on_fault { OnErr result (Rose (O.faults out.old) (O.faults out.new)) }
{
    lines.make_room(out)?;
    lines.add(&digits[i as usize], b' ');
    lines.add(&digits[j as usize], b'\n');
    Ok(())
}

/// Puts the rows of the edges of a graph whose nodes have their digits. How many they were. Nothing waits then.
fn put_edges<O: Sink>(
    lines: &mut Lines,
    out: &mut O,
    digits: &[Digits],
    graph: &BitGraph,
) -> Result<u64, PutFailed>
    requires digits { digits.now ≡ map decimal (range_with_len 0 (length digits.now)) }
    requires nodes { (graph_of graph.now).count ≤ length digits.now }
    requires empty { lines.old ≡ [] }
    ensures empty { lines.new ≡ [] }
    ensures all { OnOk result (O.written out.new ≡ appended_to (O.written out.old) (records_bytes Text (map edge_row (edges_of (graph_of graph.now))))) }
    ensures count { IfOk result (λ count. count ≡ length (edges_of (graph_of graph.now))) }
    ensures faults_stay { OnOk result (O.faults out.new ≡ O.faults out.old) }
    ensures prefix { OnErr result (WritesPrefix (O.written out.old) (O.written out.new) (records_bytes Text (map edge_row (edges_of (graph_of graph.now))))) }
    ensures only_on_fault { OnErr result (Rose (O.faults out.old) (O.faults out.new)) }
{
    let _nodes = graph.len();
    let mut edges = graph.edges();
    'edges: loop {
        let Some((i, j)) = edges.next() else {
            lines.flush(out)?;
            return Ok(graph.edge_count());
        };
        add_row(lines, out, digits, i, j)?;
    }
}

/// What prints the rows of the edges of graphs of up to so many nodes. Contracts see how many.
#[derive(Drop)]
pub struct EdgeText {
    digits: Vec<Digits>,
    lines: Lines,
}

impl Model for EdgeText {
    ghost use Rattle.std.specs.Prelude.{◌≡◌, ℕ, [], length, map};
    ghost use Rattle.std.specs.Fmt.{decimal};
    ghost use Rattle.std.specs.List.{range_with_len};

    ghost Value = { ℕ };

    ghost view = { λ a. length a.digits.items };

    ghost invariant = { λ a. (a.digits.items ≡ map decimal (range_with_len 0 (length a.digits.items))) × (a.lines ≡ []) };
}

impl EdgeText {
    /// For graphs of up to so many nodes.
    pub fn new(alloc: Global, nodes: u32) -> Result<EdgeText, NoMemory>
        ensures { IfOk result (λ text. text ≡ nodes) }
    {
        let digits = digits_below(alloc, nodes)?;
        let lines = Lines::new(alloc)?;
        Ok(EdgeText { digits, lines })
    }

    /// Puts the row of each edge, in their order, in text form. How many they were.
    ///
    /// Cost: one pass over the words of the graph and one over its edges, and a call of the sink for each 64 KiB.
    pub fn put_rows<O: Sink>(&mut self, out: &mut O, graph: &BitGraph) -> Result<u64, PutFailed>
        requires nodes { (graph_of graph.now).count ≤ self.old }
        ensures nodes { self.new ≡ self.old }
        ensures all { OnOk result (O.written out.new ≡ appended_to (O.written out.old) (records_bytes Text (map edge_row (edges_of (graph_of graph.now))))) }
        ensures count { IfOk result (λ count. count ≡ length (edges_of (graph_of graph.now))) }
        ensures faults_stay { OnOk result (O.faults out.new ≡ O.faults out.old) }
        ensures prefix { OnErr result (WritesPrefix (O.written out.old) (O.written out.new) (records_bytes Text (map edge_row (edges_of (graph_of graph.now))))) }
        ensures only_on_fault { OnErr result (Rose (O.faults out.old) (O.faults out.new)) }
    {
        let count = put_edges(&mut self.lines, out, &self.digits, graph)?;
        Ok(count)
    }
}
