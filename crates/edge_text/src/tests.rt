//! The rows of small graphs, into sinks that take a byte a call and have room for some of them.

use crate::EdgeText;
use dm_io::MemSink;
use std::alloc::Global;
use std::process::Abort;
use std::test::Fail;
use vga_grid::BitGraph;

/// How many nodes a graph has, its edges, and their rows.
type Row = (u32, &'static [(u32, u32)], &'static str);

const ROWS: [Row; 4] = [
    (0, &[], ""),
    (1, &[], ""),
    (3, &[(1, 2), (0, 2), (0, 1)], "0 1\n0 2\n1 2\n"),
    (
        130,
        &[(9, 129), (128, 10), (0, 99)],
        "0 99\n9 129\n10 128\n",
    ),
];

fn joined(alloc: Global, nodes: u32, edges: &[(u32, u32)]) -> Result<BitGraph, Fail> {
    let mut graph = BitGraph::empty(alloc, nodes.min(200))?;
    for (i, j) in edges {
        if *i < graph.len() && *j < graph.len() && *i != *j {
            graph.join_pair(*i, *j);
        }
    }
    Ok(graph)
}

/// Puts the rows into a sink with so much room: all of them, and their number, where it is enough.
fn fits(
    rt: &impl Abort,
    alloc: Global,
    graph: &BitGraph,
    count: usize,
    text: &str,
    room: usize,
) -> Result<(), Fail> {
    let mut out = MemSink::new(alloc, room, 1, Vec::new(alloc))?;
    let mut rows = EdgeText::new(alloc, graph.len())?;
    let answer = rows.put_rows(&mut out, graph);
    assert!(rt; answer.is_ok() == (text.len() <= room), "{text}");
    assert!(rt; answer.unwrap_or(count as u64) == count as u64, "{text}");
    assert!(rt; out.bytes().len() == room.min(text.len()), "{text}");
    for (byte, wanted) in out.bytes().iter().zip(text.as_bytes()) {
        assert!(rt; *byte == *wanted, "{text}");
    }
    Ok(())
}

#[test]
fn rows_of_small_graphs(rt: HostRuntime) -> Result<(), Fail> {
    for (nodes, edges, text) in ROWS {
        let graph = joined(rt.alloc(), nodes, edges)?;
        for room in 0..=text.len() {
            fits(&rt, rt.alloc(), &graph, edges.len(), text, room)?;
        }
    }
    Ok(())
}
