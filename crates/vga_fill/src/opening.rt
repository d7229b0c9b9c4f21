//! The words that a fill begins with.

ghost use Rattle.std.specs.Prelude.{IfOk};
ghost use Rattle.vga_fill.specs.Graphs.{AreFirstWords};

use std::alloc::Global;
use text_spec::NoMemory;
use vga_grid::BitGraph;

/// No claims, and then the rows of the graph.
pub(crate) fn words_of(alloc: Global, graph: &BitGraph) -> Result<Vec<u64>, NoMemory>
    ensures { IfOk result (λ words. AreFirstWords graph.now words.items) }
{
    let mut words = Vec::new(alloc);
    words.push(0)?;
    for i in 0..graph.len() {
        words.extend_from_slice(graph.row(i))?;
    }
    Ok(words)
}
