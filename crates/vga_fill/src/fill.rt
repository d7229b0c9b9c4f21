//! A graph that is being filled.

ghost use Rattle.std.specs.Prelude.{◌≡◌, ◌≤◌, length};
ghost use Rattle.plan_spec.specs.Grid.{grid_points};
ghost use Rattle.graph_spec.specs.Graphs.{IsSimpleGraph};
ghost use Rattle.vga_grid.specs.Rows.{graph_of};
ghost use Rattle.vga_grid.specs.declared.limits.TheConstants.{MAX_NODES};
ghost use Rattle.vga_fill.specs.Places.{size};

use crate::events::{FillRule, Task, View};
use atomic_table::Table;
use std::alloc::Global;

/// A graph that workers fill together, each with a seat: it turns from an old graph into the visibility graph of a
/// plan. At every moment each place shows what is old or new there, and what was written is new.
///
/// Memory: of n nodes one word that counts the claims, and n rows of ⌈n/64⌉ words.
#[derive(Drop)]
pub struct Fill {
    pub(crate) table: Table<(), View, Task, FillRule, Global>,
    pub(crate) count: u32,
    ghost same: { count ≡ table.shared.key.count },
    ghost at_most: { count ≤ MAX_NODES },
    ghost words: { table.shared.table_id.words ≡ size count },
    ghost slots: { table.shared.table_id.slots ≡ 0 },
    ghost old_simple: { IsSimpleGraph (graph_of table.shared.key.old.value) },
    ghost old_count: { table.shared.key.old.value.count ≡ count },
    ghost new_count: { length (grid_points table.shared.key.after.value.grid) ≡ count },
}
