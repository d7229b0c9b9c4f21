//! What the visibility graph of a plan can be made from after an edit.

ghost use Rattle.std.specs.Prelude.{◌≡◌};
ghost use Rattle.std.specs.Option.{IfSome};
ghost use Rattle.plan_spec.specs.Edits.{IsEditBetween};
ghost use Rattle.sight_spec.specs.Visibility.{visibility_graph};
ghost use Rattle.vga_grid.specs.Rows.{graph_of};
ghost use Rattle.plan_edit.specs.Sessions.{IsPast};

use plan_check::{Changed, Plan};
use vga_grid::BitGraph;

/// The plan before an edit with its visibility graph, and the boxes of the edit.
#[derive(Drop)]
pub(crate) struct Past {
    pub plan: Plan,
    pub graph: BitGraph,
    pub boxes: Changed,
}

/// What there is from before the edit, where the graph was kept.
pub(crate) fn past_of(
    graph: Option<BitGraph>,
    before: Plan,
    after: &Plan,
    boxes: Changed,
) -> Option<Past>
    requires kept_is { IfSome graph (λ graph. graph_of graph ≡ visibility_graph before) }
    requires edited { IsEditBetween before after.now boxes }
    ensures { IfSome result (IsPast after.now) }
{
    let _ = after;
    match graph {
        Some(graph) => Some(Past {
            plan: before,
            graph,
            boxes,
        }),
        None => None,
    }
}
