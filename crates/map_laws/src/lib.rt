//! Laws of the two maps of a plan, the visibility graph of its grid and the crossing graph of its axial lines: neither
//! has a direction or a loop, and the table of edges lists the edges of the first.
//!
//! A law is a function without parameters and with an empty body, whose contract states it.
//!
//! | law | what it says | breaks if .. changes |
//! |---|---|---|
//! | [`the_visibility_graph_is_simple`] | what sees is seen, and the graph's edges are the listed pairs that see each other | `Grid`, `Sight`, `Visibility` |
//! | [`the_crossing_graph_is_simple`] | what meets is met | `Axial` |
//!
//! Proofs of code cite the laws by the lemmas in `proofs/`: `MutualSight`, `SimpleGraphs` and `Visibility`.
#![tactic(auto)]

ghost use Rattle.std.specs.Prelude.{◌≡◌, List};
ghost use Rattle.plan_spec.specs.Plan.{Plan};
ghost use Rattle.graph_spec.specs.Graphs.{IsSimpleGraph, edges_of};
ghost use Rattle.sight_spec.specs.Visibility.{visibility_edges, visibility_graph};
ghost use Rattle.sight_spec.specs.Axial.{AxialLine, crossing_graph};

/// The visibility graph of any plan has no direction and no loops and joins numbers of grid points alone. Its edges
/// are the pairs of open points that see each other, in the order in which the table of edges has them.
pub fn the_visibility_graph_is_simple()
    ensures simple { (plan : Plan) → IsSimpleGraph (visibility_graph plan) }
    ensures edges { (plan : Plan) → edges_of (visibility_graph plan) ≡ visibility_edges plan }
{}

/// The crossing graph of any lines has no direction and no loops and joins numbers of lines alone.
pub fn the_crossing_graph_is_simple()
    ensures { (lines : List AxialLine) → IsSimpleGraph (crossing_graph lines) }
{}
