//! Laws of graphs and of walks along routes: the depths that are computed, and that stand in tables, are those of the
//! least walks.
//!
//! A depth is said twice. As a relation it is the least over all walks, of any length: that is what a reader has to
//! believe. As a value it is found by a search that ends, from which the tables are defined. These laws say that both
//! are one, for every graph and every list of pieces.
//!
//! A law is a function without parameters and with an empty body, whose contract states it.
//!
//! | law | what it says | breaks if .. changes |
//! |---|---|---|
//! | [`depth_is_least`] | the computed depth of a node is the least number of edges of a walk to it, or none where there is no walk | `Graphs` |
//! | [`depth_is_unique`] | a node has one depth | `Graphs` |
//! | [`measures_are_bounded`] | depths, connectivity and reach are at most the number of nodes, and a total the square of one less | `Graphs` |
//! | [`measures_stand_at_their_nodes`] | the list of measures has those of each node, at its number | `Graphs` |
//! | [`same_graphs_measure_the_same`] | graphs that are the same below their count have the same depths, measures and edges | `Graphs` |
//! | [`same_simple_graphs_are_equal`] | where graphs join nodes alone, that makes them equal, and so does one list of edges | `Graphs` |
//! | [`turn_depth_is_least`] | the computed turn depth of a piece is the least cost of a walk to it, or none where there is no walk | `Routes` |
//! | [`turn_depth_is_unique`] | a piece has one turn depth | `Routes` |
//!
//! Proofs of code cite the laws by the lemmas in `proofs/`: `Depths`, `Bounds`, `SameGraphs`, `SameEdges`
//! and `Turns`.
#![tactic(auto)]

ghost use Rattle.std.specs.Prelude.{◌≡◌, ◌<◌, ◌≤◌, ◌+◌, ◌-◌, ◌*◌, ◌≤ℤ◌, pos, unsigned_abs, ℕ, List, Option, None, Some, length, get_or};
ghost use Rattle.std.specs.List.{Contains, enumerate_from};
ghost use Rattle.plane_spec.specs.declared.Point.{Point};
ghost use Rattle.graph_spec.specs.Graphs.{Graph, IsDepth, IsSameGraph, IsSimpleGraph, depth_of, depths_of, edges_of, measures_of, measures_of_nodes, no_measures};
ghost use Rattle.route_spec.specs.Routes.{IsTurnDepth, Piece, turn_depths_of};

/// The depth of node `j` from `i` that is computed is the least number of edges of any walk from `i` to `j`, and none
/// is computed exactly where there is no walk. The list of depths from `i` has one for each node, at its number.
///
/// So what stands in a table as a depth is true of all walks, although only fewer edges than there are nodes are
/// tried: a shortest walk meets no node twice. `i` and `j` may be any numbers: one that is no node has no walk.
pub fn depth_is_least()
    ensures value { (graph : Graph) (i j : ℕ) → IsDepth graph i j (depth_of graph i j) }
    ensures one_each { (graph : Graph) (i : ℕ) → length (depths_of graph i) ≡ graph.count }
    ensures listed { (graph : Graph) (i j : ℕ) → IsDepth graph i j (get_or (depths_of graph i) j None) }
{}

/// Two depths of one node from another are the same. So whoever finds a least walk, by whichever search, has found
/// the depth that is computed.
pub fn depth_is_unique()
    ensures { (graph : Graph) (i j : ℕ) (a b : Option ℕ) → IsDepth graph i j a → IsDepth graph i j b → a ≡ b }
{}

/// A depth is less than the number of nodes. A node has at most as many neighbours as there are nodes, and reaches at
/// most as many. Each of the other nodes adds a depth to a total, so this is at most the square of one less than the
/// number of nodes.
pub fn measures_are_bounded()
    ensures depth { (graph : Graph) (i j depth : ℕ) → depth_of graph i j ≡ Some depth → depth < graph.count }
    ensures connectivity { (graph : Graph) (i : ℕ) → (measures_of graph i).connectivity ≤ graph.count }
    ensures reached { (graph : Graph) (i : ℕ) → (measures_of graph i).reached ≤ graph.count }
    ensures total { (graph : Graph) (i : ℕ) → (measures_of graph i).total ≤ (graph.count - 1) * (graph.count - 1) }
{}

/// The list of measures has those of each node, at its number. So a row of a table that reads them there has the
/// measures of its own node.
pub fn measures_stand_at_their_nodes()
    ensures one_each { (graph : Graph) → length (measures_of_nodes graph) ≡ graph.count }
    ensures listed { (graph : Graph) (i : ℕ) → i < graph.count
        → get_or (measures_of_nodes graph) i no_measures ≡ measures_of graph i }
{}

/// Graphs with as many nodes, of which the same are joined, have the same depths, measures and edges, whatever they
/// say of numbers that are no nodes.
pub fn same_graphs_measure_the_same()
    ensures depth { (g h : Graph) → IsSameGraph g h → (i j : ℕ) → depth_of g i j ≡ depth_of h i j }
    ensures depths { (g h : Graph) → IsSameGraph g h → (i : ℕ) → depths_of g i ≡ depths_of h i }
    ensures measures { (g h : Graph) → IsSameGraph g h → measures_of_nodes g ≡ measures_of_nodes h }
    ensures edges { (g h : Graph) → IsSameGraph g h → edges_of g ≡ edges_of h }
{}

/// Simple graphs that are the same below their count are equal, since neither joins any other number. So are simple
/// graphs with as many nodes and the same edges, and graphs with as many nodes that join the same numbers.
pub fn same_simple_graphs_are_equal()
    ensures simple { (g h : Graph) → IsSimpleGraph g → IsSimpleGraph h → IsSameGraph g h → g ≡ h }
    ensures edges { (g h : Graph) → IsSimpleGraph g → IsSimpleGraph h → g.count ≡ h.count
        → edges_of g ≡ edges_of h → g ≡ h }
    ensures joins { (g h : Graph) → g.count ≡ h.count → ((i j : ℕ) → g.joins i j ≡ h.joins i j) → g ≡ h }
{}

/// The list of turn depths that is computed has one for each piece, at its number. It is the least cost of any walk
/// from the source to the piece, in whichever headings, and none exactly where there is no walk.
///
/// So what stands in a table as a turn depth is true of all walks, although only twice as many rounds as there are
/// pieces are made: for each walk there is one that costs no more and takes no step, a piece in a heading, twice. The
/// source may be any number; from one that is no piece's, no piece is reached.
pub fn turn_depth_is_least()
    ensures one_each { (pieces : List Piece) (source : ℕ) → length (turn_depths_of pieces source) ≡ length pieces }
    ensures listed { (pieces : List Piece) (source : ℕ) (e : ℕ × Piece) → Contains (enumerate_from 0 pieces) e
        → IsTurnDepth pieces source e (get_or (turn_depths_of pieces source) e.0 None) }
{}

/// Two turn depths of one piece from one source are the same. So whoever finds a cheapest walk has found the turn
/// depth that is computed.
pub fn turn_depth_is_unique()
    ensures { (pieces : List Piece) (source : ℕ) (e : ℕ × Piece) (a b : Option ℕ)
        → IsTurnDepth pieces source e a → IsTurnDepth pieces source e b → a ≡ b }
{}
