//! Graphs: walks in them, depths, and the measures of a node. Definitions alone.
//!
//! `specs/Graphs.antt` says what a walk and a depth are, and which measures a node has.
#![tactic(auto)]
