//! How large a graph may be.

use plan_spec::MAX_AXIAL_LINES;

/// The most nodes of a graph: as many as the axial lines that are computed of a plan.
pub const MAX_NODES: u32 = MAX_AXIAL_LINES as u32;
