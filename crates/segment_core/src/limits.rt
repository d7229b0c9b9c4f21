//! How many pieces there are, and how large the numbers get by which turns and cuts are found. All products of them fit
//! in 64 bits.

use plan_spec::MAX_ROUTES;

/// The most pieces of a plan: each route is cut by each other one at most once.
pub const MAX_PIECES: usize = MAX_ROUTES * MAX_ROUTES;

/// The most steps: each piece in both headings.
pub const MAX_STEPS: usize = 2 * MAX_PIECES;

/// The greatest size of a component of the directions in the table of turns.
pub const MAX_TABLE_COMPONENT: i64 = 1000;
