//! How much a plan may have. Of each limit as much as it says is allowed, and more is refused.

/// The most obstacles of a plan.
pub const MAX_OBSTACLES: usize = 256;

/// The most screens of a plan.
pub const MAX_SCREENS: usize = 256;

/// The most routes of a plan.
pub const MAX_ROUTES: usize = 256;

/// The most corners of a plan: those of the outer polygon and of all obstacles, and the two ends of each screen.
pub const MAX_CORNERS: usize = 1024;

/// The most points of a grid.
pub const MAX_GRID_POINTS: usize = 4096;

/// The longest step of a grid, in the plan's unit.
pub const MAX_STEP: i64 = 999_999_999;

/// The farthest that a move shifts an obstacle in each coordinate, in the plan's unit.
pub const MAX_SHIFT: i64 = 999_999_999;

/// The most axial lines that are computed of a plan.
pub const MAX_AXIAL_LINES: usize = 16_384;
