//! The totals of an isovist.

/// How many triangles an isovist has, and the sums of the floors and of the ceilings of their doubled areas.
#[derive(Clone, Copy, Debug, PartialEq, Eq)]
pub struct IsovistTotals {
    /// How many triangles there are.
    pub triangles: usize,
    /// The sum of the floors of their doubled areas, in the plan's own unit.
    pub floor: i128,
    /// The sum of the ceilings.
    pub ceil: i128,
}
