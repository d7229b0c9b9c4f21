//! The triangles of an isovist, and the sums of their areas.

ghost use Rattle.std.specs.Prelude.{◌≡◌};

use crate::fault::IsovistFault;
use crate::totals::IsovistTotals;
use crate::triangle::Triangle;
use std::marker::Model;

/// What is seen from a point: triangles, counterclockwise from (1,0), and between which sums of whole numbers their doubled
/// areas lie together. Contracts see the three parts.
#[derive(Drop)]
pub struct IsovistParts {
    triangles: Vec<Triangle>,
    floor: i128,
    ceil: i128,
}

impl Model for IsovistParts {
    ghost use Rattle.sight_spec.specs.Isovist.{Isovist};

    ghost Value = { Isovist };

    ghost view = { λ a. record { triangles = a.triangles.items; floor = a.floor; ceil = a.ceil } };
}

impl IsovistParts {
    /// The isovist of these triangles, whose sums these are.
    pub(crate) fn of(triangles: Vec<Triangle>, floor: i128, ceil: i128) -> IsovistParts
        ensures { result ≡ record { triangles = triangles.items; floor = floor; ceil = ceil } }
    {
        IsovistParts {
            triangles,
            floor,
            ceil,
        }
    }

    /// The triangles, counterclockwise from (1,0).
    pub fn triangles(&self) -> &[Triangle]
        ensures { result.now ≡ self.now.triangles }
    {
        &self.triangles
    }

    /// The sum of the floors of the triangles' doubled areas.
    pub fn floor(&self) -> i128
        ensures { result ≡ self.now.floor }
    {
        self.floor
    }

    /// The sum of the ceilings of the triangles' doubled areas.
    pub fn ceil(&self) -> i128
        ensures { result ≡ self.now.ceil }
    {
        self.ceil
    }
}

fn is_shared<T: Send + Sync>() {}

/// Every type that this crate offers may be moved to another thread and shared between threads.
pub fn types_are_shared() {
    is_shared::<Triangle>();
    is_shared::<IsovistParts>();
    is_shared::<IsovistTotals>();
    is_shared::<IsovistFault>();
}
