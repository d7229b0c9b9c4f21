//! Why there is no isovist.

use text_spec::NoMemory as OutOfMemory;
use thiserror::Error;

/// Why there is no isovist.
#[derive(Clone, Copy, Debug, PartialEq, Eq, Error)]
pub enum IsovistFault {
    /// The point isn't open.
    #[error("the point isn't open")]
    Closed,
    /// There is no memory.
    #[error("out of memory")]
    NoMemory,
}

impl From<OutOfMemory> for IsovistFault {
    ghost use Rattle.std.specs.Prelude.{◌≡◌};
    ghost use Rattle.isovist_core.specs.declared.fault.IsovistFault.TheVariants.{NoMemory};

    ghost from_gives = { λ none fault. fault ≡ NoMemory };

    fn from(_: OutOfMemory) -> IsovistFault {
        IsovistFault::NoMemory
    }
}
