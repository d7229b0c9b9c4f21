//! Why not all was written.

use dm_io::PutFailed;
use text_spec::NoMemory as OutOfMemory;
use thiserror::Error;

/// Why not all was written.
#[derive(Clone, Copy, Debug, PartialEq, Eq, Error)]
pub enum ReportFault {
    /// The sink failed.
    #[error("the sink failed")]
    Write,
    /// There is no memory.
    #[error("out of memory")]
    NoMemory,
}

impl From<PutFailed> for ReportFault {
    ghost use Rattle.std.specs.Prelude.{◌≡◌};
    ghost use Rattle.reports.specs.declared.fault.ReportFault.TheVariants.{Write};

    ghost from_gives = { λ failed fault. fault ≡ Write };

    fn from(_: PutFailed) -> ReportFault {
        ReportFault::Write
    }
}

impl From<OutOfMemory> for ReportFault {
    ghost use Rattle.std.specs.Prelude.{◌≡◌};
    ghost use Rattle.reports.specs.declared.fault.ReportFault.TheVariants.{NoMemory};

    ghost from_gives = { λ none fault. fault ≡ NoMemory };

    fn from(_: OutOfMemory) -> ReportFault {
        ReportFault::NoMemory
    }
}
