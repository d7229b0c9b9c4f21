//! The answer of calls that found no memory.

use std::alloc::{AllocError, AllocFailed};

/// There is no memory. Every call that allocates may answer it, and then leaves what it was lent as before.
#[derive(Clone, Copy, Debug, PartialEq, Eq)]
pub struct NoMemory;

impl From<AllocError> for NoMemory {
    ghost use Rattle.std.specs.Prelude.{⊤};

    ghost from_gives = { λ error none. ⊤ };

    fn from(_: AllocError) -> NoMemory {
        NoMemory
    }
}

impl<T: Drop> From<AllocFailed<T>> for NoMemory {
    ghost use Rattle.std.specs.Prelude.{⊤};

    ghost from_gives = { λ error none. ⊤ };

    fn from(_: AllocFailed<T>) -> NoMemory {
        NoMemory
    }
}
