//! Why nothing was undone or redone.

use text_spec::NoMemory as NoRoom;

/// Why nothing was undone or redone.
#[derive(Clone, Copy, Debug, PartialEq, Eq)]
pub enum UndoFault {
    /// There is nothing to undo, or to redo.
    Nothing,
    /// There is no memory.
    NoMemory,
}

impl From<NoRoom> for UndoFault {
    ghost use Rattle.std.specs.Prelude.{◌≡◌};
    ghost use Rattle.plan_undo.specs.declared.faults.UndoFault.TheVariants.{NoMemory as OutOfMemory};

    ghost from_gives = { λ _ fault. fault ≡ OutOfMemory };

    fn from(_fault: NoRoom) -> UndoFault {
        UndoFault::NoMemory
    }
}
