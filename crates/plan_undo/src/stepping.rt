//! One step through the history, either way.

ghost use Rattle.std.specs.Prelude.{◌≡◌, ◌≤◌, ◌+◌, [], Err, IfOk, OnErr, length};
ghost use Rattle.circular_buffer.specs.Buffer.{buffer};
ghost use Rattle.plan_undo.specs.Ways.{AreWays, IsStep};

use crate::faults::UndoFault;
use crate::ways::way_back;
use circular_buffer::HeapCircularBuffer;
use plan_back::{Back, Editor};
use plan_check::EditFault;
use std::alloc::Global;
use text_spec::Name;

/// Makes the last change of one ring, which leads on from the editor's plan, and puts the way back into the other.
/// Without memory, or with nothing to make, nothing changes.
pub(crate) fn step<E: Editor>(
    alloc: Global,
    editor: &mut E,
    from: &mut HeapCircularBuffer<Back>,
    to: &mut HeapCircularBuffer<Back>,
) -> Result<Name, UndoFault>
    requires ways { AreWays (E.plan editor.old) from.old.items }
    requires room { length from.old.items + length to.old.items ≤ to.old.capacity }
    ensures step { IfOk result (IsStep (E.plan editor.old) (E.plan editor.new)
        from.old.items from.new.items to.old.items to.new.items) }
    ensures from_capacity { from.new.capacity ≡ from.old.capacity }
    ensures to_capacity { to.new.capacity ≡ to.old.capacity }
    ensures nothing { result ≡ Err UndoFault.Nothing → from.old.items ≡ [] }
    ensures something { from.old.items ≡ [] → result ≡ Err UndoFault.Nothing }
    ensures same_plan { OnErr result (E.plan editor.new ≡ E.plan editor.old) }
    ensures same_from { OnErr result (from.new ≡ from.old) }
    ensures same_to { OnErr result (to.new ≡ to.old) }
{
    let Some(back) = from.back() else {
        return Err(UndoFault::Nothing);
    };
    let other = way_back(alloc, editor.plan_now(), back)?;
    let name = back.name();
    match editor.apply_back(alloc, back) {
        Ok(()) => {}
        Err(EditFault::NoMemory) => return Err(UndoFault::NoMemory),
        Err(EditFault::Refused(_)) => unreachable!(),
    }
    from.pop_back();
    to.push_back(other);
    Ok(name)
}
