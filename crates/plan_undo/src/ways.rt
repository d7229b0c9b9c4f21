//! The change that takes another back.

ghost use Rattle.std.specs.Prelude.{◌≡◌, ◌++◌, ◌∷◌, [], IfOk, None};
ghost use Rattle.circular_buffer.specs.Buffer.{buffer, keep_last};
ghost use Rattle.plan_spec.specs.Edits.{HasShift, plan_after_edit, why_not_edit};
ghost use Rattle.plan_back.specs.Backs.{edit_name, like_edit, name_of, plan_after_back, why_not_back};
ghost use Rattle.plan_undo.specs.Ways.{IsWayBack};

use circular_buffer::HeapCircularBuffer;
use plan_back::{Back, back_of, inverse};
use plan_check::Plan;
use plan_spec::Edit;
use std::alloc::Global;
use text_spec::NoMemory;

/// The change that leads back from the plan after the change to this one, where nothing refuses it.
pub(crate) fn way_back(alloc: Global, plan: &Plan, back: &Back) -> Result<Back, NoMemory>
    requires shift { HasShift (like_edit back.now) }
    ensures { why_not_back plan.now back.now ≡ None
        → IfOk result (IsWayBack plan.now (plan_after_back plan.now back.now) (name_of back.now)) }
{
    inverse(alloc, plan, back)
}

/// The same of an edit.
pub(crate) fn way_back_of_edit(alloc: Global, plan: &Plan, edit: &Edit) -> Result<Back, NoMemory>
    requires shift { HasShift edit.now }
    ensures { why_not_edit plan.now edit.now ≡ None
        → IfOk result (IsWayBack plan.now (plan_after_edit plan.now edit.now) (edit_name edit.now)) }
{
    let back = back_of(alloc, plan, edit)?;
    way_back(alloc, plan, &back)
}

/// Puts the way back from a new change at the end of the past, whose first gives way where it is full, and leaves
/// nothing to redo.
pub(crate) fn keep_way_back(
    past: &mut HeapCircularBuffer<Back>,
    next: &mut HeapCircularBuffer<Back>,
    back: Back,
)
    ensures past { past.new ≡ buffer (keep_last past.old.capacity (past.old.items ++ back ∷ [])) past.old.capacity }
    ensures next { next.new ≡ buffer [] next.old.capacity }
{
    past.push_back(back);
    next.clear();
}
