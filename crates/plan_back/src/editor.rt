//! What a plan is edited through.

use crate::back::Back;
use crate::change::with_back;
use plan_check::{EditFault, Plan};
use plan_spec::Edit;
use std::alloc::Global;
use std::marker::Model;

/// An object that keeps a plan and makes changes of it.
///
/// It has a state beside the plan, and says what each change makes of it; what the state is, is its own affair.
pub trait Editor: Drop {
    ghost use Rattle.std.specs.Prelude.{◌≡◌, IfErr, None, OnErr, OnOk, Some};
    ghost use Rattle.plan_spec.specs.declared.edit.Edit.{Edit};
    ghost use Rattle.plan_spec.specs.Plan.{Plan as PlanParts};
    ghost use Rattle.plan_spec.specs.Edits.{HasShift, plan_after_edit, why_not_edit};
    ghost use Rattle.plan_check.specs.Faults.{IfRefused};
    ghost use Rattle.plan_back.specs.declared.back.Back.{Back};
    ghost use Rattle.plan_back.specs.Backs.{HasPlace, like_edit, plan_after_back, why_not_back};

    /// What the state is.
    ghost State: { Type 0 };

    /// The plan as it stands.
    ghost plan: { Self → PlanParts };

    /// The state as it stands.
    ghost state: { Self → State };

    /// The state after an edit that isn't refused.
    ghost edited: { State → Edit → State };

    /// The state after a change that names places and isn't refused.
    ghost backed: { State → Back → State };

    /// Makes the edit. What is refused or finds no memory changes nothing. The shift of a move is at most `MAX_SHIFT`.
    fn apply_edit(&mut self, alloc: Global, edit: &Edit) -> Result<(), EditFault>
        requires shift { HasShift edit.now }
        ensures plan { OnOk result (plan self.new ≡ plan_after_edit (plan self.old) edit.now) }
        ensures state { OnOk result (state self.new ≡ edited (state self.old) edit.now) }
        ensures valid { OnOk result (why_not_edit (plan self.old) edit.now ≡ None) }
        ensures refused { IfErr result (λ fault. IfRefused fault (λ why. why_not_edit (plan self.old) edit.now ≡ Some why)) }
        ensures same_plan { OnErr result (plan self.new ≡ plan self.old) }
        ensures same_state { OnErr result (state self.new ≡ state self.old) };

    /// Makes the change. What is refused or finds no memory changes nothing. A place is at most the number of items of
    /// its kind, the shift of a move at most `MAX_SHIFT`.
    fn apply_back(&mut self, alloc: Global, back: &Back) -> Result<(), EditFault>
        requires place { HasPlace (plan self.old) back.now }
        requires shift { HasShift (like_edit back.now) }
        ensures plan { OnOk result (plan self.new ≡ plan_after_back (plan self.old) back.now) }
        ensures state { OnOk result (state self.new ≡ backed (state self.old) back.now) }
        ensures valid { OnOk result (why_not_back (plan self.old) back.now ≡ None) }
        ensures refused { IfErr result (λ fault. IfRefused fault (λ why. why_not_back (plan self.old) back.now ≡ Some why)) }
        ensures same_plan { OnErr result (plan self.new ≡ plan self.old) }
        ensures same_state { OnErr result (state self.new ≡ state self.old) };

    /// The plan as it stands.
    fn plan_now(&self) -> &Plan
        ensures { result.now ≡ plan self.now };
}

/// An editor that keeps a plan and nothing else: its state is the plan. Contracts see the plan.
#[derive(Drop)]
pub struct Desk {
    plan: Plan,
}

impl Model for Desk {
    ghost use Rattle.plan_spec.specs.Plan.{Plan as PlanParts};

    ghost Value = { PlanParts };

    ghost view = { λ desk. desk.plan };
}

impl Desk {
    ghost use Rattle.std.specs.Prelude.{◌≡◌};

    /// An editor of this plan, which takes no memory.
    pub fn new(plan: Plan) -> Desk
        ensures { result ≡ plan }
    {
        Desk { plan }
    }
}

impl Editor for Desk {
    ghost use Rattle.plan_spec.specs.Plan.{Plan as PlanParts};
    ghost use Rattle.plan_spec.specs.Edits.{plan_after_edit};
    ghost use Rattle.plan_back.specs.Backs.{plan_after_back};

    ghost State = { PlanParts };

    ghost plan = { λ desk. desk };

    ghost state = { λ desk. desk };

    ghost edited = { plan_after_edit };

    ghost backed = { plan_after_back };

    fn apply_edit(&mut self, alloc: Global, edit: &Edit) -> Result<(), EditFault> {
        self.plan = self.plan.with(alloc, edit)?;
        Ok(())
    }

    fn apply_back(&mut self, alloc: Global, back: &Back) -> Result<(), EditFault> {
        self.plan = with_back(alloc, &self.plan, back)?;
        Ok(())
    }

    fn plan_now(&self) -> &Plan {
        &self.plan
    }
}
