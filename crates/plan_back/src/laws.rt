//! Laws of changes that name places.

ghost use Rattle.std.specs.Prelude.{◌≡◌, ◌≤◌, None, length, true};
ghost use Rattle.plan_spec.specs.declared.edit.Edit.{Edit};
ghost use Rattle.plan_spec.specs.Accepted.{is_sound};
ghost use Rattle.plan_spec.specs.Plan.{Plan};
ghost use Rattle.plan_spec.specs.Edits.{HasShift, plan_after_edit};
ghost use Rattle.plan_back.specs.declared.back.Back.{Back};
ghost use Rattle.plan_back.specs.Backs.{HasPlace, TakesBack, back_of, edit_name, inverse_of, like_edit, name_of, plan_after_back, why_not_back};

/// An edit and the change that names places for it are one change: it has its place and its name, it is refused alike,
/// and it makes the same plan.
pub fn an_edit_as_back()
    ensures place { (p : Plan) (e : Edit) → HasPlace p (back_of p e) }
    ensures like { (p : Plan) (e : Edit) → like_edit (back_of p e) ≡ e }
    ensures name { (b : Back) → edit_name (like_edit b) ≡ name_of b }
    ensures plan { (p : Plan) (e : Edit) → plan_after_back p (back_of p e) ≡ plan_after_edit p e }
{}

/// A change that isn't refused leaves a sound plan. There its inverse isn't refused, gives back the plan itself, with
/// all places, and has the same name.
pub fn taking_back()
    ensures sound { (p : Plan) (b : Back) → is_sound p ≡ true → why_not_back p b ≡ None → is_sound (plan_after_back p b) ≡ true }
    ensures back { (p : Plan) (b : Back) → is_sound p ≡ true → HasShift (like_edit b) → why_not_back p b ≡ None
        → TakesBack p b (inverse_of p b) }
{}
