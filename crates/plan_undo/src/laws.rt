//! Laws of the undo machine.

ghost use Rattle.std.specs.Prelude.{◌≡◌, ◌≤◌, ◌∷◌, [], ℕ, List, Some};
ghost use Rattle.plan_spec.specs.Plan.{Plan};
ghost use Rattle.plan_undo.specs.History.{History, changed, redone, undone, without_last};

/// A change that is undone gives back the plan, and what was undone can be redone.
pub fn undoing_gives_back()
    ensures undone { (h : History) (name : List ℕ) (after : Plan) → 1 ≤ h.depth
        → undone (changed h name after) ≡ Some (
          name,
          record {
            depth = h.depth;
            now = h.now;
            past = without_last (changed h name after).past;
            next = (after, name) ∷ [];
          },
        ) }
    ensures redone { (h back : History) (name : List ℕ) → undone h ≡ Some (name, back)
        → redone back ≡ Some (name, h) }
{}
