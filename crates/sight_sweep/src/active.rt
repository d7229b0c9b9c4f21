//! The walls and screens that a direction spans, from the station outwards.

ghost use Rattle.std.specs.Prelude.{◌≡◌, ◌||◌, pos, int_lt, IfOk, ℕ, Bool, true, false, ◌≢◌, ◌<◌, length, remove};
ghost use Rattle.std.proofs.Common.{get_or};
ghost use Rattle.sight_sweep.specs.declared.blocker.Blocker as blockers;
ghost use Rattle.plane_spec.specs.declared.Point.{Point};
ghost use Rattle.plane_spec.specs.Segments as segments;
ghost use Rattle.front_laws.specs.Seen as order;
ghost use Rattle.sight_sweep.specs.Actives.{seen, IsOf, IsActive, SpansAll, without, beside};
ghost use Rattle.sight_spec.specs.Scene.{Scene};
ghost use Rattle.round_laws.specs.Rounds.{AreWalls};

use crate::blocker::Blocker;
use text_spec::NoMemory;

fn are_opposite(s: i64, t: i64) -> bool
    ensures { result ≡ segments.are_opposite s t }
{
    (s < 0 && 0 < t) || (0 < s && t < 0)
}

fn is_either_positive(s: i64, t: i64) -> bool
    ensures { result ≡ (int_lt (pos 0) s || int_lt (pos 0) t) }
{
    0 < s || 0 < t
}

/// Whether `v` is in front of `w`.
#[tactic(auto, unfolding(front_laws::specs::Seen::is_in_front))]
pub(crate) fn is_in_front(v: &Blocker, w: &Blocker) -> bool
    ensures { result ≡ order.is_in_front (seen v.now) (seen w.now) }
{
    let first = w.side(v.from);
    let second = w.side(v.to);
    if are_opposite(first, second) {
        !is_either_positive(v.side(w.from), v.side(w.to))
    } else {
        is_either_positive(first, second)
    }
}

/// Whether the wall or screen of the number stands at the place.
fn has_at(active: &[Blocker], place: usize, number: u32) -> bool
    ensures there { result ≡ true → (place < length active.now)
        × ((d : blockers.Blocker) → (get_or active.now place d).number ≡ number) }
    ensures not_there { result ≡ false → place < length active.now → (d : blockers.Blocker)
        → (get_or active.now place d).number ≢ number }
{
    match active.get(place) {
        None => false,
        Some(blocker) => blocker.number == number,
    }
}

/// Puts a wall or screen into its place, if it isn't there.
pub(crate) fn put_in(active: &mut Vec<Blocker>, new: Blocker) -> Result<(), NoMemory>
    ensures put { (scene : Scene) (p : Point) (kept : ℕ → Bool) (test : ℕ → order.Seen → Bool) (way : Point)
        → AreWalls scene p → IsActive scene p kept test active.old.items
        → IsOf scene p new → kept new.number ≡ true → SpansAll scene p kept test way → order.spans way (seen new) ≡ true
        → IfOk result (λ u. IsActive scene p kept (beside new.number test) active.new.items) }
{
    let place = active.partition_point(
        |v: &Blocker| -> bool
            ensures { result ≡ order.is_in_front (seen v.now) (seen new) }
        { is_in_front(v, &new) },
    );
    if has_at(active, place, new.number) {
        return Ok(());
    }
    match active.insert(place, new) {
        Ok(()) => Ok(()),
        Err(_refused) => Err(NoMemory),
    }
}

/// Takes the wall or screen at the place out.
fn take_out_at(active: &mut Vec<Blocker>, place: usize)
    requires within { place < length active.old.items }
    ensures taken { active.new.items ≡ remove active.old.items place }
{
    active.remove(place);
}

/// Takes the wall or screen of the number out, if it is there.
pub(crate) fn take_out(active: &mut Vec<Blocker>, number: u32)
    ensures taken { (scene : Scene) (p : Point) (kept : ℕ → Bool) (test : ℕ → order.Seen → Bool)
        → IsActive scene p kept test active.old.items
        → IsActive scene p kept (without number test) active.new.items }
{
    for place in 0..active.len() {
        if active[place].number == number {
            take_out_at(active, place);
            return;
        }
    }
}
