//! Lines that name a watcher.

ghost use Rattle.std.specs.Prelude.{◌≡◌, ◌<◌, ◌+◌, ◌++◌, ℕ, IfSome, drop, length, map, take};
ghost use Rattle.desk_spec.specs.Desks.{desk, shown_watch, watcher_at, without_watcher};
ghost use Rattle.plan_undo.specs.History.{History};
ghost use Rattle.desk_core.specs.Outcomes.{HasWatcher, step_to};

use crate::outcome::Outcome;
use desk_spec::DeskReason;
use plan_watch::Watch;

/// The place of the watcher of a number among so many.
fn watcher_at(count: usize, k: i64) -> Option<usize>
    ensures place { result ≡ watcher_at count k }
    ensures within { IfSome result (λ place. place < count) }
{
    let Ok(place) = usize::try_from(k) else {
        return None;
    };
    if place < count { Some(place) } else { None }
}

/// The place of the watcher of a number.
fn place_of<W: Watch>(watchers: &Vec<W>, k: i64) -> Option<usize>
    ensures place { result ≡ watcher_at (length (map W.list watchers.now.items)) k }
    ensures within { IfSome result (λ place. place < length (map W.list watchers.now.items)) }
    ensures there { IfSome result (λ place. place < length watchers.now.items) }
{
    watcher_at(watchers.len(), k)
}

/// The notes of the watcher of a number are to be shown.
pub fn show_watch<W: Watch>(watchers: &Vec<W>, k: i64) -> Outcome
    ensures shows { (history : History) (number : ℕ) →
        shown_watch (desk history (map W.room watchers.now.items) (map W.list watchers.now.items)) number (watcher_at (length (map W.list watchers.now.items)) k)
        ≡ step_to (desk history (map W.room watchers.now.items) (map W.list watchers.now.items)) number result }
    ensures there { (history : History) → HasWatcher (desk history (map W.room watchers.now.items) (map W.list watchers.now.items)) result }
{
    match place_of(watchers, k) {
        Some(place) => Outcome::Watch(place),
        None => Outcome::Refused(DeskReason::NoWatch),
    }
}

/// Takes the watcher at a place out and drops it; the later ones close up.
fn take_out<W: Watch>(watchers: &mut Vec<W>, place: usize)
    requires { place < length watchers.old.items }
    ensures { watchers.new.items ≡ take place watchers.old.items ++ drop (place + 1) watchers.old.items }
{
    watchers.remove(place);
}

/// The watcher of a number goes.
pub fn let_go<W: Watch>(watchers: &mut Vec<W>, k: i64) -> Outcome
    ensures does { (history : History) (number : ℕ) →
        without_watcher (desk history (map W.room watchers.old.items) (map W.list watchers.old.items)) number (watcher_at (length (map W.list watchers.old.items)) k)
        ≡ step_to (desk history (map W.room watchers.new.items) (map W.list watchers.new.items)) number result }
    ensures there { (history : History) → HasWatcher (desk history (map W.room watchers.new.items) (map W.list watchers.new.items)) result }
{
    match place_of(watchers, k) {
        Some(place) => {
            take_out(watchers, place);
            Outcome::Done
        }
        None => Outcome::Refused(DeskReason::NoWatch),
    }
}
