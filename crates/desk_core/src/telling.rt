//! All watchers at once.

ghost use Rattle.std.specs.Prelude.{◌≡◌, OnOk, map};
ghost use Rattle.std.specs.List.{All};
ghost use Rattle.plan_watch.specs.Notes.{keep, keep_each};

use plan_watch::{Note, Watch};
use text_spec::NoMemory;

/// Makes one ready.
fn ready_one<W: Watch>(watcher: &mut W) -> Result<(), NoMemory>
    ensures room { W.room watcher.new ≡ W.room watcher.old }
    ensures list { W.list watcher.new ≡ W.list watcher.old }
    ensures set { OnOk result (W.is_set watcher.new) }
{
    watcher.ready()
}

/// Tells one.
fn note_one<W: Watch>(watcher: &mut W, note: &Note)
    requires { W.is_set watcher.old }
    ensures room { W.room watcher.new ≡ W.room watcher.old }
    ensures list { W.list watcher.new ≡ keep (W.room watcher.old) (W.list watcher.old) note.now }
{
    watcher.note(note)
}

/// Makes all watchers ready for one more note. What they keep stays, whatever the answer.
pub fn ready_all<W: Watch>(watchers: &mut Vec<W>) -> Result<(), NoMemory>
    ensures rooms { map W.room watchers.new.items ≡ map W.room watchers.old.items }
    ensures lists { map W.list watchers.new.items ≡ map W.list watchers.old.items }
    ensures set { OnOk result (All W.is_set watchers.new.items) }
{
    for k in 0..watchers.len() {
        ready_one(&mut watchers[k])?;
    }
    Ok(())
}

/// Tells all watchers, which are ready, a note. It takes no memory.
pub fn note_all<W: Watch>(watchers: &mut Vec<W>, note: &Note)
    requires { All W.is_set watchers.old.items }
    ensures rooms { map W.room watchers.new.items ≡ map W.room watchers.old.items }
    ensures lists { map W.list watchers.new.items ≡ keep_each (map W.room watchers.old.items) (map W.list watchers.old.items) note.now }
{
    for k in 0..watchers.len() {
        note_one(&mut watchers[k], note);
    }
}
