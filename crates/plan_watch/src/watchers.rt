//! All watchers at once, and edits that they are told.

ghost use Rattle.std.specs.Prelude.{◌≡◌, ◌<◌, ◌≤◌, ◌+◌, ◌++◌, IfErr, None, OnErr, OnOk, Some, drop, length, map, nat_lt, take};
ghost use Rattle.std.specs.List.{All};
ghost use Rattle.plan_spec.specs.Edits.{HasShift, plan_after_edit, why_not_edit};
ghost use Rattle.plan_check.specs.Faults.{IfRefused};
ghost use Rattle.plan_watch.specs.Notes.{keep, keep_each, note_of};

use crate::note::{Note, note_of};
use crate::watch::Watch;
use plan_back::Editor;
use plan_check::EditFault;
use plan_spec::Edit;
use std::alloc::Global;
use text_spec::NoMemory;

/// Makes one ready.
fn ready_one(watcher: &mut Box<dyn Watch>) -> Result<(), NoMemory>
    ensures room { room watcher.new ≡ room watcher.old }
    ensures list { list watcher.new ≡ list watcher.old }
    ensures set { OnOk result (is_set watcher.new) }
{
    watcher.ready()
}

/// Tells one.
fn note_one(watcher: &mut Box<dyn Watch>, note: &Note)
    requires { is_set watcher.old }
    ensures room { room watcher.new ≡ room watcher.old }
    ensures list { list watcher.new ≡ keep (room watcher.old) (list watcher.old) note.now }
{
    watcher.note(note)
}

/// Makes all watchers ready for one more note. What they keep stays, whatever the answer.
pub fn ready_all(watchers: &mut Vec<Box<dyn Watch>>) -> Result<(), NoMemory>
    ensures rooms { map room watchers.new.items ≡ map room watchers.old.items }
    ensures lists { map list watchers.new.items ≡ map list watchers.old.items }
    ensures set { OnOk result (All is_set watchers.new.items) }
{
    for k in 0..watchers.len() {
        ready_one(&mut watchers[k])?;
    }
    Ok(())
}

/// Tells all watchers, which are ready, a note. It takes no memory.
pub fn note_all(watchers: &mut Vec<Box<dyn Watch>>, note: &Note)
    requires { All is_set watchers.old.items }
    ensures rooms { map room watchers.new.items ≡ map room watchers.old.items }
    ensures lists { map list watchers.new.items ≡ keep_each (map room watchers.old.items) (map list watchers.old.items) note.now }
{
    for k in 0..watchers.len() {
        note_one(&mut watchers[k], note);
    }
}

/// Makes the edit and tells all watchers its note, with the number of the line that asks for it. What is refused or
/// finds no memory changes nothing, and nobody is told. The shift of a move is at most `MAX_SHIFT`.
pub fn watched_edit<E: Editor>(
    alloc: Global,
    editor: &mut E,
    watchers: &mut Vec<Box<dyn Watch>>,
    line: u64,
    edit: &Edit,
) -> Result<(), EditFault>
    requires shift { HasShift edit.now }
    ensures plan { OnOk result (E.plan editor.new ≡ plan_after_edit (E.plan editor.old) edit.now) }
    ensures state { OnOk result (E.state editor.new ≡ E.edited (E.state editor.old) edit.now) }
    ensures valid { OnOk result (why_not_edit (E.plan editor.old) edit.now ≡ None) }
    ensures told { OnOk result (map list watchers.new.items ≡ keep_each (map room watchers.old.items) (map list watchers.old.items) (note_of line edit.now)) }
    ensures refused { IfErr result (λ fault. IfRefused fault (λ why. why_not_edit (E.plan editor.old) edit.now ≡ Some why)) }
    ensures same_plan { OnErr result (E.plan editor.new ≡ E.plan editor.old) }
    ensures same_state { OnErr result (E.state editor.new ≡ E.state editor.old) }
    ensures untold { OnErr result (map list watchers.new.items ≡ map list watchers.old.items) }
    ensures rooms { map room watchers.new.items ≡ map room watchers.old.items }
{
    ready_all(watchers)?;
    editor.apply_edit(alloc, edit)?;
    note_all(watchers, &note_of(line, edit));
    Ok(())
}

/// Takes the `k`-th watcher out, counted from 0, and drops it; the later ones close up. `false` says that there is
/// none.
pub fn unwatch(watchers: &mut Vec<Box<dyn Watch>>, k: usize) -> bool
    ensures found { result ≡ nat_lt k (length watchers.old.items) }
    ensures closes_up { watchers.new.items ≡ take k watchers.old.items ++ drop (k + 1) watchers.old.items }
{
    if k >= watchers.len() {
        return false;
    }
    watchers.remove(k);
    true
}
