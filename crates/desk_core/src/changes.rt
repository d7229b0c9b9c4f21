//! Lines that change the plan.

ghost use Rattle.std.specs.Prelude.{◌≡◌, IfOk, OnErr, map};
ghost use Rattle.plan_spec.specs.Edits.{HasShift, why_not_edit};
ghost use Rattle.plan_undo.specs.History.{redone, undone};
ghost use Rattle.desk_spec.specs.Desks.{desk, edit_line, history_line};
ghost use Rattle.desk_core.specs.Outcomes.{HasWatcher, step_to};

use crate::outcome::Outcome;
use crate::telling::{note_all, ready_all};
use desk_spec::DeskReason;
use plan_back::{Desk, Editor};
use plan_check::EditFault;
use plan_spec::Edit;
use plan_undo::{Undo, UndoFault};
use plan_watch::{Note, NoteKind, Watch, note_of};
use std::alloc::Global;
use text_spec::NoMemory;

/// Makes the edit, and tells the watchers.
pub fn make_edit<W: Watch>(
    alloc: Global,
    undo: &mut Undo<Desk>,
    watchers: &mut Vec<W>,
    number: u64,
    edit: &Edit,
) -> Result<Outcome, NoMemory>
    requires shift { HasShift edit.now }
    ensures does { IfOk result (λ outcome.
        edit_line (desk undo.old (map W.room watchers.old.items) (map W.list watchers.old.items)) number edit.now (why_not_edit undo.old.now edit.now)
        ≡ step_to (desk undo.new (map W.room watchers.new.items) (map W.list watchers.new.items)) number outcome) }
    ensures there { IfOk result (HasWatcher (desk undo.new (map W.room watchers.new.items) (map W.list watchers.new.items))) }
    ensures same_history { OnErr result (undo.new ≡ undo.old) }
    ensures same_rooms { OnErr result (map W.room watchers.new.items ≡ map W.room watchers.old.items) }
    ensures same_lists { OnErr result (map W.list watchers.new.items ≡ map W.list watchers.old.items) }
{
    ready_all(watchers)?;
    match undo.apply_edit(alloc, edit) {
        Ok(()) => {
            note_all(watchers, &note_of(number, edit));
            Ok(Outcome::Done)
        }
        Err(EditFault::Refused(why)) => Ok(Outcome::Refused(DeskReason::Edit(why))),
        Err(EditFault::NoMemory) => Err(NoMemory),
    }
}

/// Takes the last change back, and tells the watchers.
pub fn step_back<W: Watch>(
    alloc: Global,
    undo: &mut Undo<Desk>,
    watchers: &mut Vec<W>,
    number: u64,
) -> Result<Outcome, NoMemory>
    ensures does { IfOk result (λ outcome.
        history_line (desk undo.old (map W.room watchers.old.items) (map W.list watchers.old.items)) number NoteKind.Undo (undone undo.old)
        ≡ step_to (desk undo.new (map W.room watchers.new.items) (map W.list watchers.new.items)) number outcome) }
    ensures there { IfOk result (HasWatcher (desk undo.new (map W.room watchers.new.items) (map W.list watchers.new.items))) }
    ensures same_history { OnErr result (undo.new ≡ undo.old) }
    ensures same_rooms { OnErr result (map W.room watchers.new.items ≡ map W.room watchers.old.items) }
    ensures same_lists { OnErr result (map W.list watchers.new.items ≡ map W.list watchers.old.items) }
{
    ready_all(watchers)?;
    match undo.undo(alloc) {
        Ok(name) => {
            note_all(
                watchers,
                &Note {
                    line: number,
                    kind: NoteKind::Undo,
                    name,
                },
            );
            Ok(Outcome::Done)
        }
        Err(UndoFault::Nothing) => Ok(Outcome::Refused(DeskReason::Nothing)),
        Err(UndoFault::NoMemory) => Err(NoMemory),
    }
}

/// Makes the last change again that was taken back, and tells the watchers.
pub fn step_on<W: Watch>(
    alloc: Global,
    undo: &mut Undo<Desk>,
    watchers: &mut Vec<W>,
    number: u64,
) -> Result<Outcome, NoMemory>
    ensures does { IfOk result (λ outcome.
        history_line (desk undo.old (map W.room watchers.old.items) (map W.list watchers.old.items)) number NoteKind.Redo (redone undo.old)
        ≡ step_to (desk undo.new (map W.room watchers.new.items) (map W.list watchers.new.items)) number outcome) }
    ensures there { IfOk result (HasWatcher (desk undo.new (map W.room watchers.new.items) (map W.list watchers.new.items))) }
    ensures same_history { OnErr result (undo.new ≡ undo.old) }
    ensures same_rooms { OnErr result (map W.room watchers.new.items ≡ map W.room watchers.old.items) }
    ensures same_lists { OnErr result (map W.list watchers.new.items ≡ map W.list watchers.old.items) }
{
    ready_all(watchers)?;
    match undo.redo(alloc) {
        Ok(name) => {
            note_all(
                watchers,
                &Note {
                    line: number,
                    kind: NoteKind::Redo,
                    name,
                },
            );
            Ok(Outcome::Done)
        }
        Err(UndoFault::Nothing) => Ok(Outcome::Refused(DeskReason::Nothing)),
        Err(UndoFault::NoMemory) => Err(NoMemory),
    }
}
