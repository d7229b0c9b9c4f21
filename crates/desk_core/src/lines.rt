//! What a line asks for, done.

ghost use Rattle.std.specs.Prelude.{◌≡◌, IfOk, Ok, OnErr, map};
ghost use Rattle.desk_text.specs.DeskReadings.{HasShiftInDeskLine};
ghost use Rattle.desk_spec.specs.Desks.{desk, desk_step};
ghost use Rattle.desk_core.specs.Outcomes.{HasWatcher, step_to};

use crate::changes::{make_edit, step_back, step_on};
use crate::outcome::Outcome;
use crate::watchers::{let_go, show_watch};
use desk_spec::DeskLine;
use plan_back::Desk;
use plan_undo::Undo;
use plan_watch::Watch;
use std::alloc::Global;
use text_spec::NoMemory;

/// Does what the line of this number asks for, and answers what came of it: with the reply that is made of that, it is
/// what the definition says of the line. What is refused or finds no memory changes nothing, and no watcher is told.
///
/// Cost: of an edit or a step through the history what its change costs, and one note for each watcher.
#[tactic(auto, unfolding(desk_spec::specs::Desks::desk_step))]
pub fn follow<W: Watch>(
    alloc: Global,
    editor: &mut Undo<Desk>,
    watchers: &mut Vec<W>,
    number: u64,
    line: &DeskLine,
) -> Result<Outcome, NoMemory>
    requires shift { HasShiftInDeskLine line.now }
    ensures does { IfOk result (λ outcome.
        desk_step (desk editor.old (map W.room watchers.old.items) (map W.list watchers.old.items)) number (Ok line.now)
        ≡ step_to (desk editor.new (map W.room watchers.new.items) (map W.list watchers.new.items)) number outcome) }
    ensures there { IfOk result (HasWatcher (desk editor.new (map W.room watchers.new.items) (map W.list watchers.new.items))) }
    ensures same_history { OnErr result (editor.new ≡ editor.old) }
    ensures same_rooms { OnErr result (map W.room watchers.new.items ≡ map W.room watchers.old.items) }
    ensures same_lists { OnErr result (map W.list watchers.new.items ≡ map W.list watchers.old.items) }
{
    match line {
        DeskLine::Blank => Ok(Outcome::Nothing),
        DeskLine::Edit(change) => make_edit(alloc, editor, watchers, number, change),
        DeskLine::Undo => step_back(alloc, editor, watchers, number),
        DeskLine::Redo => step_on(alloc, editor, watchers, number),
        DeskLine::ShowPlan => Ok(Outcome::Plan),
        DeskLine::ShowWatch(k) => Ok(show_watch(watchers, *k)),
        DeskLine::Unwatch(k) => Ok(let_go(watchers, *k)),
    }
}
