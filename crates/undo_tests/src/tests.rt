//! Scripts of edits, undo and redo, by the plan that they leave and the notes that watchers keep of them.

use plan_back::{Desk, Editor};
use plan_check::{EditFault, Plan, check};
use plan_text::{Line, print_plan, read_line, read_plan};
use plan_undo::{Undo, UndoFault};
use plan_watch::{
    Journal, Note, NoteKind, Tail, Watch, note_all, ready_all, unwatch, watched_edit,
};
use std::alloc::Global;
use std::sync::Arc;
use std::sync::atomic::{AtomicU64, Ordering};
use std::test::Fail;
use text_spec::{Name, NoMemory};

/// The plan of a box alone.
fn room(alloc: Global) -> Result<Plan, Fail> {
    let Ok(text) = read_plan(alloc, b"plan 1\nouterbox 0 0 10 10\n") else {
        return Err("the text holds no plan")?;
    };
    match check(alloc, &text.plan) {
        Ok(plan) => Ok(plan),
        Err(_fault) => Err("the plan is refused")?,
    }
}

/// The edit of a line, and that watchers are told of it: whether it is refused.
fn edited(
    alloc: Global,
    editor: &mut Undo<Desk>,
    watchers: &mut Vec<Box<dyn Watch>>,
    number: u64,
    line: &[u8],
) -> Result<u8, Fail> {
    let Ok(Line::Edit(edit)) = read_line(alloc, line) else {
        return Err("the line has no edit")?;
    };
    match watched_edit(alloc, editor, watchers, number, &edit) {
        Ok(()) => Ok(b'.'),
        Err(EditFault::Refused(_why)) => Ok(b'!'),
        Err(EditFault::NoMemory) => Err("an edit has no memory")?,
    }
}

/// What a step through the history answers: whether there is nothing to take.
fn told(
    watchers: &mut Vec<Box<dyn Watch>>,
    line: u64,
    kind: NoteKind,
    step: Result<Name, UndoFault>,
) -> Result<u8, Fail> {
    match step {
        Ok(name) => {
            match ready_all(watchers) {
                Ok(()) => {}
                Err(_fault) => return Err("a watcher has no memory")?,
            }
            note_all(watchers, &Note { line, kind, name });
            Ok(b'.')
        }
        Err(UndoFault::Nothing) => Ok(b'0'),
        Err(UndoFault::NoMemory) => Err("a step has no memory")?,
    }
}

/// Does what a line says: `.` where it is done, `!` where it is refused, `0` where there is nothing to take.
fn answered(
    alloc: Global,
    editor: &mut Undo<Desk>,
    watchers: &mut Vec<Box<dyn Watch>>,
    number: u64,
    line: &[u8],
) -> Result<u8, Fail> {
    if line == b"undo".as_slice() {
        let step = editor.undo(alloc);
        return told(watchers, number, NoteKind::Undo, step);
    }
    if line == b"redo".as_slice() {
        let step = editor.redo(alloc);
        return told(watchers, number, NoteKind::Redo, step);
    }
    edited(alloc, editor, watchers, number, line)
}

/// Whether the lines, numbered from 1, have these answers.
fn are_answered(
    alloc: Global,
    editor: &mut Undo<Desk>,
    watchers: &mut Vec<Box<dyn Watch>>,
    lines: &[&str],
    wanted: &[u8],
) -> Result<bool, Fail> {
    for k in 0..lines.len() {
        let number = (k as u64).wrapping_add(1);
        let given = answered(alloc, editor, watchers, number, lines[k].as_bytes())?;
        if k >= wanted.len() || wanted[k] != given {
            return Ok(false);
        }
    }
    Ok(lines.len() == wanted.len())
}

/// The text of a plan.
fn text_of(alloc: Global, plan: &Plan) -> Result<Vec<u8>, Fail> {
    let items = plan.items(alloc)?;
    Ok(print_plan(alloc, &items)?)
}

/// Whether the plan has this text.
fn has_text(alloc: Global, plan: &Plan, wanted: &str) -> Result<bool, Fail> {
    let text = text_of(alloc, plan)?;
    Ok(text.as_slice() == wanted.as_bytes())
}

/// What stands in a note between its line and its name.
fn word(kind: NoteKind) -> &'static str {
    match kind {
        NoteKind::Add => " add ",
        NoteKind::Remove => " remove ",
        NoteKind::Move => " move ",
        NoteKind::AddScreen => " addscreen ",
        NoteKind::RemoveScreen => " removescreen ",
        NoteKind::AddRoute => " addroute ",
        NoteKind::RemoveRoute => " removeroute ",
        NoteKind::Undo => " undo ",
        NoteKind::Redo => " redo ",
    }
}

/// The note at a place, if there is one.
fn note_at(watcher: &Box<dyn Watch>, k: usize) -> Option<Note> {
    if k < watcher.kept() {
        Some(watcher.at(k))
    } else {
        None
    }
}

/// Adds a note: the last digit of its line, its kind, its name, and a comma.
fn add_note(text: &mut Vec<u8>, note: &Note) -> Result<(), Fail> {
    text.push(b'0' + (note.line % 10) as u8)?;
    text.extend_from_slice(word(note.kind).as_bytes())?;
    text.extend_from_slice(note.name.bytes())?;
    text.push(b',')?;
    Ok(())
}

/// The notes of a watcher.
fn notes_of(alloc: Global, watcher: &Box<dyn Watch>) -> Result<Vec<u8>, Fail> {
    let mut text = Vec::new(alloc);
    for k in 0..watcher.kept() {
        if let Some(note) = note_at(watcher, k) {
            add_note(&mut text, &note)?;
        }
    }
    Ok(text)
}

/// Whether the watcher at a place keeps these notes.
fn has_notes(
    alloc: Global,
    watchers: &[Box<dyn Watch>],
    place: usize,
    wanted: &str,
) -> Result<bool, Fail> {
    let watcher = watchers.get(place).ok_or("there is no such watcher")?;
    let text = notes_of(alloc, watcher)?;
    Ok(text.as_slice() == wanted.as_bytes())
}

/// A script, and what comes of it.
struct Row {
    /// How many changes are kept.
    depth: usize,
    /// The lines.
    lines: &'static [&'static str],
    /// Their answers.
    answers: &'static str,
    /// The text of the plan that they leave.
    plan: &'static str,
    /// The notes in a journal.
    journal: &'static str,
    /// The notes in a tail of 1.
    tail: &'static str,
}

const ROWS: &[Row] = &[
    Row {
        depth: 64,
        lines: &[],
        answers: "",
        plan: "plan 1\nouter 0 0 10 0 10 10 0 10\n",
        journal: "",
        tail: "",
    },
    // A refused edit isn't told.
    Row {
        depth: 64,
        lines: &["addbox A 1 1 2 2", "addbox A 3 3 4 4", "move A 1 0"],
        answers: ".!.",
        plan: "plan 1\nouter 0 0 10 0 10 10 0 10\nobstacle A 2 1 3 1 3 2 2 2\n",
        journal: "1 add A,3 move A,",
        tail: "3 move A,",
    },
    // What is removed comes back in its place.
    Row {
        depth: 64,
        lines: &["addbox A 1 1 2 2", "addbox B 3 3 4 4", "remove A", "undo"],
        answers: "....",
        plan: "plan 1\nouter 0 0 10 0 10 10 0 10\nobstacle A 1 1 2 1 2 2 1 2\nobstacle B 3 3 4 3 4 4 3 4\n",
        journal: "1 add A,2 add B,3 remove A,4 undo A,",
        tail: "4 undo A,",
    },
    // All is undone, and then one change made again.
    Row {
        depth: 64,
        lines: &[
            "addbox A 1 1 2 2",
            "addbox B 3 3 4 4",
            "remove A",
            "undo",
            "undo",
            "undo",
            "undo",
            "redo",
        ],
        answers: "......0.",
        plan: "plan 1\nouter 0 0 10 0 10 10 0 10\nobstacle A 1 1 2 1 2 2 1 2\n",
        journal: "1 add A,2 add B,3 remove A,4 undo A,5 undo B,6 undo A,8 redo A,",
        tail: "8 redo A,",
    },
    // A new change leaves nothing to redo.
    Row {
        depth: 64,
        lines: &["addbox A 1 1 2 2", "undo", "addbox B 3 3 4 4", "redo"],
        answers: "...0",
        plan: "plan 1\nouter 0 0 10 0 10 10 0 10\nobstacle B 3 3 4 3 4 4 3 4\n",
        journal: "1 add A,2 undo A,3 add B,",
        tail: "3 add B,",
    },
    // A refused one leaves all of it.
    Row {
        depth: 64,
        lines: &["addbox A 1 1 2 2", "undo", "remove A", "redo"],
        answers: "..!.",
        plan: "plan 1\nouter 0 0 10 0 10 10 0 10\nobstacle A 1 1 2 1 2 2 1 2\n",
        journal: "1 add A,2 undo A,4 redo A,",
        tail: "4 redo A,",
    },
    // Two changes are kept: the first of three stays.
    Row {
        depth: 2,
        lines: &[
            "addbox A 1 1 2 2",
            "move A 1 0",
            "move A 0 1",
            "undo",
            "undo",
            "undo",
        ],
        answers: ".....0",
        plan: "plan 1\nouter 0 0 10 0 10 10 0 10\nobstacle A 1 1 2 1 2 2 1 2\n",
        journal: "1 add A,2 move A,3 move A,4 undo A,5 undo A,",
        tail: "5 undo A,",
    },
    // Screens come back in their places too.
    Row {
        depth: 64,
        lines: &[
            "addscreen S 1 1 1 9",
            "addscreen T 2 1 2 9",
            "removescreen S",
            "undo",
        ],
        answers: "....",
        plan: "plan 2\nouter 0 0 10 0 10 10 0 10\nscreen S 1 1 1 9\nscreen T 2 1 2 9\n",
        journal: "1 addscreen S,2 addscreen T,3 removescreen S,4 undo S,",
        tail: "4 undo S,",
    },
    // And so do routes.
    Row {
        depth: 64,
        lines: &[
            "addroute R 0 0 9 0",
            "addroute Q 0 1 9 1",
            "removeroute R",
            "undo",
        ],
        answers: "....",
        plan: "plan 1\nouter 0 0 10 0 10 10 0 10\nroute R 0 0 9 0\nroute Q 0 1 9 1\n",
        journal: "1 addroute R,2 addroute Q,3 removeroute R,4 undo R,",
        tail: "4 undo R,",
    },
];

/// An editor of the empty room that keeps so many changes.
fn begun(alloc: Global, depth: usize) -> Result<Undo<Desk>, Fail> {
    if depth == 0 {
        return Err("no change is kept")?;
    }
    Ok(Undo::new(alloc, Desk::new(room(alloc)?), depth)?)
}

/// Whether the lines of a row are answered so, and leave its plan.
fn is_answered(
    alloc: Global,
    editor: &mut Undo<Desk>,
    watchers: &mut Vec<Box<dyn Watch>>,
    row: &Row,
) -> Result<bool, Fail> {
    if !are_answered(alloc, editor, watchers, row.lines, row.answers.as_bytes())? {
        return Ok(false);
    }
    has_text(alloc, editor.plan_now(), row.plan)
}

/// The same over an editor that is begun for it.
fn is_answered_afresh(
    alloc: Global,
    watchers: &mut Vec<Box<dyn Watch>>,
    row: &Row,
) -> Result<bool, Fail> {
    let mut editor = begun(alloc, row.depth)?;
    is_answered(alloc, &mut editor, watchers, row)
}

/// Whether the lines of a row come to what it says, and leave its notes.
fn comes_true(alloc: Global, watchers: &mut Vec<Box<dyn Watch>>, row: &Row) -> Result<bool, Fail> {
    if !is_answered_afresh(alloc, watchers, row)? {
        return Ok(false);
    }
    if !has_notes(alloc, watchers, 0, row.journal)? {
        return Ok(false);
    }
    has_notes(alloc, watchers, 1, row.tail)
}

/// The same with a journal and a tail of 1 of its own.
fn holds(alloc: Global, row: &Row) -> Result<bool, Fail> {
    let mut watchers: Vec<Box<dyn Watch>> = Vec::new(alloc);
    watchers.push(Box::new(alloc, Journal::new(alloc))?)?;
    watchers.push(Box::new(alloc, Tail::new(alloc, 1)?)?)?;
    comes_true(alloc, &mut watchers, row)
}

#[test]
fn scripts_leave_plans_and_notes(rt: HostRuntime) -> Result<(), Fail> {
    for row in ROWS {
        assert!(rt; holds(rt.alloc(), row)?);
    }
    Ok(())
}

/// A watcher that keeps no note, and counts that it goes.
struct Going {
    gone: Arc<AtomicU64>,
    tail: Tail,
}

impl Drop for Going {
    fn drop(self) {
        let Self { gone, tail: _tail } = self;
        gone.fetch_add(1, Ordering::SeqCst);
    }
}

impl Watch for Going {
    ghost room = { λ going. ⟦<Tail as Watch>⟧.room going.tail };

    ghost list = { λ going. ⟦<Tail as Watch>⟧.list going.tail };

    ghost is_set = { λ going. ⟦<Tail as Watch>⟧.is_set going.tail };

    fn ready(&mut self) -> Result<(), NoMemory> {
        self.tail.ready()
    }

    fn note(&mut self, note: &Note) {
        self.tail.note(note);
    }

    fn kept(&self) -> usize {
        self.tail.kept()
    }

    fn at(&self, k: usize) -> Note {
        self.tail.at(k)
    }
}

/// Tells watchers of a change and of its undoing. Whether both are done.
fn tell(alloc: Global, watchers: &mut Vec<Box<dyn Watch>>) -> Result<bool, Fail> {
    let mut editor = begun(alloc, 64)?;
    are_answered(
        alloc,
        &mut editor,
        watchers,
        &["addbox A 1 1 2 2", "undo"],
        b"..",
    )
}

/// A watcher that is counted here.
fn counted(alloc: Global, gone: &Arc<AtomicU64>) -> Result<Going, Fail> {
    let gone = Arc::try_clone(gone)?;
    let tail = Tail::new(alloc, 1)?;
    Ok(Going { gone, tail })
}

/// Whether a watcher that was told of changes goes once, when it is taken out.
fn goes_once(alloc: Global) -> Result<bool, Fail> {
    let gone = Arc::new(alloc, AtomicU64::new(0))?;
    let mut watchers: Vec<Box<dyn Watch>> = Vec::new(alloc);
    watchers.push(Box::new(alloc, counted(alloc, &gone)?)?)?;
    let done = tell(alloc, &mut watchers)?;
    let before = gone.load(Ordering::SeqCst);
    let found = unwatch(&mut watchers, 0);
    let again = unwatch(&mut watchers, 0);
    Ok(done && before == 0 && found && !again && gone.load(Ordering::SeqCst) == 1)
}

#[test]
fn a_watcher_that_is_taken_out_goes_once(rt: HostRuntime) -> Result<(), Fail> {
    assert!(rt; goes_once(rt.alloc())?);
    Ok(())
}
