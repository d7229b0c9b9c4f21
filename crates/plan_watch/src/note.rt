//! What is told of an edit.

ghost use Rattle.std.specs.Prelude.{◌≡◌};
ghost use Rattle.plan_watch.specs.Notes.{kind_of, note_of};

use plan_back::edit_name;
use plan_spec::Edit;
use text_spec::Name;

/// What kind of change it was.
#[derive(Clone, Copy, Debug, PartialEq, Eq)]
pub enum NoteKind {
    /// An obstacle came.
    Add,
    /// An obstacle went.
    Remove,
    /// An obstacle was moved.
    Move,
    /// A screen came.
    AddScreen,
    /// A screen went.
    RemoveScreen,
    /// A route came.
    AddRoute,
    /// A route went.
    RemoveRoute,
    /// The last change was taken back.
    Undo,
    /// The last change that was taken back was made again.
    Redo,
}

/// That a line of a script changed the plan: the line's number, the kind of the change, and the name of what changed.
#[derive(Drop)]
pub struct Note {
    /// The number of the line, counted from 1.
    pub line: u64,
    /// What kind of change it was.
    pub kind: NoteKind,
    /// The name of what changed.
    pub name: Name,
}

impl Note {
    /// The same note again.
    pub fn copy(&self) -> Note
        ensures { result ≡ self.now }
    {
        Note {
            line: self.line,
            kind: self.kind,
            name: self.name.copy(),
        }
    }
}

/// The kind of an edit.
fn kind_of(edit: &Edit) -> NoteKind
    ensures { result ≡ kind_of edit.now }
{
    match edit {
        Edit::Add(_name, _points) => NoteKind::Add,
        Edit::Remove(_name) => NoteKind::Remove,
        Edit::Move(_name, _dx, _dy) => NoteKind::Move,
        Edit::AddScreen(_name, _from, _to) => NoteKind::AddScreen,
        Edit::RemoveScreen(_name) => NoteKind::RemoveScreen,
        Edit::AddRoute(_name, _from, _to) => NoteKind::AddRoute,
        Edit::RemoveRoute(_name) => NoteKind::RemoveRoute,
    }
}

/// The note of an edit in the line of this number.
pub fn note_of(line: u64, edit: &Edit) -> Note
    ensures { result ≡ note_of line edit.now }
{
    Note {
        line,
        kind: kind_of(edit),
        name: edit_name(edit),
    }
}
