//! What is told notes.

use crate::note::Note;
use text_spec::NoMemory;

/// An object that is told notes and keeps the last of them, as many as it has room for, or all.
pub trait Watch: Drop {
    ghost use Rattle.std.specs.Prelude.{◌≡◌, ◌<◌, ◌∷◌, ◌+◌, ℕ, List, Option, OnOk, drop, length};
    ghost use Rattle.plan_watch.specs.declared.note.Note.{Note};
    ghost use Rattle.plan_watch.specs.Notes.{keep};

    /// How many notes it keeps, or none where it keeps all.
    ghost room: { Self → Option ℕ };

    /// The notes that it keeps, in the order in which they were told.
    ghost list: { Self → List Note };

    /// It can take one more note without memory.
    ghost is_set: { Self → Type 0 };

    /// Makes it ready for one more note, which may take memory.
    fn ready(&mut self) -> Result<(), NoMemory>
        ensures room { room self.new ≡ room self.old }
        ensures list { list self.new ≡ list self.old }
        ensures set { OnOk result (is_set self.new) };

    /// Tells it a note, which takes no memory.
    fn note(&mut self, note: &Note)
        requires { is_set self.old }
        ensures room { room self.new ≡ room self.old }
        ensures list { list self.new ≡ keep (room self.old) (list self.old) note.now };

    /// How many notes it keeps now.
    fn kept(&self) -> usize
        ensures { result ≡ length (list self.now) };

    /// The `k`-th of the notes that it keeps, counted from 0.
    fn at(&self, k: usize) -> Note
        requires { k < length (list self.now) }
        ensures { drop k (list self.now) ≡ result ∷ drop (k + 1) (list self.now) };
}
