//! A watcher that keeps all notes.

use crate::note::Note;
use crate::watch::Watch;
use std::alloc::Global;
use text_spec::NoMemory;

/// A watcher that keeps every note.
#[derive(Drop)]
pub struct Journal {
    notes: Vec<Note>,
}

impl Journal {
    ghost use Rattle.std.specs.Prelude.{◌≡◌, [], None};

    /// A watcher without notes, which takes no memory.
    pub fn new(alloc: Global) -> Journal
        ensures room { ⟦<Journal as Watch>⟧.room result ≡ None }
        ensures list { ⟦<Journal as Watch>⟧.list result ≡ [] }
    {
        Journal {
            notes: Vec::new(alloc),
        }
    }
}

impl Watch for Journal {
    ghost use Rattle.std.specs.Prelude.{◌<◌, None};
    ghost use Rattle.std.specs.Vec.{vec_len, vec_capacity};

    ghost room = { λ _. None };

    ghost list = { λ journal. journal.notes.items };

    ghost is_set = { λ journal. vec_len journal.notes < vec_capacity journal.notes };

    fn ready(&mut self) -> Result<(), NoMemory> {
        self.notes.reserve(1)?;
        Ok(())
    }

    fn note(&mut self, note: &Note) {
        match self.notes.push(note.copy()) {
            Ok(()) => {}
            Err(_) => unreachable!(),
        }
    }

    fn kept(&self) -> usize {
        self.notes.len()
    }

    fn at(&self, k: usize) -> Note {
        self.notes[k].copy()
    }
}
