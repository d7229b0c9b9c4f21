//! A watcher that keeps the last few notes.

use crate::note::Note;
use crate::watch::Watch;
use circular_buffer::HeapCircularBuffer;
use std::alloc::Global;
use text_spec::NoMemory;

/// A watcher that keeps the last notes, at most as many as it has room for.
#[derive(Drop)]
pub struct Tail {
    notes: HeapCircularBuffer<Note>,
}

impl Tail {
    ghost use Rattle.std.specs.Prelude.{◌≡◌, ◌≤◌, [], IfOk, Some};

    /// A watcher without notes, and with room for so many. Being told a note takes no memory.
    pub fn new(alloc: Global, room: usize) -> Result<Tail, NoMemory>
        requires { 1 ≤ room }
        ensures room { IfOk result (λ tail. ⟦<Tail as Watch>⟧.room tail ≡ Some room) }
        ensures list { IfOk result (λ tail. ⟦<Tail as Watch>⟧.list tail ≡ []) }
    {
        let notes = HeapCircularBuffer::with_capacity(alloc, room)?;
        Ok(Tail { notes })
    }
}

impl Watch for Tail {
    ghost use Rattle.std.specs.Prelude.{◌≡◌, IsOk, Some, ⊤};

    ghost room = { λ tail. Some tail.notes.capacity };

    ghost list = { λ tail. tail.notes.items };

    ghost is_set = { λ _. ⊤ };

    fn ready(&mut self) -> Result<(), NoMemory>
        ensures always { IsOk result }
        ensures unchanged { self.new ≡ self.old }
    {
        Ok(())
    }

    fn note(&mut self, note: &Note) {
        self.notes.push_back(note.copy());
    }

    fn kept(&self) -> usize {
        self.notes.len()
    }

    fn at(&self, k: usize) -> Note {
        match self.notes.get(k) {
            Some(note) => note.copy(),
            None => unreachable!(),
        }
    }
}
