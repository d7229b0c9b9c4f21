//! Lines that wait for a sink.

ghost use Rattle.std.specs.Prelude.{◌≡◌, ◌+◌, ◌≤◌, ◌++◌, ◌∷◌, [], IfOk, OnErr, OnOk, length};
ghost use Rattle.dm_io.specs.Streams.{Rose, WritesPrefix, appended_to};
ghost use Rattle.dm_io.specs.OutputBuffer.{WritesAndBuffers};

use crate::digits::Digits;
use dm_io::{PutFailed, Sink, put_all};
use std::alloc::Global;
use std::marker::Model;
use text_spec::NoMemory;

/// How many bytes of lines wait at most.
const LINES_ROOM: usize = 65536;

/// The most that a line of two numbers takes while it is put, with what is copied beside its digits.
const LINE_ROOM: usize = 32;

/// Lines that wait for a sink. Contracts see their bytes.
#[derive(Drop)]
pub struct Lines {
    bytes: Vec<u8>,
    count: usize,
}

impl Model for Lines {
    ghost use Rattle.std.specs.Prelude.{◌≡◌, ◌≤◌, ℕ, List, length, take};

    ghost Value = { List ℕ };

    ghost view = { λ a. take a.count a.bytes.items };

    ghost invariant = { λ a. (a.count ≤ 65536) × (length a.bytes.items ≡ 65536) };
}

impl Lines {
    /// Nothing waits.
    pub fn new(alloc: Global) -> Result<Lines, NoMemory>
        ensures { IfOk result (λ lines. lines ≡ []) }
    {
        let bytes = vec![in alloc; 0u8; LINES_ROOM]?;
        Ok(Lines { bytes, count: 0 })
    }

    /// Adds a number and the byte that ends it.
    pub fn add(&mut self, number: &Digits, end: u8)
        requires room { length self.old + 16 ≤ 65536 }
        ensures { self.new ≡ self.old ++ (number.now ++ end ∷ []) }
    {
        self.count = number.put(&mut self.bytes, self.count, end);
    }

    /// Puts the lines that wait, where there is no room for one more.
    pub fn make_room<O: Sink>(&mut self, out: &mut O) -> Result<(), PutFailed>
        ensures room { OnOk result (length self.new + 32 ≤ 65536) }
        ensures all { OnOk result (WritesAndBuffers (O.written out.old) (O.written out.new) self.old self.new) }
        ensures faults_stay { OnOk result (O.faults out.new ≡ O.faults out.old) }
        ensures prefix { OnErr result (WritesPrefix (O.written out.old) (O.written out.new) self.old) }
        ensures dropped { OnErr result (self.new ≡ []) }
        ensures only_on_fault { OnErr result (Rose (O.faults out.old) (O.faults out.new)) }
    {
        if self.count <= LINES_ROOM - LINE_ROOM {
            return Ok(());
        }
        self.flush(out)
    }

    /// Puts the lines that wait. Nothing waits then.
    pub fn flush<O: Sink>(&mut self, out: &mut O) -> Result<(), PutFailed>
        ensures empty { self.new ≡ [] }
        ensures all { OnOk result (O.written out.new ≡ appended_to (O.written out.old) self.old) }
        ensures faults_stay { OnOk result (O.faults out.new ≡ O.faults out.old) }
        ensures prefix { OnErr result (WritesPrefix (O.written out.old) (O.written out.new) self.old) }
        ensures only_on_fault { OnErr result (Rose (O.faults out.old) (O.faults out.new)) }
    {
        let all = put_all(out, &self.bytes[..self.count]);
        self.count = 0;
        all
    }
}
