//! Bytes that wait for a sink, so that many short pieces go to it in few calls.
ghost use Rattle.std.specs.Prelude.{◌≡◌, ◌++◌, [], OnOk, OnErr};
ghost use Rattle.dm_io.specs.Streams.{WritesPrefix, Rose, appended_to};
ghost use Rattle.dm_io.specs.OutputBuffer.{WritesAndBuffers};

use crate::read_write_all::{PutFailed, put_all};
use crate::streams::Sink;
use arrayvec::ArrayVec;
use std::marker::Model;

/// Bytes that were added and not put yet, at most 64 KiB of them. Contracts see the list of these bytes.
#[derive(Drop)]
pub struct OutputBuffer {
    bytes: ArrayVec<u8, 65536>,
}

impl Model for OutputBuffer {
    ghost use Rattle.std.specs.Prelude.{List, ℕ};

    ghost Value = { List ℕ };

    ghost view = { λ a. a.bytes.items };
}

impl OutputBuffer {
    /// Nothing waits.
    pub fn new() -> OutputBuffer
        ensures { result ≡ [] }
    {
        OutputBuffer {
            bytes: ArrayVec::new(),
        }
    }

    /// Adds a piece behind the bytes that wait. Where there is no room for it they are put first; a piece that is
    /// longer than 64 KiB is put at once. After `PutFailed` a prefix of all that was to be put was written, and nothing
    /// waits.
    ///
    /// Cost: one copy of the piece, and a call of the sink for each 64 KiB.
    pub fn add<O: Sink>(&mut self, out: &mut O, piece: &[u8]) -> Result<(), PutFailed>
        ensures all { OnOk result (WritesAndBuffers (O.written out.old) (O.written out.new) (self.old ++ piece.now) self.new) }
        ensures faults_stay { OnOk result (O.faults out.new ≡ O.faults out.old) }
        ensures prefix { OnErr result (WritesPrefix (O.written out.old) (O.written out.new) (self.old ++ piece.now)) }
        ensures dropped { OnErr result (self.new ≡ []) }
        ensures only_on_fault { OnErr result (Rose (O.faults out.old) (O.faults out.new)) }
    {
        if piece.len() <= self.bytes.remaining_capacity() {
            self.bytes.try_extend_from_slice(piece).unwrap();
            return Ok(());
        }
        self.flush(out)?;
        if piece.len() <= self.bytes.remaining_capacity() {
            self.bytes.try_extend_from_slice(piece).unwrap();
            return Ok(());
        }
        put_all(out, piece)
    }

    /// Puts all that waits. After `PutFailed` a prefix of it was written. Nothing waits then.
    pub fn flush<O: Sink>(&mut self, out: &mut O) -> Result<(), PutFailed>
        ensures empty { self.new ≡ [] }
        ensures all { OnOk result (O.written out.new ≡ appended_to (O.written out.old) self.old) }
        ensures faults_stay { OnOk result (O.faults out.new ≡ O.faults out.old) }
        ensures prefix { OnErr result (WritesPrefix (O.written out.old) (O.written out.new) self.old) }
        ensures only_on_fault { OnErr result (Rose (O.faults out.old) (O.faults out.new)) }
    {
        let all = put_all(out, &self.bytes);
        self.bytes.clear();
        all
    }
}
