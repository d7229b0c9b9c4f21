//! A sink in memory.
ghost use Rattle.std.specs.Prelude.{◌≡◌, ◌<◌, ◌≤◌, [], IfOk, Some, length, vec_capacity, vec_len};

use crate::calls::Calls;
use crate::streams::{Put, Sink};
use std::alloc::Global;
use text_spec::NoMemory;

/// Holds what is put, up to its room. The calls whose numbers are listed, counted from 0, fail, and so do those that
/// find no room; no others do. So the count of faults never rises where none is listed and there is room for all that
/// is put.
#[derive(Drop)]
pub struct MemSink {
    held: Vec<u8>,
    room: usize,
    most: usize,
    calls: Calls,
    ghost kept: { vec_len held ≤ room },
    ghost reserved: { room ≤ vec_capacity held },
    ghost some: { 1 ≤ most },
}

impl MemSink {
    ghost use Rattle.dm_io.specs.Calls.{IsFresh};
    ghost use Rattle.dm_io.specs.Memory.{bytes_held, sink_calls, sink_most, sink_room};

    /// A sink with room for `room` bytes, which takes at most `most` of them a call. The calls numbered in `fails`
    /// fail. The memory for all its room is taken here.
    pub fn new(
        alloc: Global,
        room: usize,
        most: usize,
        fails: Vec<u64>,
    ) -> Result<MemSink, NoMemory>
        requires { 1 ≤ most }
        ensures held { IfOk result (λ sink. bytes_held sink ≡ []) }
        ensures room { IfOk result (λ sink. sink_room sink ≡ room) }
        ensures most { IfOk result (λ sink. sink_most sink ≡ most) }
        ensures calls { IfOk result (λ sink. IsFresh (sink_calls sink) fails.items) }
    {
        let Ok(held) = Vec::with_capacity(alloc, room) else {
            return Err(NoMemory);
        };
        Ok(MemSink {
            held,
            room,
            most,
            calls: Calls::new(fails),
        })
    }

    /// The bytes that it holds.
    pub fn bytes(&self) -> &[u8]
        ensures { result.now ≡ bytes_held self.now }
    {
        &self.held
    }
}

impl Sink for MemSink {
    ghost use Rattle.dm_io.specs.Calls.{fault_count, GoesOn};
    ghost use Rattle.dm_io.specs.Memory.{bytes_held, sink_answer, sink_calls, sink_most, sink_room};
    ghost use Rattle.dm_io.specs.Streams.{Puts, PutCounts};

    ghost written = { λ s. Some (bytes_held s) };

    ghost faults = { λ s. fault_count (sink_calls s) };

    fn put(&mut self, piece: &[u8]) -> Put
        requires { 0 < length piece.now }
        ensures answer { result ≡ sink_answer self.old (length piece.now) }
        ensures bytes { Puts (Some (bytes_held self.old)) (Some (bytes_held self.new)) piece.now result }
        ensures count { PutCounts (fault_count (sink_calls self.old)) (fault_count (sink_calls self.new)) result }
        ensures room { sink_room self.new ≡ sink_room self.old }
        ensures most { sink_most self.new ≡ sink_most self.old }
        ensures calls { GoesOn (sink_calls self.old) (sink_calls self.new) }
    {
        let fails = self.calls.count();
        let rest = self.room - self.held.len();
        if fails || rest == 0 {
            self.calls.fail();
            return Put::Failed;
        }
        let count = rest.min(self.most).min(piece.len());
        self.held.extend_from_slice(&piece[..count]).unwrap();
        Put::Took(count)
    }

    ghost fits = { λ s. s.calls.faults_fit };
}
