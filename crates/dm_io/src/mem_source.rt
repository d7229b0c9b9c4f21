//! A source in memory.
ghost use Rattle.std.specs.Prelude.{◌≡◌, ◌<◌, ◌≤◌, Some, length, vec_len};

use crate::calls::{Calls, copy_prefix};
use crate::streams::{Source, Take};

/// Gives bytes from memory. The calls whose numbers are listed, counted from 0, fail, and no others: with none listed
/// the count of faults never rises.
#[derive(Drop)]
pub struct MemSource {
    bytes: Vec<u8>,
    at: usize,
    most: usize,
    calls: Calls,
    ghost inside: { at ≤ vec_len bytes },
    ghost some: { 1 ≤ most },
}

impl MemSource {
    ghost use Rattle.dm_io.specs.Calls.{IsFresh};
    ghost use Rattle.dm_io.specs.Memory.{bytes_left, source_calls, source_most};

    /// A source of these bytes, which gives at most `most` of them a call. The calls numbered in `fails` fail.
    pub fn new(bytes: Vec<u8>, most: usize, fails: Vec<u64>) -> MemSource
        requires { 1 ≤ most }
        ensures left { bytes_left result ≡ bytes.items }
        ensures most { source_most result ≡ most }
        ensures calls { IsFresh (source_calls result) fails.items }
    {
        MemSource {
            bytes,
            at: 0,
            most,
            calls: Calls::new(fails),
        }
    }
}

impl Source for MemSource {
    ghost use Rattle.dm_io.specs.Calls.{fault_count, GoesOn};
    ghost use Rattle.dm_io.specs.Memory.{bytes_left, source_answer, source_calls, source_most};
    ghost use Rattle.dm_io.specs.Streams.{Takes, TakeCounts};

    ghost left = { λ s. Some (bytes_left s) };

    ghost faults = { λ s. fault_count (source_calls s) };

    fn take(&mut self, into: &mut [u8]) -> Take
        requires { 0 < length into.old }
        ensures answer { result ≡ source_answer self.old (length into.old) }
        ensures bytes { Takes (Some (bytes_left self.old)) (Some (bytes_left self.new)) into.new result }
        ensures count { TakeCounts (fault_count (source_calls self.old)) (fault_count (source_calls self.new)) result }
        ensures most { source_most self.new ≡ source_most self.old }
        ensures calls { GoesOn (source_calls self.old) (source_calls self.new) }
    {
        if self.calls.count() {
            self.calls.fail();
            return Take::Failed;
        }
        let count = copy_prefix(&self.bytes[self.at..], self.most, into);
        if count == 0 {
            return Take::End;
        }
        self.at += count;
        Take::Got(count)
    }

    ghost fits = { λ s. s.calls.faults_fit };
}
