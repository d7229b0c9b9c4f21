//! Reads and writes of all bytes, over any source and sink.
ghost use Rattle.std.specs.Prelude.{◌≡◌, ◌⊎◌, [], IsErrOf, ◌<◌, ◌≤◌, ◌+◌, ◌^◌, ℕ, List, length, OnOk, OnErr, IfOk};
ghost use Rattle.dm_io.specs.Streams.{IsPrefix, IsIfKnown, WritesPrefix, Rose, TakesAtMost, appended_to};

use crate::streams::{Put, Sink, Source, Take};
use std::alloc::Global;

/// Why not all was read.
#[derive(Clone, Copy, Debug, PartialEq, Eq)]
pub enum AllFault {
    /// The source failed.
    Failed,
    /// The source gave more bytes than the limit.
    Over,
    /// Out of memory.
    NoMemory,
}

/// The sink failed before all was written.
#[derive(Clone, Copy, Debug, PartialEq, Eq)]
pub struct PutFailed;

/// Writes all the bytes. After `PutFailed` a prefix of them was written. Takes no memory.
///
/// Cost: one pass over the bytes, in as many calls of the sink as it asks for.
pub fn put_all<O: Sink>(sink: &mut O, bytes: &[u8]) -> Result<(), PutFailed>
    ensures all { OnOk result (O.written sink.new ≡ appended_to (O.written sink.old) bytes.now) }
    ensures faults_stay { OnOk result (O.faults sink.new ≡ O.faults sink.old) }
    ensures prefix { OnErr result (WritesPrefix (O.written sink.old) (O.written sink.new) bytes.now) }
    ensures only_on_fault { OnErr result (Rose (O.faults sink.old) (O.faults sink.new)) }
{
    let mut done = 0;
    while done < bytes.len() {
        match sink.put(&bytes[done..]) {
            Put::Took(count) => done += count,
            Put::Failed => return Err(PutFailed),
        }
    }
    Ok(())
}

/// Reads all that is left, at most `limit` bytes. `Over` comes exactly where the source gave one byte more; the source
/// is never asked for a second. After a fault a prefix of what was left was taken.
///
/// Cost: one pass over the bytes, taken in pieces of at most 4096.
pub fn read_all<S: Source>(alloc: Global, source: &mut S, limit: usize) -> Result<Vec<u8>, AllFault>
    requires { limit < 2 ^ 63 }
    ensures all { IfOk result (λ all. IsPrefix (S.left source.old) all.items (S.left source.new)) }
    ensures end { OnOk result (IsIfKnown [] (S.left source.new)) }
    ensures within { IfOk result (λ all. length all.items ≤ limit) }
    ensures over { IsErrOf result AllFault.Over → (prefix : List ℕ) × (length prefix ≡ limit + 1) × IsPrefix (S.left source.old) prefix (S.left source.new) }
    ensures failed { IsErrOf result AllFault.Failed → TakesAtMost limit (S.left source.old) (S.left source.new) }
    ensures no_memory { OnErr result (TakesAtMost (limit + 1) (S.left source.old) (S.left source.new)) }
    ensures only_on_fault { IsErrOf result AllFault.Failed → Rose (S.faults source.old) (S.faults source.new) }
    ensures faults_stay { IsErrOf result AllFault.Failed ⊎ (S.faults source.new ≡ S.faults source.old) }
{
    let mut all = Vec::new(alloc);
    let mut chunk = [0; 4096];
    'chunks: while all.len() <= limit {
        let want = (limit - all.len() + 1).min(4096);
        match source.take(&mut chunk[..want]) {
            Take::Got(count) => {
                if all.extend_from_slice(&chunk[..count]).is_err() {
                    return Err(AllFault::NoMemory);
                }
            }
            Take::End => return Ok(all),
            Take::Failed => return Err(AllFault::Failed),
        }
    }
    Err(AllFault::Over)
}
