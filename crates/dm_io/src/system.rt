//! The system's own streams and files. No bytes are known of them: what they give and take is up to the system. Each
//! failed call of the system is counted as a fault, whatever its cause.
//!
//! The clauses of the two streams speak of the reader or the writer that they stand on, in std's own terms: what it
//! will give and what it holds, where std knows it, as it does of a slice of bytes. Of a file std knows nothing, so
//! that no clause of [`DirFiles`] says that a failed call of the system is told as one. Tests do: with a name that
//! isn't there, and with a folder in place of a file.
ghost use Rattle.std.specs.Prelude.{◌≡◌, ◌<◌, ◌≤◌, ◌^◌, ℕ, List, Option, None, true, IfNone, IfSome, length, take};
ghost use Rattle.std.specs.Io.KnownBytes.{Appends};

use crate::streams::{Files, OpenFailed, Put, Sink, Source, Take};
use std::io::{Read, Write};
use std::{fs, rt};

/// A reader of the system, as standard input.
#[derive(Drop)]
pub struct StdSource<R: Read + Drop> {
    input: R,
    faults: u64,
    ghost faults_fit: { faults < 2 ^ 64 },
}

impl<R: Read + Drop> StdSource<R> {
    ghost use Rattle.dm_io.specs.System.{source_faults, source_remaining};

    /// The reader as a source, without a fault so far.
    pub fn new(input: R) -> StdSource<R>
        ensures faults { source_faults result ≡ 0 }
        ensures reader { source_remaining result ≡ R.remaining input }
    {
        StdSource { input, faults: 0 }
    }
}

impl<R: Read + Drop> Source for StdSource<R> {
    ghost use Rattle.dm_io.specs.Streams.{TakeCounts, Takes};
    ghost use Rattle.dm_io.specs.System.{TakesFromReader, source_faults, source_remaining};

    ghost left = { λ _. None };

    ghost faults = { λ s. source_faults s };

    fn take(&mut self, into: &mut [u8]) -> Take
        requires { 0 < length into.old }
        ensures bytes { Takes None None into.new result }
        ensures count { TakeCounts (source_faults self.old) (source_faults self.new) result }
        ensures reader { TakesFromReader (source_remaining self.old) (source_remaining self.new) into.new result }
    {
        match self.input.read(into) {
            Ok(0) => Take::End,
            Ok(count) => Take::Got(count),
            Err(_) => {
                self.faults = self.faults.saturating_add(1);
                Take::Failed
            }
        }
    }

    ghost fits = { λ s. s.faults_fit };
}

/// A writer of the system, as standard output and standard error. What is put is flushed at once.
#[derive(Drop)]
pub struct StdSink<W: Write + Drop> {
    output: W,
    faults: u64,
    ghost faults_fit: { faults < 2 ^ 64 },
}

impl<W: Write + Drop> StdSink<W> {
    ghost use Rattle.dm_io.specs.System.{sink_contents, sink_faults};

    /// The writer as a sink, without a fault so far.
    pub fn new(output: W) -> StdSink<W>
        ensures faults { sink_faults result ≡ 0 }
        ensures writer { sink_contents result ≡ W.contents output }
    {
        StdSink { output, faults: 0 }
    }

    /// Writes some of the piece and flushes it. None where a call failed or nothing was written; where the writing did
    /// its work and the flushing failed, a prefix of the piece was written all the same.
    fn write_some(&mut self, piece: &[u8]) -> Option<usize>
        ensures same { sink_faults self.new ≡ sink_faults self.old }
        ensures within { IfSome result (λ n. (1 ≤ n) × (n ≤ length piece.now)) }
        ensures written { IfSome result (λ n. Appends (sink_contents self.old) (sink_contents self.new) (take n piece.now)) }
        ensures failed { IfNone result ((n : ℕ) × (n ≤ length piece.now) × Appends (sink_contents self.old) (sink_contents self.new) (take n piece.now)) }
    {
        let count = self.output.write(piece).ok()?;
        self.output.flush().ok()?;
        if count == 0 { None } else { Some(count) }
    }
}

impl<W: Write + Drop> Sink for StdSink<W> {
    ghost use Rattle.dm_io.specs.Streams.{PutCounts, Puts};
    ghost use Rattle.dm_io.specs.System.{PutsIntoWriter, sink_contents, sink_faults};

    ghost written = { λ _. None };

    ghost faults = { λ s. sink_faults s };

    fn put(&mut self, piece: &[u8]) -> Put
        requires { 0 < length piece.now }
        ensures bytes { Puts None None piece.now result }
        ensures count { PutCounts (sink_faults self.old) (sink_faults self.new) result }
        ensures writer { PutsIntoWriter (sink_contents self.old) (sink_contents self.new) piece.now result }
    {
        match self.write_some(piece) {
            Some(count) => Put::Took(count),
            None => {
                self.faults = self.faults.saturating_add(1);
                Put::Failed
            }
        }
    }

    ghost fits = { λ s. s.faults_fit };
}

/// The files of the working folder. Before the first opening nothing is left. A folder in place of a file is a fault,
/// when it is opened or when it is first read.
#[derive(Drop)]
pub struct DirFiles<R: rt::Files + Drop> {
    folder: R,
    file: Option<R::File>,
    faults: u64,
    ghost faults_fit: { faults < 2 ^ 64 },
}

impl<R: rt::Files + Drop> DirFiles<R> {
    ghost use Rattle.dm_io.specs.System.{files_faults};

    /// The files that the runtime reaches, without a fault so far. Nothing is open yet.
    pub fn new(folder: R) -> DirFiles<R>
        ensures { files_faults result ≡ 0 }
    {
        DirFiles {
            folder,
            file: None,
            faults: 0,
        }
    }
}

impl<R: rt::Files + Drop> Source for DirFiles<R> {
    ghost use Rattle.dm_io.specs.System.{files_faults};

    ghost left = { λ _. None };

    ghost faults = { λ s. files_faults s };

    fn take(&mut self, into: &mut [u8]) -> Take {
        let Some(file) = &mut self.file else {
            return Take::End;
        };
        match file.read(into) {
            Ok(0) => Take::End,
            Ok(count) => Take::Got(count),
            Err(_) => {
                self.faults = self.faults.saturating_add(1);
                Take::Failed
            }
        }
    }

    ghost fits = { λ s. s.faults_fit };
}

impl<R: rt::Files + Drop> Files for DirFiles<R> {
    ghost holds = { λ _ _. None };

    ghost allows = { λ _ _. true };

    fn open_file(&mut self, name: &str) -> Result<(), OpenFailed> {
        match fs::open(&self.folder, name) {
            Ok(file) => {
                self.file = Some(file);
                Ok(())
            }
            Err(_) => {
                self.faults = self.faults.saturating_add(1);
                Err(OpenFailed)
            }
        }
    }
}
