//! Sources, files and sinks of bytes. Each counts its faults in a number that stands still at 2^64 - 1.
ghost use Rattle.std.specs.Prelude.{Bool, IsTrue, ◌≡◌, ◌<◌, ◌^◌, ℕ, List, Option, length, OnOk, OnErr};
ghost use Rattle.dm_io.specs.Streams.{Takes, TakeCounts, Puts, PutCounts, Rose};

/// What a source answers.
#[derive(Clone, Copy, Debug, PartialEq, Eq)]
pub enum Take {
    /// So many bytes, at least one, stand at the beginning of the buffer.
    Got(usize),
    /// Nothing is left.
    End,
    /// The source failed; its count of faults rose.
    Failed,
}

/// What a sink answers.
#[derive(Clone, Copy, Debug, PartialEq, Eq)]
pub enum Put {
    /// So many bytes, at least one, were taken from the beginning of the piece.
    Took(usize),
    /// The sink failed; its count of faults rose.
    Failed,
}

/// A file was not opened; the count of faults rose.
#[derive(Clone, Copy, Debug, PartialEq, Eq)]
pub struct OpenFailed;

/// Bytes that can be taken once.
pub trait Source {
    /// The bytes that are left, where the source tells them.
    ghost left: { Self → Option (List ℕ) };

    /// How often it has failed. The count stands still at its last value.
    ghost faults: { Self → ℕ };

    /// Takes some of the bytes that are left into the beginning of `into`.
    fn take(&mut self, into: &mut [u8]) -> Take
        requires { 0 < length into.old }
        ensures bytes { Takes (left self.old) (left self.new) into.new result }
        ensures count { TakeCounts (faults self.old) (faults self.new) result };

    /// The count of faults is a number of 64 bits.
    ghost fits: { (s : Self) → faults s < 2 ^ 64 };
}

/// Files that are opened by name, one after the other. One count covers opening and reading.
pub trait Files: Source {
    /// What the file of a name holds, where that is known.
    ghost holds: { Self → List ℕ → Option (List ℕ) };

    /// Whether a name may be asked for.
    ghost allows: { Self → List ℕ → Bool };

    /// Opens the file of a name. What is left is then what the file holds. A name that isn't there is a fault.
    fn open_file(&mut self, name: &str) -> Result<(), OpenFailed>
        requires { IsTrue (allows self.old name.now) }
        ensures opened { OnOk result (Self.left self.new ≡ holds self.old name.now) }
        ensures faults_stay { OnOk result (Self.faults self.new ≡ Self.faults self.old) }
        ensures stays { OnErr result (Self.left self.new ≡ Self.left self.old) }
        ensures only_on_fault { OnErr result (Rose (Self.faults self.old) (Self.faults self.new)) }
        ensures same_files { holds self.new ≡ holds self.old }
        ensures same_names { allows self.new ≡ allows self.old };
}

/// Where bytes go.
pub trait Sink {
    /// The bytes that were written, where the sink tells them.
    ghost written: { Self → Option (List ℕ) };

    /// How often it has failed. The count stands still at its last value.
    ghost faults: { Self → ℕ };

    /// Writes some of the piece, from its beginning.
    fn put(&mut self, piece: &[u8]) -> Put
        requires { 0 < length piece.now }
        ensures bytes { Puts (written self.old) (written self.new) piece.now result }
        ensures count { PutCounts (faults self.old) (faults self.new) result };

    /// The count of faults is a number of 64 bits.
    ghost fits: { (s : Self) → faults s < 2 ^ 64 };
}
