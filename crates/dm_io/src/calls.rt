//! Numbered calls, some of which fail, and the copying that sources in memory share.
ghost use Rattle.std.specs.Prelude.{◌≡◌, ◌<◌, ◌^◌, min, take, length};
ghost use Rattle.std.specs.List.{list_any};

/// The calls of an object in memory, numbered from 0. Those whose numbers are listed fail. The next call's number and
/// the count of faults stand still at 2^64 - 1.
#[derive(Drop)]
pub struct Calls {
    fails: Vec<u64>,
    number: u64,
    faults: u64,
    ghost number_fits: { number < 2 ^ 64 },
    ghost faults_fit: { faults < 2 ^ 64 },
}

impl Calls {
    ghost use Rattle.dm_io.specs.Calls.{failing_calls, fault_count, next_fails, next_number, GoesOn, IsFresh};
    ghost use Rattle.dm_io.specs.Streams.{Rose};

    /// No call was made yet.
    pub fn new(fails: Vec<u64>) -> Calls
        ensures { IsFresh result fails.items }
    {
        Calls {
            fails,
            number: 0,
            faults: 0,
        }
    }

    /// Counts a call. Whether it is one of those that fail.
    pub fn count(&mut self) -> bool
        ensures fails { result ≡ next_fails self.old }
        ensures next { GoesOn self.old self.new }
        ensures faults_stay { fault_count self.new ≡ fault_count self.old }
    {
        let number = self.number;
        self.number = number.saturating_add(1);
        self.fails.contains(&number)
    }

    /// Counts a fault.
    pub fn fail(&mut self)
        ensures rose { Rose (fault_count self.old) (fault_count self.new) }
        ensures fails { failing_calls self.new ≡ failing_calls self.old }
        ensures number { next_number self.new ≡ next_number self.old }
    {
        self.faults = self.faults.saturating_add(1);
    }
}

/// Copies the beginning of `bytes` to the beginning of `into`: at most `most` bytes, and no more than there are and
/// fit.
pub fn copy_prefix(bytes: &[u8], most: usize, into: &mut [u8]) -> usize
    ensures count { result ≡ min (min (length bytes.now) most) (length into.old) }
    ensures copied { take result into.new ≡ take result bytes.now }
{
    let count = bytes.len().min(most).min(into.len());
    into[..count].copy_from_slice(&bytes[..count]);
    count
}
