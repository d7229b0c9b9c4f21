//! The gate.

use dm_io::Gate;
use std::hint::spin_loop;
use std::sync::atomic::{AtomicBool, AtomicU32, Ordering};

/// How many turns the first worker is held at most.
const MOST_TURNS: u32 = 100_000_000;

/// Stands for no worker.
const NOBODY: u32 = u32::MAX;

/// Holds the worker of the first row that it is told, until another worker has told a row or 10^8 turns have passed. So
/// where it says that two came, two worked side by side. No contract sees what it is told.
#[derive(Drop)]
pub struct MeetingGate {
    first: AtomicU32,
    met: AtomicBool,
}

impl MeetingGate {
    /// A gate that was told nothing.
    pub fn new() -> MeetingGate {
        MeetingGate {
            first: AtomicU32::new(NOBODY),
            met: AtomicBool::new(false),
        }
    }

    /// Whether two workers have told a row.
    pub fn have_two_met(&self) -> bool {
        self.met.load(Ordering::SeqCst)
    }

    /// Waits until two have met, but not for ever.
    fn hold(&self) {
        for _ in 0..MOST_TURNS {
            if self.have_two_met() {
                return;
            }
            spin_loop();
        }
    }
}

impl Gate for MeetingGate {
    fn row(&self, worker: u32, _row: u32) {
        match self
            .first
            .compare_exchange(NOBODY, worker, Ordering::SeqCst, Ordering::SeqCst)
        {
            Ok(_nobody) => self.hold(),
            Err(first) => {
                if first != worker {
                    self.met.store(true, Ordering::SeqCst);
                }
            }
        }
    }
}
