//! The program over the system's own files and streams.

ghost use Rattle.std.specs.Prelude.{◌≡◌, ◌⊎◌};
ghost use Rattle.std.specs.Process.{exit_status};
ghost use Rattle.walk_app.specs.Statuses.{code_of};
ghost use Rattle.walk_app.specs.declared.host.TheConstants.{NO_WORDS};

use crate::program::walk_run;
use crate::status::WalkStatus;
use dm_io::{DirFiles, NoGate, StdSink};
use std::env;
use std::process::ExitCode;
use std::thread::Threads;

/// The number that the program ends with where the words can't be had as text, or there is no memory for them.
pub const NO_WORDS: u8 = 9;

/// What the program ends with after a status: its number.
pub fn exit(status: WalkStatus) -> ExitCode
    ensures { exit_status result ≡ code_of status }
{
    ExitCode::from(status.code())
}

/// The words after the program's name, where they are text and there is memory for them.
fn words(rt: &HostRuntime) -> Option<Vec<String>> {
    let mut words = Vec::new(rt.alloc());
    for word in env::args(rt).ok()?.skip(1) {
        words.push(word).ok()?;
    }
    Some(words)
}

/// All that a program's `main` does: it makes the real files and streams, calls [`walk_run`] and ends with its status.
/// Ends with [`NO_WORDS`] where there are no words to run on. A `main` hands over its runtime twice,
/// `start(&rt, rt)`, since it alone may make threads of it.
pub fn start<R: Threads + Sync>(threads: &R, rt: HostRuntime) -> ExitCode
    ensures { (exit_status result ≡ NO_WORDS) ⊎ ((status : WalkStatus) × (exit_status result ≡ code_of status)) }
{
    let Some(words) = words(&rt) else {
        let _ = rt.eprintln("depth_walk: no words");
        return ExitCode::from(NO_WORDS);
    };
    let status = walk_run(
        threads,
        rt.alloc(),
        &words,
        &mut DirFiles::new(&rt),
        &mut StdSink::new(rt.stdout()),
        &mut StdSink::new(rt.stderr()),
        &NoGate,
    );
    exit(status)
}
