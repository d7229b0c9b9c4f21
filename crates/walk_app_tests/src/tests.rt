//! Worked runs with what they print, by several numbers of workers; a run for each way to end; and runs in which each call
//! fails in turn. The visits of the plan with two rows of points were counted by another program.

use dm_io::{MemFiles, MemSink, NoGate};
use std::alloc::{AllocError, Global};
use std::process::Abort;
use std::test::Fail;
use std::thread::Threads;
use walk_app::*;

/// What a run is given besides its words and its plan.
#[derive(Clone, Copy)]
struct Given {
    /// How many bytes a take of the file gives, and a put takes, at most.
    most: usize,
    /// The number of the opening or the take of the file, and of the put, that fails.
    file_fails: Option<u64>,
    put_fails: Option<u64>,
    /// How many bytes standard error has room for.
    err_room: usize,
}

const AMPLE: Given = Given {
    most: 4096,
    file_fails: None,
    put_fails: None,
    err_room: 4096,
};

/// How a run ended, and what it wrote.
#[derive(Drop)]
struct Ended {
    status: WalkStatus,
    out: MemSink,
    err: MemSink,
}

fn owned(alloc: Global, words: &[&str]) -> Result<Vec<String>, AllocError> {
    let mut all = Vec::new(alloc);
    for word in words {
        all.push((*word).to_owned(alloc)?)?;
    }
    Ok(all)
}

/// The numbers of the calls that fail: this one, or none.
fn failing(alloc: Global, number: Option<u64>) -> Result<Vec<u64>, AllocError> {
    let mut fails = Vec::new(alloc);
    if let Some(number) = number {
        fails.push(number)?;
    }
    Ok(fails)
}

/// Runs over a file of the name `p` that holds the plan.
fn run_with(
    rt: &(impl Threads + Sync),
    alloc: Global,
    words: &[&str],
    plan: &str,
    given: Given,
) -> Result<Ended, Fail> {
    let words = owned(alloc, words)?;
    let mut names = Vec::new(alloc);
    names.push("p".to_owned(alloc)?)?;
    let mut contents = Vec::new(alloc);
    contents.push(plan.as_bytes().to_vec(alloc)?)?;
    let most = given.most.max(1);
    let mut files = MemFiles::new(names, contents, most, failing(alloc, given.file_fails)?);
    let mut out = MemSink::new(alloc, 65536, most, failing(alloc, given.put_fails)?)?;
    let mut err = MemSink::new(alloc, given.err_room, 4096, Vec::new(alloc))?;
    let status = walk_run(rt, alloc, &words, &mut files, &mut out, &mut err, &NoGate);
    Ok(Ended { status, out, err })
}

/// A room with two points, between which two boxes pinch the line of sight.
const TWO: &str = "plan 1\nouterbox 0 0 10 10\nbox A 2 2 4 4\nbox B 6 4 8 6\ngrid 10 0 4 2 1\n";

const TWO_TABLE: &str = "table visits\n0 0 4 8\n1 10 4 8\ntotal 16\nend 2\n";

/// A room with one point.
const ONE: &str = "plan 1\nouterbox 0 0 10 10\ngrid 1 5 5 1 1\n";

const ONE_TABLE: &str = "table visits\n0 5 5 15\ntotal 15\nend 1\n";

/// The same with a box around the point.
const NONE_OPEN: &str = "plan 1\nouterbox 0 0 10 10\ngrid 1 5 5 1 1\nbox A 4 4 6 6\n";

/// A room without a grid.
const NO_GRID: &str = "plan 1\nouterbox 0 0 10 10\n";

/// A room with two rows of four points, all in sight of each other.
const ROWS: &str = "plan 1\nouterbox 0 0 10 10\ngrid 2 2 4 4 2\n";

const ROWS_TABLE: &str =
    "table visits\n0 2 4 6\n1 4 4 5\n2 6 4 4\n3 8 4 6\n4 2 6 5\n5 4 6 3\n6 6 6 2\n7 8 6 4\ntotal 35\nend 8\n";

/// Words, a plan, and the output where all is done.
const RUNS: [(&[&str], &str, &str); 6] = [
    (&["-f", "p", "4", "3", "99", "2"], TWO, TWO_TABLE),
    (&["-f", "p", "3", "4", "0", "1"], ONE, ONE_TABLE),
    (&["-f", "p", "5", "6", "7", "1"], ROWS, ROWS_TABLE),
    (&["-f", "p", "5", "6", "7", "2"], ROWS, ROWS_TABLE),
    (&["-f", "p", "5", "6", "7", "64"], ROWS, ROWS_TABLE),
    (
        &["-f", "p", "005", "06", "000000007", "03"],
        ROWS,
        ROWS_TABLE,
    ),
];

#[test]
fn worked_runs(rt: HostRuntime) -> Result<(), Fail> {
    for (words, plan, table) in RUNS {
        let ended = run_with(&rt, rt.alloc(), words, plan, AMPLE)?;
        assert_eq!(rt; ended.status, WalkStatus::Done);
        assert!(rt; ended.out.bytes() == table.as_bytes());
        assert!(rt; ended.err.bytes().is_empty());
    }
    Ok(())
}

const USAGE: &str = "depth_walk: usage: depth_walk -f FILE WALKERS STEPS SEED WORKERS\n";

const CANNOT_READ: &str = "depth_walk: cannot read\n";

const NO_OPEN: &str = "depth_walk: no open point\n";

const WORDS: &[&str] = &["-f", "p", "4", "3", "99", "2"];

const OPENING_FAILS: Given = Given {
    file_fails: Some(0),
    ..AMPLE
};

const FILE_FAILS: Given = Given {
    file_fails: Some(1),
    ..AMPLE
};

const FIRST_PUT_FAILS: Given = Given {
    put_fails: Some(0),
    ..AMPLE
};

const ROOM_TO_SAY_FIVE: Given = Given {
    err_room: 5,
    ..AMPLE
};

/// Words, a plan, what the run is given besides, the number of the status, and what is said on standard error; nothing is
/// written.
const STATUSES: [(&[&str], &str, Given, u8, &str); 16] = [
    (&[], TWO, AMPLE, 2, USAGE),
    (&["-f", "p", "4", "3", "99"], TWO, AMPLE, 2, USAGE),
    (&["-f", "p", "4", "3", "99", "2", "1"], TWO, AMPLE, 2, USAGE),
    (&["-g", "p", "4", "3", "99", "2"], TWO, AMPLE, 2, USAGE),
    (&["-f", "p", "0", "3", "99", "2"], TWO, AMPLE, 2, USAGE),
    (&["-f", "p", "1001", "3", "99", "2"], TWO, AMPLE, 2, USAGE),
    (&["-f", "p", "4", "10001", "99", "2"], TWO, AMPLE, 2, USAGE),
    (
        &["-f", "p", "4", "3", "1000000000", "2"],
        TWO,
        AMPLE,
        2,
        USAGE,
    ),
    (&["-f", "p", "4", "3", "99", "65"], TWO, AMPLE, 2, USAGE),
    (
        WORDS,
        "plan 1\n",
        AMPLE,
        3,
        "depth_walk: plan line 2: order\n",
    ),
    (
        &["-f", "q", "4", "3", "99", "2"],
        TWO,
        AMPLE,
        4,
        CANNOT_READ,
    ),
    (WORDS, TWO, OPENING_FAILS, 4, CANNOT_READ),
    (WORDS, TWO, FILE_FAILS, 4, CANNOT_READ),
    (WORDS, TWO, FIRST_PUT_FAILS, 5, "depth_walk: cannot write\n"),
    (WORDS, NONE_OPEN, AMPLE, 8, NO_OPEN),
    (WORDS, NO_GRID, ROOM_TO_SAY_FIVE, 8, "depth"),
];

#[test]
fn each_way_to_end(rt: HostRuntime) -> Result<(), Fail> {
    for (words, plan, given, number, said) in STATUSES {
        let ended = run_with(&rt, rt.alloc(), words, plan, given)?;
        assert_eq!(rt; ended.status.code(), number);
        assert!(rt; ended.out.bytes().is_empty());
        assert!(rt; ended.err.bytes() == said.as_bytes());
    }
    Ok(())
}

/// Has the put of each number fail, one after the other, until the run is done: a beginning of the table is written, and
/// with one byte a put as many bytes as puts came before.
#[test]
fn each_put_fails_in_turn(rt: HostRuntime) -> Result<(), Fail> {
    for number in 0..200u64 {
        let given = Given {
            most: 1,
            put_fails: Some(number),
            ..AMPLE
        };
        let ended = run_with(&rt, rt.alloc(), WORDS, TWO, given)?;
        let out = ended.out.bytes();
        assert!(rt; TWO_TABLE.as_bytes().starts_with(out), "at {number}");
        if ended.status == WalkStatus::Done {
            assert!(rt; number as usize == TWO_TABLE.len() && out.len() == TWO_TABLE.len());
            return Ok(());
        }
        assert_eq!(rt; ended.status, WalkStatus::WriteFault);
        assert!(rt; out.len() as u64 == number, "at {number}");
    }
    assert!(rt; false, "no run is done");
    Ok(())
}
