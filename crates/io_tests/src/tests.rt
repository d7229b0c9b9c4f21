//! What no clause says: that calls succeed, over tables of sizes, pieces and failing calls, and the system's own
//! objects.

ghost use Rattle.std.specs.Prelude.{ℕ, List, IsTrue};

use dm_io::{
    AllFault, DirFiles, Files, LineReader, MemFiles, MemSink, MemSource, Next, OutputBuffer, Put,
    PutFailed, Sink, Source, StdSink, StdSource, Take, put_all, read_all,
};
use std::alloc::{AllocError, Global};
use std::fs;
use std::test::Fail;

/// The bytes of each line before its ending.
const LENGTHS: [usize; 6] = [0, 1, 19_999, 20_000, 20_001, 40_000];

/// An ending of lines, and what is shown of the lines of each length. None is for a line that is too long.
const ENDINGS: [(&[u8], [Option<usize>; 6]); 3] = [
    (
        b"\n",
        [Some(0), Some(1), Some(19_999), Some(20_000), None, None],
    ),
    (b"\r\n", [Some(0), Some(1), Some(19_999), None, None, None]),
    (b"\r\r\n", [Some(1), Some(2), None, None, None, None]),
];

/// The bytes of a last line without a newline, and what is shown of it. A line without bytes is none.
const LASTS: [(usize, &[Option<usize>]); 4] = [
    (0, &[]),
    (1, &[Some(1)]),
    (20_000, &[Some(20_000)]),
    (20_001, &[None]),
];

/// The most bytes of a take, and how far apart the takes are that are made to fail, one a run.
const PIECES: [(usize, u64); 3] = [(1, 29_989), (7, 2_999), (4096, 1)];

fn text_of(alloc: Global, ending: &[u8], last: usize) -> Result<Vec<u8>, AllocError> {
    let mut text = Vec::new(alloc);
    for length in LENGTHS {
        for _ in 0..length {
            text.push(b'a')?;
        }
        text.extend_from_slice(ending)?;
    }
    for _ in 0..last {
        text.push(b'z')?;
    }
    Ok(text)
}

/// What a reader showed of each line until it answered something else, and that answer.
#[derive(Drop)]
struct Reading {
    shown: Vec<Option<usize>>,
    end: Next,
}

fn read_lines(alloc: Global, source: &mut MemSource, limit: u64) -> Result<Reading, AllocError> {
    let mut reader = LineReader::new(limit.min(1 << 20));
    let mut shown = Vec::new(alloc);
    for _ in 0..10 {
        match reader.next(source) {
            Next::Line => shown.push(Some(reader.bytes().len()))?,
            Next::Long => shown.push(None)?,
            end => return Ok(Reading { shown, end }),
        }
    }
    Ok(Reading {
        shown,
        end: Next::Line,
    })
}

/// How many newlines stand among the first bytes.
fn newlines(text: &[u8], count: usize) -> usize {
    text.iter().take(count).filter(|b| **b == b'\n').count()
}

/// Reads the lines of a text, of which the take of one number fails, and says what was shown, how it ended and how many
/// bytes were taken.
fn read_with_fault(
    alloc: Global,
    text: &Vec<u8>,
    most: usize,
    fault: u64,
) -> Result<(Reading, usize), Fail> {
    let mut fails = Vec::new(alloc);
    fails.push(fault)?;
    let mut source = MemSource::new(text.clone()?, most.max(1), fails);
    let reading = read_lines(alloc, &mut source, text.len() as u64)?;
    if reading.end == Next::End {
        return Ok((reading, text.len()));
    }
    let rest = read_all(alloc, &mut source, 1 << 20)?;
    Ok((reading, text.len().saturating_sub(rest.len())))
}

#[test]
fn lines_come_in_any_pieces(rt: HostRuntime) -> Result<(), Fail> {
    for (ending, shown) in ENDINGS {
        for (last, last_shown) in LASTS {
            let text = text_of(rt.alloc(), ending, last)?;
            let mut all = shown.to_vec(rt.alloc())?;
            all.extend_from_slice(last_shown)?;
            for (most, _step) in PIECES {
                // single bytes are slow, and one last line of them is enough
                if most > 1 || last == 1 {
                    let size = text.len() as u64;
                    let mut source = MemSource::new(
                        text.clone()?,
                        most.max(1),
                        Vec::new(rt.alloc()),
                    );
                    let reading = read_lines(rt.alloc(), &mut source, size)?;
                    assert_eq!(rt; reading.end, Next::End, "pieces of {most}");
                    assert_eq!(rt;
                        reading.shown.as_slice(),
                        all.as_slice(),
                        "pieces of {most}"
                    );
                }
            }
        }
    }
    Ok(())
}

#[test]
fn the_limit_is_told_after_each_whole_line(rt: HostRuntime) -> Result<(), Fail> {
    for (ending, shown) in ENDINGS {
        let text = text_of(rt.alloc(), ending, 1)?;
        for limit in [
            0,
            1,
            2,
            20_000,
            20_001,
            20_002,
            text.len().saturating_sub(1),
        ] {
            let mut source = MemSource::new(text.clone()?, 4096, Vec::new(rt.alloc()));
            let reading = read_lines(rt.alloc(), &mut source, limit as u64)?;
            assert_eq!(rt; reading.end, Next::Over, "limit {limit}");
            let whole = newlines(&text, limit);
            assert!(rt; whole <= shown.len());
            assert_eq!(rt; reading.shown.as_slice(), &shown[..whole], "limit {limit}");
            let rest = read_all(rt.alloc(), &mut source, 1 << 20)?;
            assert_eq!(rt;
                text.len().saturating_sub(rest.len()),
                limit + 1,
                "limit {limit}"
            );
        }
    }
    Ok(())
}

#[test]
fn a_fault_comes_after_each_whole_line(rt: HostRuntime) -> Result<(), Fail> {
    for (ending, shown) in ENDINGS {
        let text = text_of(rt.alloc(), ending, 1)?;
        for (most, step) in PIECES {
            let mut past_the_end = false;
            for run in 0..1000u64 {
                let fault = run.saturating_mul(step);
                let (reading, taken) = read_with_fault(rt.alloc(), &text, most, fault)?;
                if reading.end == Next::End {
                    assert_eq!(rt; reading.shown.len(), shown.len() + 1, "pieces of {most}");
                    assert!(rt;
                        reading.shown.starts_with(&shown) && run > 3,
                        "pieces of {most}"
                    );
                    past_the_end = true;
                    break;
                }
                assert_eq!(rt; reading.end, Next::Failed, "take {fault} of {most}");
                let whole = newlines(&text, taken);
                assert!(rt; whole <= shown.len() && taken <= fault as usize * most);
                assert_eq!(rt;
                    reading.shown.as_slice(),
                    &shown[..whole],
                    "take {fault} of {most}"
                );
            }
            assert!(rt; past_the_end, "pieces of {most}");
        }
    }
    Ok(())
}

/// Limits of a reading of ten bytes, and the fault, if one comes.
const LIMITS: [(usize, Option<AllFault>); 5] = [
    (0, Some(AllFault::Over)),
    (9, Some(AllFault::Over)),
    (10, None),
    (11, None),
    (5000, None),
];

#[test]
fn all_is_read_up_to_the_limit(rt: HostRuntime) -> Result<(), Fail> {
    let bytes = b"0123456789";
    for (limit, fault) in LIMITS {
        for most in [1, 7, 4096] {
            let held = bytes.to_vec(rt.alloc())?;
            let mut source = MemSource::new(held, most, Vec::new(rt.alloc()));
            match read_all(rt.alloc(), &mut source, limit) {
                Ok(all) => {
                    assert_eq!(rt; fault, None, "limit {limit}");
                    assert_eq!(rt; all.as_slice(), bytes.as_slice(), "limit {limit}");
                }
                Err(other) => assert_eq!(rt; fault, Some(other), "limit {limit}"),
            }
        }
    }
    Ok(())
}

#[test]
fn all_is_put_up_to_the_room_and_the_fault(rt: HostRuntime) -> Result<(), Fail> {
    let bytes = b"0123456789";
    // room, most, the call that fails, the bytes that are held then
    let cases: [(usize, usize, u64, usize); 7] = [
        (10, 1, 10, 10),
        (10, 4096, 9, 10),
        (11, 7, 9, 10),
        (9, 7, 9, 9),
        (0, 1, 9, 0),
        (10, 1, 3, 3),
        (10, 7, 1, 7),
    ];
    for (room, most, fault, held) in cases {
        let mut fails = Vec::new(rt.alloc());
        fails.push(fault)?;
        let mut sink = MemSink::new(rt.alloc(), room, most.max(1), fails)?;
        let answer = put_all(&mut sink, bytes);
        assert_eq!(rt; answer.is_ok(), held == 10, "room {room}, most {most}");
        assert_eq!(rt;
            Some(sink.bytes()),
            bytes.get(..held),
            "room {room}, most {most}"
        );
    }
    Ok(())
}

/// Bytes that are added in pieces and then flushed: how many bytes, how long each piece is, the call of the sink that
/// fails, and how many bytes are held then. Where all are held, the call that would fail is the one after the last.
const WAITED: [(usize, usize, u64, usize); 9] = [
    (0, 1, 0, 0),
    (21, 7, 1, 21),
    (21, 7, 0, 0),
    (66000, 1000, 2, 66000),
    (66000, 1000, 1, 65000),
    (66000, 1000, 0, 0),
    (131072, 65536, 2, 131072),
    (131074, 65537, 2, 131074),
    (131074, 65537, 1, 65537),
];

fn add_in_pieces(sink: &mut MemSink, bytes: &[u8], length: usize) -> Result<(), PutFailed> {
    let mut waiting = OutputBuffer::new();
    for piece in bytes.chunks(length.max(1)) {
        waiting.add(sink, piece)?;
    }
    waiting.flush(sink)
}

#[test]
fn short_pieces_wait_for_few_calls(rt: HostRuntime) -> Result<(), Fail> {
    for (count, length, fault, held) in WAITED {
        let mut bytes = Vec::new(rt.alloc());
        for k in 0..count {
            bytes.push((k % 251) as u8)?;
        }
        let mut fails = Vec::new(rt.alloc());
        fails.push(fault)?;
        let mut sink = MemSink::new(rt.alloc(), 200_000, 200_000, fails)?;
        let answer = add_in_pieces(&mut sink, &bytes, length);
        assert_eq!(rt;
            answer.is_ok(),
            held == count,
            "pieces of {length}, fault {fault}"
        );
        assert_eq!(rt;
            Some(sink.bytes()),
            bytes.get(..held),
            "pieces of {length}, fault {fault}"
        );
    }
    Ok(())
}

/// Calls of two files, `a` with the bytes `first` and `b` without any, of which three bytes are given at most and call
/// 4 fails: the name that is opened, if one is, and how many bytes come. None is for a fault.
const CALLS: [(Option<&str>, Option<usize>); 9] = [
    (None, Some(0)),
    (Some("c"), None),
    (Some("a"), Some(0)),
    (None, Some(3)),
    (None, None),
    (None, Some(2)),
    (None, Some(0)),
    (Some("b"), Some(0)),
    (None, Some(0)),
];

fn two_files(alloc: Global) -> Result<MemFiles, Fail> {
    let mut names = Vec::new(alloc);
    names.push("a".to_owned(alloc)?)?;
    names.push("b".to_owned(alloc)?)?;
    let mut contents = Vec::new(alloc);
    contents.push(b"first".to_vec(alloc)?)?;
    contents.push(Vec::new(alloc))?;
    let mut fails = Vec::new(alloc);
    fails.push(4)?;
    Ok(MemFiles::new(names, contents, 3, fails))
}

/// Opens the name, or takes where there is none.
fn call_of<F: Files>(files: &mut F, name: Option<&str>) -> Option<usize>
    requires { (asked : List ℕ) → IsTrue (F.allows files.old asked) }
{
    let Some(name) = name else {
        let mut buffer = [0; 8];
        return match files.take(&mut buffer) {
            Take::Got(count) => Some(count),
            Take::End => Some(0),
            Take::Failed => None,
        };
    };
    files.open_file(name).ok().map(|_| 0)
}

#[test]
fn files_are_opened_by_name(rt: HostRuntime) -> Result<(), Fail> {
    let mut files = two_files(rt.alloc())?;
    for (name, answer) in CALLS {
        assert_eq!(rt; call_of(&mut files, name), answer, "at {name:?}");
    }
    Ok(())
}

/// Writes a file through a sink and reads it through a source.
fn written_and_read(rt: &HostRuntime, name: &str) -> Result<Vec<u8>, Fail> {
    let mut sink = StdSink::new(fs::create(rt, name)?);
    put_all(&mut sink, b"one\ntwo\n")?;
    let mut source = StdSource::new(fs::open(rt, name)?);
    Ok(read_all(rt.alloc(), &mut source, 100)?)
}

#[test]
fn the_system_reads_back_what_it_wrote(rt: HostRuntime) -> Result<(), Fail> {
    let name = "dm_io.test";
    assert_eq!(rt;
        written_and_read(&rt, name)?.as_slice(),
        b"one\ntwo\n".as_slice()
    );
    let mut files = DirFiles::new(rt);
    // nothing is open, no such file, the file and what it holds
    for (name, answer) in [
        (None, Some(0)),
        (Some("dm_io.none"), None),
        (Some(name), Some(0)),
        (None, Some(8)),
    ] {
        assert_eq!(rt; call_of(&mut files, name), answer, "at {name:?}");
    }
    fs::remove_file(&rt, name)?;
    // a folder in place of a file is a fault when it is opened or when it is read
    assert!(rt; call_of(&mut files, Some(".")).is_none() || call_of(&mut files, None).is_none());
    Ok(())
}

#[test]
fn a_piece_is_put(rt: HostRuntime) {
    let mut out = StdSink::new(rt.stdout());
    assert_eq!(rt; out.put(b"a piece\n"), Put::Took(8));
}
