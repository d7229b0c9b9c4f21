//! A script answered line by line, with lines of all endings, in pieces, and with faults.

ghost use Rattle.std.specs.Prelude.{◌<◌, ◌≤◌, ◌^◌};

use crate::answerer::{AnswerFault, Answerer};
use crate::script::{ScriptEnd, answer_script};
use dm_io::{MemSink, MemSource, Sink, put_all};
use std::alloc::Global;
use std::test::Fail;
use std::thread::Threads;

/// Answers a line with a dot, and refuses one that is too long with an exclamation mark.
#[derive(Drop)]
struct Dots;

impl Answerer for Dots {
    ghost use Rattle.std.specs.Prelude.{[], ◌∷◌, if◌then◌else◌, true, false};
    ghost use Rattle.text_spec.specs.Lines.{is_long};

    ghost State = { Unit {0} };

    ghost state = { λ dots. record {} };

    ghost step = { λ state number line. if is_long line then record { state = state; reply = 33 ∷ []; refused = true } else record { state = state; reply = 46 ∷ []; refused = false } };

    fn answer<R: Threads + Sync, O: Sink>(
        &mut self,
        _rt: &R,
        _number: u64,
        line: Option<&[u8]>,
        out: &mut O,
    ) -> Result<bool, AnswerFault> {
        let mark = if line.is_some() { b"." } else { b"!" };
        match put_all(out, mark) {
            Ok(()) => Ok(line.is_none()),
            Err(_fault) => Err(AnswerFault::Write),
        }
    }
}

/// Answers a script of which a take gives `most` bytes, where the calls of a number fail: how that ends, and what is
/// written.
fn answered(
    threads: &(impl Threads + Sync),
    alloc: Global,
    text: &[u8],
    most: usize,
    limit: u64,
    script_fails: &[u64],
    out_fails: &[u64],
) -> Result<(ScriptEnd, MemSink), Fail>
    requires most { 1 ≤ most }
    requires limit { limit < 2 ^ 63 }
{
    let mut bytes = Vec::new(alloc);
    bytes.extend_from_slice(text)?;
    let mut failing = Vec::new(alloc);
    failing.extend_from_slice(script_fails)?;
    let mut script = MemSource::new(bytes, most, failing);
    let mut failing = Vec::new(alloc);
    failing.extend_from_slice(out_fails)?;
    let mut out = MemSink::new(alloc, 8, 8, failing)?;
    let end = answer_script(threads, &mut Dots, limit, &mut script, &mut out);
    Ok((end, out))
}

/// A script, how many bytes a take gives, the limit, which takes fail, which puts fail; how it ends, and what is
/// written.
type Row = (
    &'static [u8],
    usize,
    u64,
    &'static [u64],
    &'static [u64],
    ScriptEnd,
    &'static [u8],
);

#[test]
fn each_line_is_answered_once(rt: HostRuntime) -> Result<(), Fail> {
    let table: [Row; 9] = [
        (b"", 1, 9, &[], &[], ScriptEnd::All(false), b""),
        (b"a", 1, 9, &[], &[], ScriptEnd::All(false), b"."),
        (b"a\n", 4096, 9, &[], &[], ScriptEnd::All(false), b"."),
        (b"a\r\n\nb", 1, 9, &[], &[], ScriptEnd::All(false), b"..."),
        (b"a\nb\nc", 2, 5, &[], &[], ScriptEnd::All(false), b"..."),
        (b"a\nb\nc", 2, 4, &[], &[], ScriptEnd::Over, b".."),
        (b"a\nb\nc", 1, 9, &[3], &[], ScriptEnd::Failed, b"."),
        (b"a\nb\nc", 1, 9, &[0], &[], ScriptEnd::Failed, b""),
        (b"a\nb\nc", 1, 9, &[], &[1], ScriptEnd::Unwritten, b"."),
    ];
    for (text, most, limit, script_fails, out_fails, wanted, written) in table {
        let (end, out) = answered(&rt, rt.alloc(), text, most, limit, script_fails, out_fails)?;
        assert_eq!(rt; end, wanted);
        assert!(rt; out.bytes() == written);
    }
    Ok(())
}

#[test]
fn a_line_that_is_too_long_is_refused(rt: HostRuntime) -> Result<(), Fail> {
    let mut text = vec![in rt.alloc(); b'a'; 20001]?;
    text.extend_from_slice(b"\nb\n")?;
    let (end, out) = answered(&rt, rt.alloc(), &text, 4096, 30000, &[], &[])?;
    assert_eq!(rt; end, ScriptEnd::All(true));
    assert!(rt; out.bytes() == b"!.".as_slice());
    Ok(())
}
