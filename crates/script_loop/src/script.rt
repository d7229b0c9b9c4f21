//! The loop over the lines of a script.

ghost use Rattle.std.specs.Prelude.{◌<◌, ◌^◌};
ghost use Rattle.script_loop.specs.Ends.{Counts, Leaves};

use crate::answerer::{AnswerFault, Answerer};
use dm_io::{LineReader, Next, Sink, Source};
use std::thread::Threads;

/// How the answering of a script ends.
#[derive(Clone, Copy, Debug, PartialEq, Eq)]
pub enum ScriptEnd {
    /// All lines were answered; whether one was refused.
    All(bool),
    /// The script failed; its count of faults rose. All lines that came whole were answered.
    Failed,
    /// The sink failed; its count of faults rose. Of the answerer's state nothing is said then.
    Unwritten,
    /// There is no memory. Of the answerer's state nothing is said then.
    NoMemory,
    /// The script is longer than the limit. All lines whose newline is within it were answered.
    Over,
}

/// Answers the lines of a script of at most `limit` bytes. More of the script is taken only once every line that was
/// taken whole is answered, so that whoever types it gets each reply before the next line.
///
/// Cost: one pass over the script's bytes, and that of the answers; memory for one line.
pub fn answer_script<A: Answerer, S: Source, O: Sink>(
    rt: &(impl Threads + Sync),
    answerer: &mut A,
    limit: u64,
    script: &mut S,
    out: &mut O,
) -> ScriptEnd
    requires limit { limit < 2 ^ 63 }
    ensures leaves { Leaves A.step limit (A.state answerer.old) (A.state answerer.new) (S.left script.old) (S.left script.new) (O.written out.old) (O.written out.new) result }
    ensures counts { Counts (S.faults script.old) (S.faults script.new) (O.faults out.old) (O.faults out.new) result }
{
    let mut reader = LineReader::new(limit);
    let mut refused = false;
    'lines: loop {
        let line = match reader.next(script) {
            Next::Line => Some(reader.bytes()),
            Next::Long => None,
            Next::End => return ScriptEnd::All(refused),
            Next::Failed => return ScriptEnd::Failed,
            Next::Over => return ScriptEnd::Over,
        };
        match answerer.answer(rt, reader.number(), line, out) {
            Ok(line_refused) => refused = refused || line_refused,
            Err(AnswerFault::Write) => return ScriptEnd::Unwritten,
            Err(AnswerFault::NoMemory) => return ScriptEnd::NoMemory,
        }
    }
}
